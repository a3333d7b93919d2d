//! What is known of the size of a file.

/// Between which sizes a file is, in bytes. After a write or a cut that failed they may differ.
#[derive(Clone, Copy)]
pub(crate) struct Extent {
    least: u64,
    most: u64,
}

impl Extent {
    /// One size.
    pub(crate) fn of(size: u64) -> Extent {
        Extent {
            least: size,
            most: size,
        }
    }

    /// From the lesser of two sizes to the greater.
    pub(crate) fn between(one: u64, other: u64) -> Extent {
        Extent {
            least: one.min(other),
            most: one.max(other),
        }
    }

    /// The size, where it is known.
    pub(crate) fn size(self) -> Option<u64> {
        if self.least == self.most {
            Some(self.least)
        } else {
            None
        }
    }

    /// Whether the file may have this size.
    pub(crate) fn allows(self, size: u64) -> bool {
        self.least <= size && size <= self.most
    }
}
