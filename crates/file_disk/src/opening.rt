//! What the file of a journal is opened for.

/// What a file is opened for.
#[derive(Clone, Copy, PartialEq, Eq)]
pub enum Opening {
    /// To read the journal in it, which may be one that nobody may write to.
    Read,
    /// To read the journal in it, and to append to it.
    Append,
    /// To found a journal in it, where it is unborn and has at most so many bytes, which is what a crash in a founding
    /// may leave. A longer file whose first byte is 0 is something else, and is left as it is.
    Found(u64),
    /// To append to the journal in it, or to found one, as for [`Opening::Found`].
    FoundOrAppend(u64),
}

impl Opening {
    /// Whether nothing is to be written.
    pub(crate) fn is_read(self) -> bool {
        matches!(self, Opening::Read)
    }

    /// Whether a journal that is there may be appended to.
    pub(crate) fn is_append(self) -> bool {
        matches!(self, Opening::Append | Opening::FoundOrAppend(_))
    }

    /// The most bytes of an unborn file that a journal may be founded in, where one may be.
    pub(crate) fn founding_limit(self) -> Option<u64> {
        match self {
            Opening::Found(limit) | Opening::FoundOrAppend(limit) => Some(limit),
            Opening::Read | Opening::Append => None,
        }
    }
}
