//! What was written to a file since it was synced last.
use std::alloc::Global;
use std::io;

/// The most bytes that are kept of what isn't synced: two of the longest records, with their gates. A journal has one
/// between two syncs.
const KEPT_LIMIT: usize = 2_097_164;

/// How many bytes a write counts for beside its own.
const WRITE_ROOM: usize = 64;

/// A write: its offset and its bytes.
#[derive(Drop)]
pub(crate) struct Write {
    pub(crate) at: u64,
    pub(crate) bytes: Vec<u8>,
}

/// The writes since the last sync that was done, the oldest first.
#[derive(Drop)]
pub(crate) struct Unsynced {
    writes: Vec<Write>,
    // How many bytes they count for together, or more.
    room: usize,
}

impl Unsynced {
    /// None.
    pub(crate) fn new(alloc: Global) -> Unsynced {
        Unsynced {
            writes: Vec::new(alloc),
            room: 0,
        }
    }

    /// One more write. An error where memory for its bytes lacks, or where there would be too many of them.
    pub(crate) fn keep(&mut self, alloc: Global, at: u64, bytes: &[u8]) -> io::Result<()> {
        let room = self
            .room
            .saturating_add(bytes.len())
            .saturating_add(WRITE_ROOM);
        if room > KEPT_LIMIT {
            return Err(io::Error::from(io::ErrorKind::OutOfMemory));
        }
        let bytes = Vec::from_slice(alloc, bytes)?;
        self.writes.push(Write { at, bytes })?;
        self.room = room;
        Ok(())
    }

    /// Of the last write only so many bytes were written.
    pub(crate) fn shorten_last(&mut self, put: usize) {
        if let Some(write) = self.writes.last_mut() {
            write.bytes.truncate(put);
        }
    }

    /// What stands behind a size is cut off.
    pub(crate) fn cut(&mut self, size: u64) {
        for write in self.writes.iter_mut() {
            let left = size.saturating_sub(write.at).min(KEPT_LIMIT as u64);
            write.bytes.truncate(left as usize);
        }
    }

    /// All is synced.
    pub(crate) fn clear(&mut self) {
        self.writes.clear();
        self.room = 0;
    }

    /// The writes.
    pub(crate) fn writes(&self) -> &[Write] {
        self.writes.as_slice()
    }
}
