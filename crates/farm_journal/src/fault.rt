//! Why a call on a journal wasn't done.
use thiserror::Error;

/// Why no journal was created.
#[derive(Clone, Copy, Debug, Error)]
pub enum CreateFault {
    /// The disk holds something already: it isn't unborn.
    #[error("the journal is already founded")]
    AlreadyBorn,
    /// The disk failed: its count of faults before the call, and after it.
    #[error("the journal could not be used")]
    StoreFault {
        /// The count before the call.
        before: u64,
        /// The count after it.
        after: u64,
    },
    /// Out of memory.
    #[error("out of memory")]
    Memory,
}

/// Why no journal was opened.
#[derive(Clone, Copy, Debug, Error)]
pub enum OpeningFault {
    /// Nothing was created there yet.
    #[error("the journal has not been founded")]
    Unborn,
    /// The bytes are no journal from this offset on.
    #[error("the journal is damaged at byte {0}")]
    Damaged(u64),
    /// The disk failed: its count of faults before the call, and after it.
    #[error("the journal could not be used")]
    StoreFault {
        /// The count before the call.
        before: u64,
        /// The count after it.
        after: u64,
    },
    /// Out of memory.
    #[error("out of memory")]
    Memory,
}

/// Why nothing was acknowledged.
#[derive(Clone, Copy, Debug, Error)]
pub enum JournalFault {
    /// The disk failed: its count of faults before the call, and after it.
    #[error("the journal could not be used")]
    StoreFault {
        /// The count before the call.
        before: u64,
        /// The count after it.
        after: u64,
    },
    /// Out of memory.
    #[error("out of memory")]
    Memory,
}
