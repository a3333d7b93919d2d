use crate::Field;
use crate::limits::MAX_COMMAND_BYTES;
use farm_types::Memory;
use std::alloc::{AllocError, AllocFailed};
use thiserror::Error;

/// Why a text is no command. Where several causes stand, the first in this order is answered, and of several fields the
/// one that is looked at first.
#[derive(Clone, Copy, Debug, PartialEq, Eq, Error)]
pub enum WireFault {
    /// The text is longer than [`MAX_COMMAND_BYTES`].
    #[error("the text is longer than {max} bytes", max = MAX_COMMAND_BYTES)]
    TooLong,
    /// The text is no JSON object: as `serde_json` reads it, in UTF-8 and nested at most 127 deep.
    #[error("the text is no JSON object")]
    BadJson,
    /// This member is missing or has another form than its own.
    #[error("the member `{0}` is missing, or not in its form")]
    BadField(Field),
    /// There was no memory for what was read.
    #[error("out of memory")]
    Memory,
}

impl From<Memory> for WireFault {
    fn from(_error: Memory) -> WireFault {
        WireFault::Memory
    }
}

impl From<AllocError> for WireFault {
    fn from(_error: AllocError) -> WireFault {
        WireFault::Memory
    }
}

impl<T: Drop> From<AllocFailed<T>> for WireFault {
    fn from(_error: AllocFailed<T>) -> WireFault {
        WireFault::Memory
    }
}
