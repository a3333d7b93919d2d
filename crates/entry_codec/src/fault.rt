//! Why bytes are not read.

ghost use Rattle.std.specs.Prelude.{◌≡◌};
ghost use Rattle.entry_codec.specs.declared.fault.CodecFault.TheVariants.{Memory};
ghost use Rattle.entry_codec.specs.declared.fault.Unread.TheVariants.{OutOfMemory};

use std::alloc::{AllocError, AllocFailed};
use thiserror::Error;

/// Why bytes could not be read as entries.
#[derive(Clone, Copy, Debug, Error)]
pub enum CodecFault {
    /// The bytes before this offset are entries, and at the offset, which isn't the end, no other one begins.
    #[error("the bytes from offset {0} on begin with no entry")]
    Bad(usize),
    /// There was no memory for the entries.
    #[error("out of memory")]
    Memory,
}

impl<T: Drop> From<AllocFailed<T>> for CodecFault {
    ghost from_gives = { λ _ fault. fault ≡ Memory };

    fn from(_error: AllocFailed<T>) -> CodecFault {
        CodecFault::Memory
    }
}

/// Why no value was read from the front of some bytes.
#[derive(Clone, Copy)]
pub(crate) enum Unread {
    /// They begin with no spelling of one.
    Malformed,
    /// There was no memory for it.
    OutOfMemory,
}

impl From<AllocError> for Unread {
    ghost from_gives = { λ _ unread. unread ≡ OutOfMemory };

    fn from(_error: AllocError) -> Unread {
        Unread::OutOfMemory
    }
}

impl<T: Drop> From<AllocFailed<T>> for Unread {
    ghost from_gives = { λ _ unread. unread ≡ OutOfMemory };

    fn from(_error: AllocFailed<T>) -> Unread {
        Unread::OutOfMemory
    }
}
