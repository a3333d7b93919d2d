//! Why a value isn't read.

ghost use Rattle.std.specs.Prelude.{◌≡◌};
ghost use Rattle.audit_check.specs.declared.stop.Stop.TheVariants.{OutOfMemory};

use farm_types::Memory;
use std::alloc::AllocFailed;

/// Why no value was read from the front of some bytes.
#[derive(Clone, Copy)]
pub(crate) enum Stop {
    /// They begin with none.
    Malformed,
    /// There was no memory for it.
    OutOfMemory,
}

impl From<Memory> for Stop {
    ghost from_gives = { λ _ stop. stop ≡ OutOfMemory };

    fn from(_memory: Memory) -> Stop {
        Stop::OutOfMemory
    }
}

impl<T: Drop> From<AllocFailed<T>> for Stop {
    ghost from_gives = { λ _ stop. stop ≡ OutOfMemory };

    fn from(_failed: AllocFailed<T>) -> Stop {
        Stop::OutOfMemory
    }
}
