//! Why no orders are read.

use farm_types::Memory;
use thiserror::Error;

/// Why an input hands nothing over.
#[derive(Clone, Copy, Debug, Error)]
pub enum HandoverFault {
    /// The line with this number, counted from 1, is the first outside the form; one past the last where the line
    /// `closed N` is missing.
    #[error("line {0} is not in the written form")]
    BadInput(u64),
    /// There was no memory for the orders.
    #[error("out of memory")]
    Memory,
}

impl From<Memory> for HandoverFault {
    ghost use Rattle.std.specs.Prelude.{◌≡◌};
    ghost use Rattle.farm_handover.specs.declared.fault.HandoverFault.TheVariants.{Memory as OutOfMemory};

    ghost from_gives = { λ _ fault. fault ≡ OutOfMemory };

    fn from(_memory: Memory) -> HandoverFault {
        HandoverFault::Memory
    }
}
