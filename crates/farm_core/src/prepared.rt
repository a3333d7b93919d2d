use farm_entry::{Entry, Refusal, Reply};
use farm_types::Memory;
use thiserror::Error;

/// What a command comes to that isn't refused.
#[derive(Drop)]
pub enum Prepared {
    /// The command was done before: its first reply again.
    Repeat(Reply),
    /// The command only shows something.
    Shown(Reply),
    /// The command makes this entry, which may now be committed, and gets this reply once it is.
    New(Entry, Reply),
}

/// Why a command was not prepared.
#[derive(Clone, Copy, Debug, Error)]
pub enum CoreFault {
    /// The farm refuses the command.
    #[error("{0}")]
    Refused(Refusal),
    /// Running out of memory.
    #[error("out of memory")]
    Memory,
}

impl From<Memory> for CoreFault {
    ghost use Rattle.std.specs.Prelude.{◌≡◌};
    ghost use Rattle.farm_core.specs.declared.prepared.CoreFault.TheVariants as core;

    ghost from_gives = { λ _ fault. fault ≡ core.Memory };

    fn from(_memory: Memory) -> CoreFault {
        CoreFault::Memory
    }
}
