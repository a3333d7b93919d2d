//! Why an input has no answer.

use std::alloc::AllocError;
use std::error::Error;
use std::fmt;
use weight_exact::Memory;

/// Why an input has no answer.
#[derive(Clone, Copy, Debug)]
pub enum JudgeFault {
    /// The line with this number, counted from 1, is the first outside the form.
    BadInput(u64),
    /// Running out of memory.
    Memory,
}

impl fmt::Display for JudgeFault {
    fn fmt<W: fmt::Write>(&self, f: &mut fmt::Formatter<W>) -> fmt::Result {
        match self {
            JudgeFault::BadInput(line) => write!(f, "line {line} is outside the form"),
            JudgeFault::Memory => write!(f, "out of memory"),
        }
    }
}

impl Error for JudgeFault {}

impl From<AllocError> for JudgeFault {
    ghost use Rattle.std.specs.Prelude.{◌≡◌};
    ghost use Rattle.judge.specs.declared.fault.JudgeFault.TheVariants.{Memory};

    ghost from_gives = { λ _ fault. fault ≡ Memory };

    fn from(_error: AllocError) -> JudgeFault {
        JudgeFault::Memory
    }
}

impl From<Memory> for JudgeFault {
    ghost use Rattle.std.specs.Prelude.{◌≡◌};
    ghost use Rattle.judge.specs.declared.fault.JudgeFault.TheVariants.{Memory as OutOfMemory};

    ghost from_gives = { λ _ fault. fault ≡ OutOfMemory };

    fn from(_error: Memory) -> JudgeFault {
        JudgeFault::Memory
    }
}
