//! How runs end.

use farm_store::JournalFault;
use farm_types::Memory;
use link_io::PutFault;
use std::alloc::AllocError;

/// How the run of a script ended.
#[derive(Clone, Copy)]
pub enum RunEnd {
    /// The input was read to its end, and every line was answered.
    Done,
    /// The input failed.
    ReadFault,
    /// The output failed.
    WriteFault,
    /// The farm's store failed.
    StoreFault,
    /// Running out of memory.
    Memory,
    /// As many bytes were taken as are taken at most ([`INPUT_LIMIT`](link_io::INPUT_LIMIT)), and their end wasn't
    /// reached.
    InputLimit,
}

impl From<AllocError> for RunEnd {
    ghost use Rattle.std.specs.Prelude.{◌≡◌};
    ghost use Rattle.farm_script.specs.declared.run_end.RunEnd.TheVariants as end;

    ghost from_gives = { λ _ stop. stop ≡ end.Memory };

    fn from(_error: AllocError) -> RunEnd {
        RunEnd::Memory
    }
}

impl From<Memory> for RunEnd {
    ghost use Rattle.std.specs.Prelude.{◌≡◌};
    ghost use Rattle.farm_script.specs.declared.run_end.RunEnd.TheVariants as end;

    ghost from_gives = { λ _ stop. stop ≡ end.Memory };

    fn from(_memory: Memory) -> RunEnd {
        RunEnd::Memory
    }
}

impl From<JournalFault> for RunEnd {
    ghost use Rattle.std.specs.Prelude.{◌≡◌};
    ghost use Rattle.farm_script.specs.LineFaults.{end_unanswered};

    ghost from_gives = { λ cause stop. stop ≡ end_unanswered cause };

    fn from(cause: JournalFault) -> RunEnd {
        match cause {
            JournalFault::StoreFault { .. } => RunEnd::StoreFault,
            JournalFault::Memory => RunEnd::Memory,
        }
    }
}

impl From<PutFault> for RunEnd {
    ghost use Rattle.std.specs.Prelude.{◌≡◌};
    ghost use Rattle.farm_script.specs.LineFaults.{end_unput};

    ghost from_gives = { λ cause stop. stop ≡ end_unput cause };

    fn from(cause: PutFault) -> RunEnd {
        match cause {
            PutFault::Failed => RunEnd::WriteFault,
            PutFault::Memory => RunEnd::Memory,
        }
    }
}
