//! How a call of the program ended.

ghost use Rattle.std.specs.Prelude.{◌≡◌, ◌≢◌, OnOk};
ghost use Rattle.std.specs.Io.KnownBytes.{Appends};
ghost use Rattle.finder_commands.specs.Statuses.{error_line};

use crate::read_input::InputFault;
use common_types::Memory;
use farm_handover::HandoverFault;
use judge::JudgeFault;
use link_io::PutFault;
use std::io::Write;
use std::{fmt, io};
use worker_agent::WorkFault;

/// How a call of the program ended. Its text is the line for standard error, without its line feed.
#[derive(Clone, Copy, PartialEq, Eq)]
pub enum Status {
    /// The subcommand did its work.
    Done,
    /// The words name no subcommand. Nothing was read or written.
    Usage,
    /// The input failed.
    ReadFault,
    /// The output failed.
    WriteFault,
    /// The disk of the journal failed: its count of faults before, and after.
    StoreFault {
        /// The count before.
        before: u64,
        /// The count after.
        after: u64,
    },
    /// The journal is damaged from this offset on.
    Damaged(u64),
    /// The journal has not been founded.
    Unborn,
    /// The journal is founded already.
    AlreadyBorn,
    /// The network failed.
    NetFault,
    /// The runner failed.
    RunnerFault,
    /// Out of memory.
    Memory,
    /// The line with this number, counted from 1, is the first outside the form.
    BadInput(u64),
    /// The input has no end within [`link_io::INPUT_LIMIT`] bytes.
    InputLimit,
    /// The service gave an answer that a worker has no use for: its HTTP status, or 0 where no whole answer came.
    Peer(u16),
    /// The journal differs from the leader's at this place, from 0: the entry there isn't the leader's, or can't come
    /// next, or the leader has no more.
    Foreign(u64),
    /// The farm has no search with this number.
    UnknownSearch(u32),
    /// The farm can't be closed: a search goes on, or an order is still to be taken.
    Busy,
}

impl Status {
    ghost use Rattle.finder_commands.specs.Statuses.{exit_code_of};

    /// The exit status of the process.
    pub fn exit_code(self) -> u8
        ensures { result ≡ exit_code_of self }
    {
        match self {
            Status::Done => 0,
            Status::Usage => 2,
            Status::ReadFault => 3,
            Status::WriteFault => 4,
            Status::StoreFault { .. } => 5,
            Status::Damaged(_) => 6,
            Status::Unborn => 7,
            Status::AlreadyBorn => 8,
            Status::NetFault => 9,
            Status::RunnerFault => 10,
            Status::Memory => 11,
            Status::BadInput(_) => 12,
            Status::InputLimit => 13,
            Status::Peer(_) => 14,
            Status::Foreign(_) => 15,
            Status::UnknownSearch(_) => 16,
            Status::Busy => 17,
        }
    }

    /// Writes the line that stands for it on standard error, its line feed included, and nothing where the subcommand
    /// did its work.
    ///
    /// # Errors
    ///
    /// Those of the writer.
    pub fn write_line<W: Write>(self, error: &mut W) -> io::Result<()>
        ensures line { self ≢ Status.Done
            → OnOk result (Appends (W.contents error.old) (W.contents error.new) (error_line self)) }
        ensures quiet { self ≡ Status.Done → error.new ≡ error.old }
    {
        match self {
            Status::Done => Ok(()),
            failed => error.writeln(failed),
        }
    }
}

impl fmt::Display for Status {
    ghost use Rattle.std.specs.Prelude.{Some};
    ghost use Rattle.finder_commands.specs.Statuses.{status_text};

    ghost output = { λ status. Some (status_text status) };

    fn fmt<W: fmt::Write>(&self, f: &mut fmt::Formatter<W>) -> fmt::Result {
        match self {
            Status::Done => write!(f, "done"),
            Status::Usage => write!(f, "usage"),
            Status::ReadFault => write!(f, "the input could not be read"),
            Status::WriteFault => write!(f, "the output could not be written"),
            Status::StoreFault { .. } => write!(f, "the journal could not be used"),
            Status::Damaged(offset) => write!(f, "the journal is damaged at byte {offset}"),
            Status::Unborn => write!(f, "the journal has not been founded"),
            Status::AlreadyBorn => write!(f, "the journal is already founded"),
            Status::NetFault => write!(f, "the network failed"),
            Status::RunnerFault => write!(f, "the runner failed"),
            Status::Memory => write!(f, "out of memory"),
            Status::BadInput(line) => write!(f, "line {line} is not in the written form"),
            Status::InputLimit => write!(f, "the input is too long"),
            Status::Peer(answer) => write!(f, "the service answered {answer}"),
            Status::Foreign(place) => {
                write!(f, "the journal differs from the leader's at entry {place}")
            }
            Status::UnknownSearch(search) => write!(f, "the farm has no search {search}"),
            Status::Busy => write!(f, "the farm has active searches or orders to take"),
        }
    }
}

impl From<InputFault> for Status {
    ghost use Rattle.std.specs.Prelude.{◌≡◌};
    ghost use Rattle.finder_commands.specs.Statuses.{status_of_input};

    ghost from_gives = { λ fault status. status ≡ status_of_input fault };

    fn from(fault: InputFault) -> Status {
        match fault {
            InputFault::Failed => Status::ReadFault,
            InputFault::AtLimit => Status::InputLimit,
            InputFault::Memory => Status::Memory,
        }
    }
}

impl From<JudgeFault> for Status {
    ghost use Rattle.std.specs.Prelude.{◌≡◌};
    ghost use Rattle.finder_commands.specs.Statuses.{status_of_judge};

    ghost from_gives = { λ fault status. status ≡ status_of_judge fault };

    fn from(fault: JudgeFault) -> Status {
        match fault {
            JudgeFault::BadInput(line) => Status::BadInput(line),
            JudgeFault::Memory => Status::Memory,
        }
    }
}

impl From<HandoverFault> for Status {
    ghost use Rattle.std.specs.Prelude.{◌≡◌};
    ghost use Rattle.finder_commands.specs.Statuses.{status_of_handover};

    ghost from_gives = { λ fault status. status ≡ status_of_handover fault };

    fn from(fault: HandoverFault) -> Status {
        match fault {
            HandoverFault::BadInput(line) => Status::BadInput(line),
            HandoverFault::Memory => Status::Memory,
        }
    }
}

impl From<Memory> for Status {
    ghost use Rattle.std.specs.Prelude.{◌≡◌};
    ghost use Rattle.finder_commands.specs.declared.status.Status.TheVariants as status;

    ghost from_gives = { λ _ answer. answer ≡ status.Memory };

    fn from(_memory: Memory) -> Status {
        Status::Memory
    }
}

impl From<PutFault> for Status {
    ghost use Rattle.std.specs.Prelude.{◌≡◌};
    ghost use Rattle.finder_commands.specs.Statuses.{status_of_put};

    ghost from_gives = { λ fault status. status ≡ status_of_put fault };

    fn from(fault: PutFault) -> Status {
        match fault {
            PutFault::Failed => Status::WriteFault,
            PutFault::Memory => Status::Memory,
        }
    }
}

impl From<WorkFault> for Status {
    ghost use Rattle.std.specs.Prelude.{◌≡◌};
    ghost use Rattle.finder_commands.specs.Statuses.{status_of_work};

    ghost from_gives = { λ fault status. status ≡ status_of_work fault };

    fn from(fault: WorkFault) -> Status {
        match fault {
            WorkFault::NetFault => Status::NetFault,
            WorkFault::RunnerFault => Status::RunnerFault,
            WorkFault::Peer(answer) => Status::Peer(answer),
            WorkFault::Memory => Status::Memory,
        }
    }
}
