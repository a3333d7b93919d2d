//! A journal that is not opened.

ghost use Rattle.std.specs.Prelude.{◌≡◌};
ghost use Rattle.finder_commands.specs.Opening.{status_of_opening};

use crate::status::Status;
use farm_store::OpeningFault;

/// How a call ends whose journal is not opened.
pub fn status_of_opening(fault: OpeningFault) -> Status
    ensures { result ≡ status_of_opening fault }
{
    match fault {
        OpeningFault::Unborn => Status::Unborn,
        OpeningFault::Damaged(offset) => Status::Damaged(offset),
        OpeningFault::StoreFault { before, after } => Status::StoreFault { before, after },
        OpeningFault::Memory => Status::Memory,
    }
}
