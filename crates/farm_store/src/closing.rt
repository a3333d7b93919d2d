//! The entry that closes a farm, and why a farm isn't closed.

ghost use Rattle.std.specs.Prelude.{◌≡◌};
ghost use Rattle.farm_entry.specs.History.{is_closed};
ghost use Rattle.farm_entry.specs.Legal.{IsLegal};
ghost use Rattle.farm_store.specs.Closed.{as_close, closing_at};

use farm_entry::{Entry, What, moment_used};
use farm_journal::JournalFault;
use farm_types::Moment;
use thiserror::Error;

/// Why a farm was not closed.
#[derive(Clone, Copy, Debug, Error)]
pub enum CloseFault {
    /// A search goes on, or an order is still to be taken.
    #[error("the farm has active searches or orders to take")]
    Busy,
    /// The disk failed in this call, and the closing is pending: the disk's count of faults before, and after.
    #[error("the journal could not be used")]
    StoreFault {
        /// The count before.
        before: u64,
        /// The count after.
        after: u64,
    },
    /// Out of memory.
    #[error("out of memory")]
    Memory,
}

impl From<JournalFault> for CloseFault {
    ghost from_gives = { λ fault given. given ≡ as_close fault };

    fn from(fault: JournalFault) -> CloseFault {
        match fault {
            JournalFault::StoreFault { before, after } => CloseFault::StoreFault { before, after },
            JournalFault::Memory => CloseFault::Memory,
        }
    }
}

/// The closing of a farm with this history, at this moment or that of the last entry, the later one.
pub fn closing(history: &[Entry], at: Moment) -> Entry
    ensures { result ≡ closing_at history.now at }
{
    Entry {
        at: moment_used(history, at),
        what: What::Closed,
    }
}

/// Whether a farm with this history is closed. Nothing comes behind a closing, so the last entry tells.
pub fn is_closed(history: &[Entry]) -> bool
    requires { IsLegal history.now }
    ensures { result ≡ is_closed history.now }
{
    let Some(last) = history.last() else {
        return false;
    };
    matches!(&last.what, What::Closed)
}
