//! What a store is asked, and what it answers.
ghost use Rattle.std.specs.Prelude.{◌≡◌, ◌≤◌, length};
ghost use Rattle.farm_store.specs.Sizes.{command_size, asks_size};

use common_types::ItemList;
use entry_codec::MAX_ENTRY_BYTES;
use farm_entry::{Answer, Command, Refusal};
use farm_journal::{JournalFault, MAX_PAYLOAD};
use farm_types::Moment;
use thiserror::Error;

/// The most asks of one batch. The fewest is one.
pub const MAX_BATCH: usize = 16;

/// The most bytes of a batch's entries in a record.
pub const MAX_BATCH_BYTES: usize = MAX_BATCH * MAX_ENTRY_BYTES;

/// The most bytes of the entries of callers who share a record, all together: those of a journal's payload.
pub const MAX_RECORD_BYTES: usize = MAX_PAYLOAD;

/// The most bytes of an entry that opens no search: an order for the agent with the longest name.
pub const MAX_SHORT_ENTRY_BYTES: usize = 258;

/// A command, and the moment at which it is asked.
#[derive(Drop)]
pub struct Ask {
    /// What is asked.
    pub command: Command,
    /// When.
    pub at: Moment,
}

impl Ask {
    /// The most bytes that the entry of this ask takes in a record, by its kind.
    fn most_bytes(&self) -> usize
        ensures { result ≡ command_size self.now.command }
    {
        match self.command {
            Command::Open(_) => MAX_ENTRY_BYTES,
            _ => MAX_SHORT_ENTRY_BYTES,
        }
    }
}

/// The answers to a batch, one for each ask, in their order.
pub type Answers = ItemList<Answer>;

/// The asks of one caller among those who share a record, and what they were answered.
#[derive(Drop)]
pub struct Part {
    /// What is asked.
    pub asks: Vec<Ask>,
    /// The answers, one for each ask, in their order. Before the call they may be any.
    pub answers: Answers,
    /// How many entries the history has right after the last of these asks. Before the call it may be any number.
    pub end: usize,
}

/// Why a call was not answered.
#[derive(Clone, Copy, Debug, Error)]
pub enum CallFault {
    /// The farm refuses the command.
    #[error("{0}")]
    Refused(Refusal),
    /// The disk failed: its count of faults before the call, and after it. What the call records may have been
    /// stored; the next call finds out.
    #[error("the journal could not be used")]
    StoreFault {
        /// The count before the call.
        before: u64,
        /// The count after it.
        after: u64,
    },
    /// Out of memory, and nothing of the call is recorded.
    #[error("out of memory")]
    Memory,
}

impl From<JournalFault> for CallFault {
    ghost use Rattle.std.specs.Prelude.{◌≡◌};
    ghost use Rattle.farm_store.specs.Answering.{as_call};

    ghost from_gives = { λ fault given. given ≡ as_call fault };

    fn from(fault: JournalFault) -> CallFault {
        match fault {
            JournalFault::StoreFault { before, after } => CallFault::StoreFault { before, after },
            JournalFault::Memory => CallFault::Memory,
        }
    }
}

/// The most bytes that the entries of a batch take in a record, by their kinds. [`laws`](crate::laws) has that they
/// take no more.
pub fn most_bytes(asks: &[Ask]) -> usize
    requires few { length asks.now ≤ MAX_BATCH }
    ensures bytes { result ≡ asks_size asks.now }
    ensures most { result ≤ MAX_BATCH_BYTES }
{
    let mut bytes = 0;
    for ask in asks {
        bytes += ask.most_bytes();
    }
    bytes
}
