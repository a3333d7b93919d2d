//! Why a page was not taken, or a leader not followed.

ghost use Rattle.std.specs.Prelude.{◌≡◌};
ghost use Rattle.journal_follow.specs.declared.fault.FollowFault.TheVariants as fault;

use common_types::Memory;
use std::alloc::{AllocError, AllocFailed};
use thiserror::Error;

/// Why a page was not taken, or a leader not followed.
#[derive(Clone, Copy, Debug, Error)]
pub enum FollowFault {
    /// A page begins past the entry behind those that are held.
    #[error("the entries before {from} are not held")]
    Gap {
        /// The number of the page's first entry, from 1.
        from: u32,
        /// How many entries are held.
        have: u32,
    },
    /// The journal differs from the leader's at this place, from 0: the entry given for it isn't the one held or can't
    /// come next, or more is held where the leader has no more.
    #[error("the journal differs from the leader's at entry {0}")]
    Foreign(u32),
    /// The disk failed: its count of faults before the call, and after it. What the call stores may have been stored;
    /// the next call finds out.
    #[error("the journal could not be used")]
    StoreFault {
        /// The count before the call.
        before: u64,
        /// The count after it.
        after: u64,
    },
    /// The disk holds what it can't, from this offset on. A disk that tells what it holds is never answered so.
    #[error("the journal is damaged at byte {0}")]
    Damaged(u64),
    /// No connection was made for the last try of an ask, or that connection failed. The network's count rose.
    #[error("the network failed")]
    NetFault,
    /// The leader answered otherwise than followers are answered, with this status; or the last try of an ask was lost
    /// with it, or with 0, where no whole response came.
    #[error("the service answered {0}")]
    Peer(u16),
    /// Out of memory.
    #[error("out of memory")]
    Memory,
}

impl From<Memory> for FollowFault {
    ghost from_gives = { λ _ answered. answered ≡ fault.Memory };

    fn from(_error: Memory) -> FollowFault {
        FollowFault::Memory
    }
}
