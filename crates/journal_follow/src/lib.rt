//! A follower: a node that keeps a journal of its own, which is a beginning of another node's history.
//!
//! A [`Follower`] takes pages of the leader's entries, compares them with those that it holds and stores the rest, each
//! page in one record, so that a crash leaves the history from before or the one from now. [`follow`] asks a leader for
//! its pages over any network, from the first entry on, until all that the leader has is held.
//!
//! [`laws`] has the law of such a node, over a network which may lose, repeat and reorder whatever is sent, with disks
//! that fail and crashes on either side. `specs/Page` says when a page of the leader's entries goes with what a
//! follower holds, `specs/Taking` what a follower does with a page, by which [`Follower`] is specified, and
//! `specs/World` and `specs/Happenings` what there is and what may happen.
//!
//! The crate stands on `farm_store` for the history on a disk, which admits and records the leader's entries and finds
//! out what a fault left, on `farm_disk` for what a crash may leave, on `entry_codec` for entries as bytes, on
//! `http_exchange` for asks and answers, on `farm_entry` for histories and on `common_types` for beginnings of lists.
//! The layers above may use every name below; clauses above cite `specs/` (`State`, `Shown`, `Opened`, `Taken`, `Asks`,
//! `Following`).
#![tactic(auto)]

mod answer;
mod asking;
mod comparing;
mod fault;
mod follower;
mod following;
pub mod laws;
mod place;
mod request;

pub use farm_store::OpeningFault;
pub use fault::FollowFault;
pub use follower::Follower;
pub use following::{Followed, follow};
