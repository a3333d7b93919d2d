//! What a request for the next revert order is asked with, and what it comes to.

use farm_types::CommitId;
use thiserror::Error;

/// A search whose culprit is confirmed: its number, and the commit to revert.
#[derive(Clone, Copy)]
pub struct Candidate {
    pub search: u32,
    pub commit: CommitId,
}

/// A commit for which an order to revert it stands, and the day of that order, in days since 1970-01-01.
#[derive(Clone, Copy)]
pub struct OrderedCommit {
    pub commit: CommitId,
    pub day: u32,
}

/// An order that can be given next: its number, counted from 1, the commit to revert, the search that found it, and its
/// day, in days since 1970-01-01.
#[derive(Clone, Copy)]
pub struct Draft {
    pub order: u32,
    pub commit: CommitId,
    pub search: u32,
    pub day: u32,
}

/// Why no order can be given. Where both causes stand, the first is answered.
#[derive(Clone, Copy, Debug, Error)]
pub enum NoOrder {
    /// Each candidate's commit has an order already, or there is no candidate.
    #[error("no confirmed search is left without a revert order")]
    NoRevert,
    /// So many orders of this day stand, no fewer than the limit.
    #[error("{count} revert orders stand on day {day}, as many as its limit allows")]
    DailyLimit { day: u32, count: u32 },
}
