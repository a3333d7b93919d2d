use farm_types::CommitId;

/// A commit that may hold the culprit, and how suspicious it is before any test ran: its weight, as a prior that isn't
/// divided by the sum of all. A plain pair of any weight; a [`SuspectRange`](crate::SuspectRange) keeps the limits.
#[derive(Clone, Copy, PartialEq, Eq)]
pub struct Suspect {
    pub commit: CommitId,
    pub weight: u32,
}
