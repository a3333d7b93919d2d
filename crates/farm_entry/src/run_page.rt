use crate::{Fate, SkipFate};
use common_types::ItemList;
use farm_types::{CommitId, Moment, Name, Stage};
use weight_exact::Verdict;

/// What the first report of a run said, and what it did to the search.
#[derive(Clone, Copy)]
pub enum RunOutcome {
    /// The test gave a verdict.
    Tested(Verdict, Fate),
    /// The run's tree can't be tested.
    Untestable(SkipFate),
}

/// The first report of a run, as it is shown.
#[derive(Clone, Copy)]
pub struct RunReport {
    /// When it was recorded.
    pub at: Moment,
    /// What it said, and what it did.
    pub outcome: RunOutcome,
}

/// A run of a search, as it is shown.
#[derive(Drop)]
pub struct RunLine {
    /// The number of the run, from 1.
    pub run: u32,
    /// What the run is for.
    pub stage: Stage,
    /// The position to be tested.
    pub position: u16,
    /// The commit at that position.
    pub commit: CommitId,
    /// Who was to make the run.
    pub worker: Name,
    /// When it was handed out.
    pub leased: Moment,
    /// From when on it may be given to another worker, in milliseconds since 1970-01-01 in UTC.
    pub deadline: u64,
    /// What was reported of it, where something was.
    pub report: Option<RunReport>,
}

/// The runs of a search, in the order in which they were handed out: a page of them.
#[derive(Drop)]
pub struct RunPage {
    /// The number of the search, from 1.
    pub search: u32,
    /// The first run of the page: the `from`-th of the search, from 1.
    pub from: u32,
    /// At most [`PAGE_LINES`](crate::PAGE_LINES) of them.
    pub runs: ItemList<RunLine>,
}
