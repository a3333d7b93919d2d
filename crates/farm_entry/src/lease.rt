use crate::{Fate, SkipFate};
use farm_types::Stage;
use weight_exact::Verdict;

/// A run that was handed out, as its entry says.
#[derive(Clone, Copy)]
pub struct LeasedRun {
    /// The number of the run, from 1.
    pub run: u32,
    /// The search that the run is for.
    pub search: u32,
    /// What the run is for.
    pub stage: Stage,
    /// The position to be tested.
    pub position: u16,
    /// From when on the run may be given to another worker, in milliseconds since 1970-01-01 in UTC.
    pub deadline: u64,
}

/// The first report of a run, as its entry says.
#[derive(Clone, Copy)]
pub struct ReportedRun {
    /// The number of the run, from 1.
    pub run: u32,
    /// What the test said.
    pub verdict: Verdict,
    /// What the report did to the search.
    pub fate: Fate,
}

/// The first report of a run whose tree can't be tested, as its entry says.
#[derive(Clone, Copy)]
pub struct SkippedRun {
    /// The number of the run, from 1.
    pub run: u32,
    /// What the report did to the search.
    pub fate: SkipFate,
}

/// A run that can be handed out.
#[derive(Clone, Copy)]
pub struct DueRun {
    /// The search that the run is for.
    pub search: u32,
    /// What the run is for.
    pub stage: Stage,
    /// The position to be tested.
    pub position: u16,
}
