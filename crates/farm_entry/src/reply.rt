use crate::{Fate, OrderPage, RunPage, SearchList, SkipFate, Standing};
use common_types::ItemList;
use farm_types::{CommitId, Name, Stage};
use weight_exact::Verdict;

/// What a farm answers to a command that it doesn't refuse. Where an entry answers the command, a standing is the one
/// right after that entry; in what is only shown it is the one of the whole history.
#[derive(Drop)]
pub enum Reply {
    /// A search was opened.
    Opened {
        /// The number of the search, from 1.
        search: u32,
        /// Its budget, which bounds its load: the greatest for which its exact arithmetic has room.
        budget: u32,
        /// Where the search stands.
        standing: Standing,
    },
    /// A run was handed out.
    Leased {
        /// The number of the run, from 1.
        run: u32,
        /// The search that the run is for.
        search: u32,
        /// What the run is for.
        stage: Stage,
        /// The position to be tested: the base with suspects 1 to this one applied.
        position: u16,
        /// The commit at the position.
        commit: CommitId,
        /// The test to be run.
        test: Name,
        /// From when on the run may be given to another worker, in milliseconds since 1970-01-01 in UTC.
        deadline: u64,
    },
    /// The verdict of a run was taken.
    Reported {
        /// The number of the run.
        run: u32,
        /// The search that the run was for.
        search: u32,
        /// The verdict that was recorded, which is that of the first report.
        verdict: Verdict,
        /// What the report did to the search.
        fate: Fate,
        /// Where the search stands.
        standing: Standing,
    },
    /// It was taken that the tree of a run can't be tested.
    Skipped {
        /// The number of the run.
        run: u32,
        /// The search that the run was for.
        search: u32,
        /// What the report did to the search.
        fate: SkipFate,
        /// Where the search stands.
        standing: Standing,
    },
    /// A search was cancelled.
    Cancelled {
        /// The number of the search.
        search: u32,
    },
    /// An order was handed out.
    Ordered {
        /// The number of the order, from 1.
        order: u32,
        /// The commit to be reverted.
        commit: CommitId,
        /// The search that confirmed it.
        search: u32,
        /// The day of the order in the farm's time zone, in days since 1970-01-01.
        day: u32,
    },
    /// A search is shown.
    Search(SearchPage),
    /// The totals of the farm are shown.
    Farm(Totals),
    /// All orders are shown.
    Orders(OrderPage),
    /// Runs of a search are shown.
    Runs(RunPage),
    /// Searches of the farm are shown.
    Searches(SearchList),
}

/// How the belief of a search is shared out, in basis points, each rounded down: one number for each suspect, in commit
/// order, and last that of "there is no culprit".
pub type Shares = ItemList<u32>;

/// Positions of a search, rising.
pub type Positions = ItemList<u16>;

/// What is shown of a search.
#[derive(Drop)]
pub struct SearchPage {
    /// The number of the search, from 1.
    pub search: u32,
    /// The test that is searched.
    pub test: Name,
    /// Its budget, which bounds its load: the greatest for which its exact arithmetic has room.
    pub budget: u32,
    /// How many of its runs were handed out, at both stages.
    pub leases: u32,
    /// How many runs count in the belief.
    pub counted: u32,
    /// How many reruns count in the verification.
    pub verified: u32,
    /// Where the search stands.
    pub standing: Standing,
    /// The commit of the suspect that the standing names, if it names one.
    pub commit: Option<CommitId>,
    /// How the belief is shared out.
    pub shares: Shares,
    /// The positions whose trees can't be tested, each once.
    pub untestable: Positions,
}

/// What is counted of a farm.
#[derive(Clone, Copy)]
pub struct Totals {
    /// The entries of the history.
    pub entries: u64,
    /// The searches, which are those of the next four counts together.
    pub searches: u64,
    /// The searches that are still searching.
    pub searching: u64,
    /// The searches that are being verified.
    pub verifying: u64,
    /// The searches whose culprit is confirmed.
    pub confirmed: u64,
    /// The searches that ended in another way.
    pub ended: u64,
    /// The reports that were counted, at both stages.
    pub counted: u64,
    /// The orders.
    pub orders: u64,
}
