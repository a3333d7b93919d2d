use common_types::ItemList;
use farm_types::{CommitId, Key, Name};
use suspect_range::Suspect;
use weight_exact::Verdict;

/// What a farm is asked to do, or to show. The commands with a key are done once: sent again with the same contents,
/// they are answered as the first time. A report, with a verdict or as a skip, is told by its run instead. The last
/// three change nothing.
#[derive(Drop)]
pub enum Command {
    /// To open a search.
    Open(OpenAsk),
    /// To hand out the run that is due next.
    Lease {
        /// The key of this request.
        key: Key,
        /// Who is to make the run.
        worker: Name,
    },
    /// To take the verdict of a run.
    Report {
        /// The number of the run, from 1.
        run: u32,
        /// What the test said.
        verdict: Verdict,
    },
    /// To take it that the tree of a run can't be tested.
    Skip {
        /// The number of the run, from 1.
        run: u32,
    },
    /// To end a search without a result.
    Cancel {
        /// The key of this request.
        key: Key,
        /// The number of the search, from 1.
        search: u32,
    },
    /// To hand out the next order to revert a culprit that was confirmed.
    TakeRevert {
        /// The key of this request.
        key: Key,
        /// Who is to revert the commit.
        agent: Name,
    },
    /// To show a search.
    ShowSearch {
        /// The number of the search, from 1.
        search: u32,
    },
    /// To show the totals of the farm.
    ShowFarm,
    /// To show all orders.
    ShowOrders,
    /// To show the runs of a search, a page of them.
    ShowRuns {
        /// The number of the search, from 1.
        search: u32,
        /// The first run of the page: the `from`-th of the search, from 1.
        from: u32,
    },
    /// To show the searches of the farm, a page of them.
    ShowSearches {
        /// The number of the first search of the page, from 1.
        from: u32,
    },
}

/// Suspects as a request lists them, in commit order, and not tested yet: any number of them, with any weights.
pub type Suspects = ItemList<Suspect>;

/// A search as it is asked for. Its numbers are those that were sent, and may lie outside their limits, for which the
/// farm refuses the search.
#[derive(Drop)]
pub struct OpenAsk {
    /// The key of this request.
    pub key: Key,
    /// The test that was seen to fail.
    pub test: Name,
    /// The commit below all suspects, at which the test is trusted to be sound.
    pub base: CommitId,
    /// The commits that may hold the culprit, in commit order, with the weights of the prior.
    pub suspects: Suspects,
    /// The weight of "there is no culprit" in the prior.
    pub calm: u32,
    /// How often the test fails at a sound commit, as numerator and denominator.
    pub rate: (u32, u32),
    /// How often the test passes with the culprit in, as numerator and denominator.
    pub miss: (u32, u32),
    /// The share of the belief at which the search is to act on a hypothesis, as numerator and denominator.
    pub bar: (u32, u32),
    /// How many runs of the search may be out at once.
    pub width: u32,
    /// How many reruns at the culprit, and how many just below it, confirm the culprit.
    pub reruns: u32,
}
