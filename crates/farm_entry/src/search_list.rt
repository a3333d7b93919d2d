use crate::Standing;
use common_types::ItemList;
use farm_types::{CommitId, Moment, Name};

/// A search, as it is shown in the list of all.
#[derive(Drop)]
pub struct SearchLine {
    /// The number of the search, from 1.
    pub search: u32,
    /// The test that is searched.
    pub test: Name,
    /// How many suspects it has.
    pub suspects: u32,
    /// When it was opened.
    pub opened: Moment,
    /// How many of its runs were handed out, at both stages.
    pub leases: u32,
    /// How many runs count in the belief.
    pub counted: u32,
    /// Where the search stands.
    pub standing: Standing,
    /// The commit of the suspect that the standing names, if it names one.
    pub commit: Option<CommitId>,
    /// The number of the order to revert its culprit, if there is one.
    pub order: Option<u32>,
}

/// The searches of a farm by their numbers: a page of them.
#[derive(Drop)]
pub struct SearchList {
    /// The first search of the page.
    pub from: u32,
    /// At most [`PAGE_LINES`](crate::PAGE_LINES) of them.
    pub searches: ItemList<SearchLine>,
}
