use common_types::ItemList;
use farm_types::{CommitId, Name};

/// An order to revert a culprit, as it is shown.
#[derive(Drop)]
pub struct OrderLine {
    /// The number of the order, from 1.
    pub order: u32,
    /// Who is to revert the commit.
    pub agent: Name,
    /// The culprit.
    pub commit: CommitId,
    /// The search that confirmed it.
    pub search: u32,
    /// The day of the order in the farm's time zone, in days since 1970-01-01.
    pub day: u32,
}

/// All orders of a farm, by their numbers, so that order k is at index k - 1.
pub type OrderPage = ItemList<OrderLine>;
