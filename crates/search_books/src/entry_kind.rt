/// What an entry of a history is to the searches.
#[derive(Clone, Copy)]
pub enum EntryKind {
    /// It opens the next search.
    Opening,
    /// It hands out a run of the search with this number.
    Lease(u32),
    /// It orders to revert the culprit of the search with this number.
    Order(u32),
    /// It has no place among those of a search.
    Other,
}
