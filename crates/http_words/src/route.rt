//! Which command a request asks for.

/// Which command a request asks for by its method and path, with the numbers that stand in the path.
#[derive(Clone, Copy)]
pub enum Route {
    /// To open a search.
    Open,
    /// To hand out the run that is due next.
    Lease,
    /// To take the verdict of this run.
    Report(u32),
    /// To end this search without a result.
    Cancel(u32),
    /// To hand out the next order to revert.
    Revert,
    /// To show this search.
    Search(u32),
    /// To show this search's runs from one on.
    Runs {
        /// The number of the search.
        search: u32,
        /// The first of the search's runs that is shown, counted from 1.
        from: u32,
    },
    /// To show the searches from this number on.
    List(u32),
    /// To show the totals of the farm.
    Farm,
    /// To show all orders.
    Orders,
}
