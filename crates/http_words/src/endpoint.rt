//! What a request asks for.

use crate::Route;

/// What a request asks for by its method and path.
#[derive(Clone, Copy)]
pub enum Endpoint {
    /// A command at the farm.
    Command(Route),
    /// To show the totals that were posted last.
    Totals,
    /// To hand on the history's entries from this one on, counted from 1.
    Log(u32),
}
