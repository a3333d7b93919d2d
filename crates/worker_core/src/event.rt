//! What a worker is told.

use crate::Tested;
use farm_types::Key;

/// What came of the last action.
#[derive(Clone, Copy)]
pub enum Event {
    /// Nothing was done yet.
    Begin,
    /// This key was drawn.
    Drew(Key),
    /// The farm handed out this run.
    Leased(u32),
    /// The farm has no run to hand out now.
    Nothing,
    /// The test was to be run, and this came of it.
    Ran(Tested),
    /// The farm has noted the report.
    Noted,
    /// The request was lost, or the farm couldn't serve it. The number is the status that came back, or 0 where no
    /// whole response came.
    Lost(u16),
}
