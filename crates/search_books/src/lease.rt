//! One lease.

use farm_types::Stage;

/// The greatest number of runs of a search that may be out at a stage when they are asked for: twice the reruns of a
/// side, of which a verification asks for at most eight.
pub const OUT_MAX: usize = 16;

/// A run that was handed out: its number, counted from 1, its search and stage, the position to run, and the deadline
/// up to which it is waited for, in milliseconds.
#[derive(Clone, Copy)]
pub struct Lease {
    pub run: u32,
    pub search: u32,
    pub stage: Stage,
    pub position: u16,
    pub deadline: u64,
}
