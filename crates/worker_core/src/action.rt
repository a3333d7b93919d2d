//! What a worker is to do.

use crate::Tested;
use farm_types::Key;

/// What a worker does next.
#[derive(Clone, Copy)]
pub enum Action {
    /// To draw a key for the next lease.
    Draw,
    /// To ask the farm for a run, under this key.
    AskLease(Key),
    /// To run the test of this run, at the commit that came with the lease.
    RunTest(u32),
    /// To report this of the run: a verdict, or that its tree can't be tested.
    SendReport(u32, Tested),
    /// To do nothing more.
    Stop(End),
}

/// Why a worker stops.
#[derive(Clone, Copy)]
pub enum End {
    /// The farm had no run to hand out.
    Idle,
    /// As many runs were leased as the worker was started for, and the last of them was reported.
    Limit,
    /// A request was lost as often as it may be sent. The number is the status that the last try came back with, or 0
    /// where no whole response came.
    Peer(u16),
}
