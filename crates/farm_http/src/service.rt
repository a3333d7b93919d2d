//! What connections are served with.

use farm_disk::DatedDisk;
use http_requests::Pages;
use link_io::Clock;
use shared_farm::{Beginning, SharedFarm};
use std::alloc::Global;

/// What connections are served with, the same for all of them.
#[derive(Drop)]
pub struct Service<'s, R, D: DatedDisk, B: Beginning, C: Clock> {
    /// The runtime, by which a turn is waited for.
    pub rt: &'s R,
    /// The memory for bytes and texts.
    pub alloc: Global,
    /// The table of paths, in which it is looked up what a request asks for.
    pub pages: &'s Pages,
    /// The farm that is asked.
    pub farm: &'s SharedFarm<D, B>,
    /// The clock that gives the moment of a command.
    pub clock: &'s C,
}
