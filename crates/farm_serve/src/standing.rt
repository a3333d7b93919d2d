//! How the serving stands.
ghost use Rattle.std.specs.Prelude.{◌≡◌, true, false};
ghost use Rattle.farm_serve.specs.Standings.{noted};

use connection_laws::{ServeFault, Served};
use shared_farm::Pass;

/// How the serving stands.
#[derive(Clone, Copy)]
pub struct ServeState {
    /// How many accepts are left.
    pub left: u64,
    /// Whether the last accept answered that no more will come.
    pub ended: bool,
    /// Whether an accept failed.
    pub failed: bool,
    /// Whether memory ran out.
    pub short: bool,
}

impl ServeState {
    /// Memory ran out before the first of so many accepts.
    pub fn without_memory(left: u64) -> ServeState
        ensures { result ≡ record { left = left; ended = false; failed = false; short = true } }
    {
        ServeState {
            left,
            ended: false,
            failed: false,
            short: true,
        }
    }

    /// Notes how a link was served.
    pub fn note(&mut self, served: Result<Served, ServeFault>)
        ensures { self.new ≡ noted served self.old }
    {
        if let Err(ServeFault::Memory) = served {
            self.short = true;
        }
    }
}

/// What comes next.
pub enum NextLink<L> {
    /// A link, and a pass to serve it with.
    Link(L, Pass),
    /// An accept gave no link.
    Nothing,
    /// No accept is left, or the last one answered that no more will come.
    Closed,
}
