//! A clock in memory.

use crate::Clock;
use farm_types::Moment;

/// A clock that stands still at a moment, and tells it.
#[derive(Clone, Copy)]
pub struct MemClock {
    at: Moment,
}

impl MemClock {
    ghost use Rattle.std.specs.Prelude.{◌≡◌};
    ghost use Rattle.link_io.specs.MemClock.{clock_moment};

    /// A clock that stands at this moment.
    pub fn at(at: Moment) -> MemClock
        ensures { clock_moment result ≡ at }
    {
        MemClock { at }
    }
}

impl Clock for MemClock {
    ghost use Rattle.std.specs.Prelude.{◌≡◌, Some};

    ghost shows = { λ clock at. at ≡ clock.at };

    ghost told = { λ clock. Some clock.at };

    fn now(&self) -> Moment {
        self.at
    }
}
