//! The clock of the machine: a trusted edge, of which contracts are told nothing but that it shows moments.

use crate::Clock;
use farm_types::{MOMENT_MAX_MS, MOMENT_MIN_MS, Moment};
use std::rt;
use std::time::SystemTime;

/// The clock of the machine, in UTC. Where it shows a time before the first moment that there is, after the last one,
/// or none, it is taken to be the first moment or the last one; a farm takes no moment that lies before its last
/// entry.
#[derive(Drop)]
pub struct SystemClock<R: rt::Clock + Drop> {
    rt: R,
}

impl<R: rt::Clock + Drop> SystemClock<R> {
    /// The clock of this runtime.
    pub fn new(rt: R) -> SystemClock<R> {
        SystemClock { rt }
    }
}

impl<R: rt::Clock + Drop> Clock for SystemClock<R> {
    ghost use Rattle.std.specs.Prelude.{None, ⊤};

    ghost shows = { λ _ _. ⊤ };

    ghost told = { λ _. None };

    fn now(&self) -> Moment {
        match Moment::of(ms_since_1970(&self.rt).clamp(MOMENT_MIN_MS, MOMENT_MAX_MS)) {
            Ok(at) => at,
            Err(_) => unreachable!(),
        }
    }
}

/// The milliseconds since 1970-01-01 by the machine's clock, or 0 where it shows an earlier time or fails.
fn ms_since_1970<R: rt::Clock>(rt: &R) -> u64 {
    let Ok(now) = SystemTime::now(rt) else {
        return 0;
    };
    match now.duration_since(SystemTime::UNIX_EPOCH) {
        Ok(since) => u64::try_from(since.as_millis()).unwrap_or(u64::MAX),
        Err(_) => 0,
    }
}
