//! The moment at which a command is decided: moments never fall.

ghost use Rattle.std.specs.Prelude.{◌≡◌};
ghost use Rattle.farm_entry.specs.Decision.{last_moment, later, moment_used};

use crate::Entry;
use farm_types::Moment;

/// The later of two moments.
pub fn later(a: Moment, b: Moment) -> Moment
    ensures { result ≡ later a b }
{
    if a.ms() <= b.ms() { b } else { a }
}

/// The moment of the last entry, or this one where there is none.
pub fn last_moment(at: Moment, history: &[Entry]) -> Moment
    ensures { result ≡ last_moment at history.now }
{
    match history {
        [] => at,
        [.., last] => last.at,
    }
}

/// The moment at which a command is decided that is asked at this one: that of the last entry, where that is later.
pub fn moment_used(history: &[Entry], at: Moment) -> Moment
    ensures { result ≡ moment_used history.now at }
{
    later(last_moment(at, history), at)
}
