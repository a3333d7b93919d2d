//! A moment that is over.
ghost use Rattle.std.specs.Prelude.{◌≡◌, ℕ, length};
ghost use Rattle.common_types.specs.Moments.{passed_at};

use crate::ToldList;
use std::snapshot::Snapshot;

/// A moment of a disk that is over. Whoever has one knows that so many steps of the disk were done. Code that is
/// generic over a disk has none but those that its disk gave.
pub trait Past {
    /// How many steps were done.
    ghost at: { Self → ℕ };
}

/// The moment of a disk that tells its steps to a list, or that tells nothing. It has no byte.
#[derive(Drop)]
pub struct Passed {
    so_far: Snapshot<ToldList<()>>,
}

impl Past for Passed {
    ghost at = { passed_at };
}

impl Passed {
    /// The moment after as many steps as were told.
    pub fn of(steps: &ToldList<()>) -> Passed
        ensures { passed_at result ≡ length steps.now }
    {
        Passed {
            so_far: Snapshot::of(steps),
        }
    }
}
