//! Who runs tests.
ghost use Rattle.std.specs.Prelude.{◌≡◌, ◌≤◌, ℕ, List, Option};
ghost use Rattle.common_types.specs.Counts.{Rose};
ghost use Rattle.link_io.specs.Telling.{add_told};
ghost use Rattle.worker_core.specs.Runs.{Asked, asked, OnRunFailed};

use crate::Tested;
use farm_types::{CommitId, Name};

/// What a run answers.
#[derive(Clone, Copy)]
pub enum Ran {
    /// The test passed or failed, or the tree can't be tested.
    Tested(Tested),
    /// Nothing was said, and the count of faults rose.
    Failed,
}

/// A runner of tests.
///
/// A runner may tell contracts what it has answered. One that tells goes on telling, and one that doesn't never will.
pub trait Runner {
    /// What it was asked and has answered so far, the newest first, where it tells.
    ghost told: { Self → Option (List Asked) };

    /// How often it has failed so far.
    ghost count: { Self → ℕ };

    /// How often it has failed so far: a count that never falls, and stands still at `u64::MAX`.
    fn faults(&self) -> u64
        ensures { result ≡ count self.now };

    /// Runs the test of this name at this commit.
    fn run(&mut self, test: &Name, commit: &CommitId) -> Ran
        ensures told { told self.new ≡ add_told (asked test.now commit.now result) (told self.old) }
        ensures rises { OnRunFailed result (Rose (count self.old) (count self.new)) }
        ensures never_falls { count self.old ≤ count self.new };
}
