//! What stands in the history of a farm whose reports come from workers. A function here does nothing: its contract is
//! the law.
ghost use Rattle.std.specs.Prelude.{◌≡◌, ◌≢◌, ℕ, List, All, AllPairs};
ghost use Rattle.farm_entry.specs.History.{reports, skips, told_runs};
ghost use Rattle.farm_entry.specs.Legal.{IsLegal};
ghost use Rattle.leaf_laws.specs.Given.{IsGiven};
ghost use Rattle.leaf_laws.specs.Happenings.{Happening, all_happen};
ghost use Rattle.leaf_laws.specs.Workers.{crew};
ghost use Rattle.leaf_laws.specs.World.{founded};

use farm_entry::{ReportedRun, Settings, SkippedRun};
use farm_types::Moment;
use worker_core::Tested;

/// Whatever the network loses, repeats and reorders, whenever workers and farm stop and start anew, whatever orders the
/// farm carries over and whenever it is closed, whatever keys are drawn and whatever others ask of the farm: its history
/// is legal, each report in it, counted or not, has the verdict that a runner gave of the run's test at the run's
/// commit, each skip is of a run of which a runner said there that the tree can't be tested, and no run has two of
/// these.
pub fn reports_are_what_runners_said()
    ensures legal { (settings : Settings) (at : Moment) (starts : List (List ℕ × ℕ)) (all : List Happening)
        → IsLegal (all_happen (founded settings at (crew starts)) all).history }
    ensures given { (settings : Settings) (at : Moment) (starts : List (List ℕ × ℕ)) (all : List Happening)
        → let world = all_happen (founded settings at (crew starts)) all in
        All (λ (r : ReportedRun). IsGiven world.history world.made r.run (Tested.Verdict r.verdict))
        (reports world.history) }
    ensures said { (settings : Settings) (at : Moment) (starts : List (List ℕ × ℕ)) (all : List Happening)
        → let world = all_happen (founded settings at (crew starts)) all in
        All (λ (s : SkippedRun). IsGiven world.history world.made s.run Tested.Untestable) (skips world.history) }
    ensures once { (settings : Settings) (at : Moment) (starts : List (List ℕ × ℕ)) (all : List Happening)
        → AllPairs (λ (a b : ℕ). a ≢ b) (told_runs (all_happen (founded settings at (crew starts)) all).history) }
{}
