//! What stands in a history once.
ghost use Rattle.std.specs.Prelude.{◌≡◌, ◌≢◌, ℕ, List, All, AllPairs, Some};
ghost use Rattle.farm_entry.specs.History.{lease_of, reports, told_runs};
ghost use Rattle.farm_laws.specs.Laws.{keys};
ghost use Rattle.farm_entry.specs.Legal.{IsLegal};

use farm_entry::{Entry, LeasedRun, ReportedRun};

/// No two entries hold the same key.
pub fn each_key_stands_once()
    ensures { (H : List Entry) → IsLegal H → AllPairs (λ a b. a ≢ b) (keys H) }
{}

/// Each run has at most one report, with a verdict or as one whose tree can't be tested, and each reported run was
/// handed out.
pub fn each_run_is_reported_once()
    ensures once { (H : List Entry) → IsLegal H → AllPairs (λ (a b : ReportedRun). a.run ≢ b.run) (reports H) }
    ensures handed_out { (H : List Entry) → IsLegal H
        → All (λ (r : ReportedRun). (l : LeasedRun) × (lease_of H r.run ≡ Some l)) (reports H) }
    ensures told_once { (H : List Entry) → IsLegal H → AllPairs (λ (a b : ℕ). a ≢ b) (told_runs H) }
    ensures told_of_handed_out { (H : List Entry) → IsLegal H
        → All (λ (run : ℕ). (l : LeasedRun) × (lease_of H run ≡ Some l)) (told_runs H) }
{}
