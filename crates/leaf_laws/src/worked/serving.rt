//! A worker that serves a small farm, played by evaluating the definitions of `leaf_laws`: each law is the contract of
//! a call that does nothing. `specs/Serving` has what happens.
ghost use Rattle.std.specs.Prelude.{◌≡◌, ◌∷◌, [], length, map, slice_get, true, Some};
ghost use Rattle.std.specs.Option.{option_map};
ghost use Rattle.farm_entry.specs.History.{is_closed, reports};
ghost use Rattle.leaf_laws.specs.WorkedFarms.{the_commit, the_test};
ghost use Rattle.weight_exact.specs.declared.run.Verdict.TheVariants.{Fail, Pass};
ghost use Rattle.worker_core.specs.declared.action.Action.TheVariants.{Stop};
ghost use Rattle.worker_core.specs.declared.action.End.TheVariants.{Idle};
ghost use Rattle.worker_core.specs.declared.tested.Tested.TheVariants.{Verdict};
ghost use Rattle.leaf_laws.specs.World.{Worker};
ghost use Rattle.leaf_laws.specs.Serving.{played, played_closed};

use farm_entry::ReportedRun;

/// One suspect whose weight alone names it: its run is at the suspect and fails, and the rerun at the base passes. The
/// first answer to a report is lost, so the report comes twice; it is recorded once. Then the farm has no run, and the
/// worker stops, with six entries in the history and two runs made.
pub fn a_lost_report_is_sent_again()
    ensures entries { length played.history ≡ 6 }
    ensures runs { map (λ (r : ReportedRun). r.run) (reports played.history) ≡ 1 ∷ 2 ∷ [] }
    ensures verdicts { map (λ (r : ReportedRun). r.verdict) (reports played.history) ≡ Fail ∷ Pass ∷ [] }
    ensures made { played.made ≡ record { test = the_test; commit = the_commit 1; tested = Verdict Fail }
        ∷ record { test = the_test; commit = the_commit 0; tested = Verdict Pass } ∷ [] }
    ensures ends { option_map (λ (w : Worker). w.core.last) (slice_get played.workers 0) ≡ Some (Some (Stop Idle)) }
{}

/// Its order is taken, and the farm is closed. The worker starts anew and hears that it is, and stops as where the farm
/// has no run: nothing is run any more.
pub fn a_closed_farm_has_no_run()
    ensures entries { length played_closed.history ≡ 8 }
    ensures closed { is_closed played_closed.history ≡ true }
    ensures made { length played_closed.made ≡ 2 }
    ensures ends { option_map (λ (w : Worker). w.core.last) (slice_get played_closed.workers 0)
        ≡ Some (Some (Stop Idle)) }
{}
