//! Reports of the caller.
ghost use Rattle.std.specs.Prelude.{◌≡◌, ◌⊎◌, ◌++◌, ℕ, [], true, false, replicate, Contains, None, IfOk, OnOk, MatchBool};
ghost use Rattle.std.specs.List.{cons_option};
ghost use Rattle.common_types.specs.Prefix.{IsPrefix};
ghost use Rattle.drill_plan.specs.Plan.{planned_verdict};
ghost use Rattle.drill_plan.specs.Start.{drill_moment};
ghost use Rattle.farm_entry.specs.Decision.{decide};
ghost use Rattle.farm_entry.specs.History.{all_leases, is_report_of, is_reported, place_of_key};
ghost use Rattle.farm_entry.specs.Playing.{after};
ghost use Rattle.farm_entry.specs.declared.command.Command.TheVariants.{Report};
ghost use Rattle.farm_types.specs.declared.key.Key.{Key};
ghost use Rattle.farm_entry.specs.Legal.{IsLegal};
ghost use Rattle.shared_farm.specs.Rests.{IsByCommands};
ghost use Rattle.farm_drill.specs.Ends.{AllReported, IsFull};
ghost use Rattle.farm_drill.specs.Planned.{GoesByPlan};
ghost use Rattle.farm_drill.specs.Reported.{AreRunsMarked, is_marked, unmarked};

use crate::asking::ask;
use crate::names::drill_moment;
use drill_plan::planned_verdict;
use farm_disk::CalmDisk;
use farm_entry::{Command, Entry, LeasedRun};
use farm_store::Store;
use farm_types::Memory;
use std::alloc::Global;

/// Reports what a run says that was handed out, by the plan. Answers whether it is reported then: it isn't only where
/// the history is full.
pub(crate) fn report(
    alloc: Global,
    store: &mut Store<CalmDisk>,
    lease: LeasedRun,
) -> Result<bool, Memory>
    requires decided { store.old.pending ≡ [] }
    requires lease { Contains (all_leases store.old.history) lease }
    requires legal { IsLegal store.old.history }
    requires by_commands { IsByCommands store.old.history }
    ensures said { let report = Report lease.run (planned_verdict lease.search lease.position) in
        OnOk result (store.new.history ≡ after store.old.history (decide store.old.history report drill_moment)) }
    ensures planned { GoesByPlan store.old.history → OnOk result (GoesByPlan store.new.history) }
    ensures reported { IfOk result
        (λ done. MatchBool done (is_reported store.new.history lease.run ≡ true) (IsFull store.new.history)) }
    ensures leases { OnOk result (all_leases store.new.history ≡ all_leases store.old.history) }
    ensures keys { OnOk result ((key : Key) → place_of_key store.old.history key ≡ None
        → place_of_key store.new.history key ≡ None) }
    ensures decided { OnOk result (store.new.pending ≡ []) }
    ensures longer { IsPrefix store.old.history store.new.history }
    ensures legal { IsLegal store.new.history }
    ensures by_commands { OnOk result (IsByCommands store.new.history) }
{
    let command = Command::Report {
        run: lease.run,
        verdict: planned_verdict(lease.search, lease.position),
    };
    let given = ask(alloc, store, &command, drill_moment())?;
    Ok(given.is_ok())
}

/// Reports each run that was handed out and has no report. Answers whether all are reported then: they aren't only
/// where the history is full.
pub(crate) fn report_missing(alloc: Global, store: &mut Store<CalmDisk>) -> Result<bool, Memory>
    requires decided { store.old.pending ≡ [] }
    requires legal { IsLegal store.old.history }
    requires by_commands { IsByCommands store.old.history }
    requires planned { GoesByPlan store.old.history }
    ensures planned { OnOk result (GoesByPlan store.new.history) }
    ensures reported { IfOk result (λ all. MatchBool all (AllReported store.new.history) (IsFull store.new.history)) }
    ensures keys { OnOk result ((key : Key) → place_of_key store.old.history key ≡ None
        → place_of_key store.new.history key ≡ None) }
    ensures decided { OnOk result (store.new.pending ≡ []) }
    ensures longer { IsPrefix store.old.history store.new.history }
    ensures legal { OnOk result (IsLegal store.new.history) }
    ensures by_commands { OnOk result (IsByCommands store.new.history) }
{
    let marks = marks_of(alloc, store.history())?;
    let missing = unmarked(alloc, store.history(), &marks)?;
    for lease in &missing {
        if !report(alloc, store, *lease)? {
            return Ok(false);
        }
    }
    Ok(true)
}

/// The runs that were handed out and aren't marked.
fn unmarked(alloc: Global, history: &[Entry], marks: &[bool]) -> Result<Vec<LeasedRun>, Memory>
    ensures { IfOk result (λ missing. missing.items ≡ unmarked marks.now (all_leases history.now)) }
{
    let mut missing = Vec::new(alloc);
    for entry in history {
        push_unmarked(&mut missing, marks, entry.what.lease())?;
    }
    Ok(missing)
}

/// Adds a run that isn't marked, if there is one.
fn push_unmarked(
    missing: &mut Vec<LeasedRun>,
    marks: &[bool],
    lease: Option<LeasedRun>,
) -> Result<(), Memory>
    ensures { OnOk result (missing.new.items ≡ missing.old.items ++ unmarked marks.now (cons_option lease [])) }
{
    if let Some(lease) = lease {
        if !is_marked(marks, lease.run) {
            missing.push(lease)?;
        }
    }
    Ok(())
}

/// Whether a run is marked.
fn is_marked(marks: &[bool], run: u32) -> bool
    ensures { result ≡ is_marked marks.now run }
{
    match marks.get(run as usize) {
        Some(mark) => *mark,
        None => false,
    }
}

/// By the number of a run, up to the number of entries, whether it is reported.
fn marks_of(alloc: Global, history: &[Entry]) -> Result<Vec<bool>, Memory>
    ensures { IfOk result (λ marks. AreRunsMarked history.now marks.items) }
{
    let mut marks = none_marked(alloc, history.len() + 1)?;
    for entry in history {
        mark(&mut marks, entry);
    }
    Ok(marks)
}

/// So many runs, none of them marked.
fn none_marked(alloc: Global, count: usize) -> Result<Vec<bool>, Memory>
    ensures { IfOk result (λ marks. marks.items ≡ replicate count false) }
{
    Ok(vec![in alloc; false; count]?)
}

/// Marks the run that an entry reports, where there is room for its mark.
fn mark(marks: &mut Vec<bool>, entry: &Entry)
    ensures { (run : ℕ) → is_marked marks.new.items run ≡ true
        → (is_marked marks.old.items run ≡ true) ⊎ (is_report_of run entry.now ≡ true) }
{
    if let Some(run) = entry.what.told() {
        if (run as usize) < marks.len() {
            marks[run as usize] = true;
        }
    }
}
