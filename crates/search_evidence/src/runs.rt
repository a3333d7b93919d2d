//! The runs that are the evidence of a search.

ghost use Rattle.std.specs.Prelude.{◌≡◌, ◌&&◌, is_some, Contains, IfOk};
ghost use Rattle.std.specs.Option.{option_and_then};
ghost use Rattle.farm_types.specs.declared.stage.Stage.TheVariants.{Search};
ghost use Rattle.farm_entry.specs.History.{counted_run, is_of_search, is_over, lease_of, openings, report_in, runs, went_over};
ghost use Rattle.farm_entry.specs.Legal.{IsLegal};
ghost use Rattle.farm_entry.specs.Standing.{at_bar};
ghost use Rattle.search_evidence.specs.Kept.{AreLeases, cancels, ended_by_runs, is_timely, kept_run};
ghost use Rattle.search_evidence.specs.Written.{evidence_runs, reported_run};

use crate::leases::{all_leases, lease_of};
use farm_entry::{Entry, Fate, LeasedRun, Opening, ReportedRun};
use farm_types::{Memory, Stage};
use plain_farm::belief_after;
use plain_history::push_some;
use std::alloc::Global;
use weight_exact::Run;

// What a report says of a search.

/// The run of a report, where it is one that is to find the culprit of a search.
fn reported_run(
    history: &[Entry],
    leases: &[LeasedRun],
    search: u32,
    report: ReportedRun,
) -> Option<Run>
    requires { AreLeases history.now leases.now }
    ensures { result ≡ reported_run history.now search report }
{
    let lease = lease_of(history, leases, report.run)?;
    if lease.search == search && lease.is_at(Stage::Search) {
        Some(lease.run_with(report.verdict))
    } else {
        None
    }
}

/// The same, where the report counts.
fn counted_run(
    history: &[Entry],
    leases: &[LeasedRun],
    search: u32,
    report: ReportedRun,
) -> Option<Run>
    requires { AreLeases history.now leases.now }
    ensures { result ≡ counted_run history.now search Search report }
{
    if report.fate.is_counted() {
        reported_run(history, leases, search, report)
    } else {
        None
    }
}

/// Whether a report took a search past its budget.
fn is_over(history: &[Entry], leases: &[LeasedRun], search: u32, report: ReportedRun) -> bool
    requires { AreLeases history.now leases.now }
    ensures { result ≡ (is_over report.fate && is_of_search search (lease_of history.now report.run)) }
{
    if !report.fate.is_over() {
        return false;
    }
    match lease_of(history, leases, report.run) {
        Some(lease) => lease.search == search,
        None => false,
    }
}

// What the search came to.

/// The runs by which its belief is made.
fn counted_runs(
    alloc: Global,
    history: &[Entry],
    leases: &[LeasedRun],
    search: u32,
) -> Result<Vec<Run>, Memory>
    requires { AreLeases history.now leases.now }
    ensures { IfOk result (λ found. found.items ≡ runs history.now search) }
{
    let reports = history.iter().filter_map(|entry| entry.what.report());
    Ok(
        reports
            .filter_map(|report| counted_run(history, leases, search, report))
            .collect(alloc)?,
    )
}

/// Whether a report went over its budget.
fn went_over(history: &[Entry], leases: &[LeasedRun], search: u32) -> bool
    requires { AreLeases history.now leases.now }
    ensures { result ≡ went_over history.now search }
{
    let mut reports = history.iter().filter_map(|entry| entry.what.report());
    reports.any(|report| is_over(history, leases, search, report))
}

/// Whether a hypothesis is at the bar.
fn is_at_bar(
    alloc: Global,
    history: &[Entry],
    leases: &[LeasedRun],
    opening: &Opening,
) -> Result<bool, Memory>
    requires leases { AreLeases history.now leases.now }
    requires opened { Contains (openings history.now) opening.now }
    ensures { IfOk result (λ found. found ≡ is_some (at_bar history.now opening.now)) }
{
    let told = counted_runs(alloc, history, leases, opening.search)?;
    let belief = belief_after(alloc, history, opening, &told)?;
    Ok(belief.reached().is_some())
}

/// Whether its runs ended it.
fn ended_by_runs(
    alloc: Global,
    history: &[Entry],
    leases: &[LeasedRun],
    opening: &Opening,
) -> Result<bool, Memory>
    requires leases { AreLeases history.now leases.now }
    requires opened { Contains (openings history.now) opening.now }
    ensures { IfOk result (λ found. found ≡ ended_by_runs history.now opening.now) }
{
    if went_over(history, leases, opening.search) {
        Ok(true)
    } else {
        is_at_bar(alloc, history, leases, opening)
    }
}

// Its evidence.

/// Whether an entry cancels a search.
fn cancels(entry: &Entry, search: u32) -> bool
    ensures { result ≡ cancels search entry.now.what }
{
    match entry.what.cancelled() {
        Some(cancelled) => cancelled == search,
        None => false,
    }
}

/// Whether a report didn't come late.
fn is_timely(fate: Fate) -> bool
    ensures { result ≡ is_timely fate }
{
    fate.is_counted() || fate.is_over()
}

/// The run that an entry reports, where it is evidence, by whether late reports are.
fn kept_run(
    history: &[Entry],
    leases: &[LeasedRun],
    search: u32,
    late: bool,
    entry: &Entry,
) -> Option<Run>
    requires { AreLeases history.now leases.now }
    ensures { result ≡ option_and_then (kept_run history.now search late) (report_in entry.now.what) }
{
    let report = entry.what.report()?;
    if late || is_timely(report.fate) {
        reported_run(history, leases, search, report)
    } else {
        None
    }
}

/// The runs that are the evidence of a search, in the order of their reports.
pub(crate) fn evidence_runs(
    alloc: Global,
    history: &[Entry],
    opening: &Opening,
) -> Result<Vec<Run>, Memory>
    requires legal { IsLegal history.now }
    requires opened { Contains (openings history.now) opening.now }
    ensures { IfOk result (λ found. found.items ≡ evidence_runs history.now opening.now) }
{
    let leases = all_leases(alloc, history)?;
    let late = ended_by_runs(alloc, history, &leases, opening)?;
    let mut runs = Vec::new(alloc);
    for entry in history {
        if cancels(entry, opening.search) {
            return Ok(runs);
        }
        push_some(
            &mut runs,
            kept_run(history, &leases, opening.search, late, entry),
        )?;
    }
    Ok(runs)
}
