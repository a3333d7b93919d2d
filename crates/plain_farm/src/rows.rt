//! What is kept of each search while a list of entries is gone through from place to place: plain values, each of
//! which is what a definition of the farm gives. One entry more changes the row of one search at most, which is then
//! brought up to it; a row of each search says as much as the history does, and less than that is never kept.

ghost use Rattle.std.specs.Prelude.{◌≡◌, ◌==◌, not, ◌||◌, ℕ, ◌+◌, ◌<◌, ◌≤◌, [], filter, length, Contains, IfNone, IfOk, IfSome, OnOk, Some};
ghost use Rattle.farm_entry.specs.History.{cancelled_in, is_over, is_taken, lease_in, opening_in, openings, report_in, reruns, runs, skip_in, skipped, was_cancelled, went_over};
ghost use Rattle.farm_entry.specs.Legal.{IsLegal};
ghost use Rattle.farm_entry.specs.Setup.{setup_of};
ghost use Rattle.farm_entry.specs.Standing.{standing};
ghost use Rattle.farm_entry.specs.declared.standing.Standing.TheVariants.{Searching};
ghost use Rattle.threshold_pick.specs.Open.{open_plan};
ghost use Rattle.plain_farm.specs.Rows.{AreRows, IsCancelledRow, IsLeasedRow, IsRow, IsSkipOf, IsStep, IsToldOf, closed_position, told_run, unreported};

use crate::due_run::plan_of;
use crate::standings::{belief_after, skips_of, standing_of_reached};
use farm_entry::{Entry, Fate, LeasedRun, Opening, ReportedRun, SkippedRun, Standing};
use farm_types::{Memory, Stage};
use plain_history::{
    is_reported, last_lease, lease_of, leases, opening_numbered, push_some, was_cancelled,
    went_over,
};
use std::alloc::Global;
use weight_exact::Run;

/// What is kept of one search.
#[derive(Drop)]
pub(crate) struct Row {
    /// The runs that count, in the order of their reports.
    pub(crate) runs: Vec<Run>,
    /// The reruns that count, in the order of their reports.
    pub(crate) reruns: Vec<Run>,
    /// The positions that were skipped, in the order in which that was said.
    pub(crate) skipped: Vec<u16>,
    /// Whether it was cancelled.
    pub(crate) cancelled: bool,
    /// Whether a report took it past its budget.
    pub(crate) over: bool,
    /// Where it stands.
    pub(crate) standing: Standing,
    /// Its plan, while it is searching.
    pub(crate) plan: Vec<u16>,
    /// Its leases whose runs have no report, in the order of the runs.
    pub(crate) unreported: Vec<LeasedRun>,
    /// The place of its last lease, or 0.
    pub(crate) last_lease: usize,
}

/// The place of the row of a search, where one is kept: the first search has number 1.
pub(crate) fn row_place(rows: &[Row], search: u32) -> Option<usize>
    ensures found { IfSome result (λ place. (place + 1 ≡ search) × (place < length rows.now)) }
    ensures none { IfNone result ((place : ℕ) → place + 1 ≡ search → length rows.now ≤ place) }
{
    let place = (search as usize).checked_sub(1)?;
    if place < rows.len() {
        Some(place)
    } else {
        None
    }
}

// What a search makes of its runs.

/// Where a search stands by its runs and reruns, the positions that were skipped, whether it was cancelled, and whether
/// it went over its budget; and its plan while it is searching.
fn stand(
    alloc: Global,
    history: &[Entry],
    opening: &Opening,
    told: &[Run],
    closed: &[u16],
    again: &[Run],
    cancelled: bool,
    over: bool,
) -> Result<(Standing, Vec<u16>), Memory>
    requires legal { IsLegal history.now }
    requires opened { Contains (openings history.now) opening.now }
    requires cancelled { cancelled ≡ was_cancelled history.now opening.now.search }
    requires over { over ≡ went_over history.now opening.now.search }
    requires runs { told.now ≡ runs history.now opening.now.search }
    requires skipped { closed.now ≡ skipped history.now opening.now.search }
    requires reruns { again.now ≡ reruns history.now opening.now.search }
    ensures standing { IfOk result (λ found. found.0 ≡ standing history.now opening.now) }
    ensures planned { IfOk result (λ found. standing history.now opening.now ≡ Searching
        → found.1.items ≡ open_plan (setup_of opening.now) (runs history.now opening.now.search)
        (skipped history.now opening.now.search) opening.now.width) }
{
    if cancelled {
        return Ok((Standing::Cancelled, Vec::new(alloc)));
    }
    if over {
        return Ok((Standing::Inconclusive, Vec::new(alloc)));
    }
    let belief = belief_after(alloc, history, opening, told)?;
    let skips = skips_of(closed);
    let standing = standing_of_reached(history, opening, &belief, &skips, again);
    if !standing.is_searching() {
        return Ok((standing, Vec::new(alloc)));
    }
    let positions = plan_of(alloc, history, opening, &belief, &skips)?;
    Ok((standing, positions))
}

// A search that one more entry says something of.

/// The leases of a search whose runs have no report, found anew.
fn find_unreported(alloc: Global, history: &[Entry], search: u32) -> Result<Vec<LeasedRun>, Memory>
    ensures { IfOk result (λ found. found.items ≡ unreported history.now search) }
{
    let all = leases(alloc, history, search)?;
    let left = all
        .iter()
        .copied()
        .filter(|lease| !is_reported(history, lease.run));
    Ok(left.collect(alloc)?)
}

/// The row of a search that the last entry of a history opened: it has no runs yet.
fn first_row(alloc: Global, history: &[Entry], opening: &Opening) -> Result<Row, Memory>
    requires legal { IsLegal history.now }
    requires opened { Contains (openings history.now) opening.now }
    requires no_runs { runs history.now opening.now.search ≡ [] }
    requires no_reruns { reruns history.now opening.now.search ≡ [] }
    requires no_skips { skipped history.now opening.now.search ≡ [] }
    ensures { IfOk result (λ row. IsRow history.now opening.now row) }
{
    let cancelled = was_cancelled(history, opening.search);
    let over = went_over(history, opening.search);
    let (standing, plan) = stand(alloc, history, opening, &[], &[], &[], cancelled, over)?;
    Ok(Row {
        runs: Vec::new(alloc),
        reruns: Vec::new(alloc),
        skipped: Vec::new(alloc),
        cancelled,
        over,
        standing,
        plan,
        unreported: find_unreported(alloc, history, opening.search)?,
        last_lease: last_lease(history, opening.search),
    })
}

/// The run of a report that counts, where its lease is of a stage.
fn told_run(stage: Stage, lease: LeasedRun, report: ReportedRun) -> Option<Run>
    ensures { result ≡ told_run stage lease report }
{
    if report.fate.is_counted() && lease.is_at(stage) {
        Some(lease.run_with(report.verdict))
    } else {
        None
    }
}

/// The leases but that of a run.
fn without_run(alloc: Global, leases: &[LeasedRun], run: u32) -> Result<Vec<LeasedRun>, Memory>
    ensures { IfOk result (λ found. found.items ≡ filter (λ l. not (run == l.run)) leases.now) }
{
    let left = leases.iter().copied().filter(|lease| run != lease.run);
    Ok(left.collect(alloc)?)
}

/// Whether a search is past its budget after a report of one of its runs, by whether it was before.
fn is_over_by(before: bool, fate: Fate) -> bool
    ensures { result ≡ (before || is_over fate) }
{
    before || fate.is_over()
}

/// The row of a search after the last entry of a history reported one of its runs.
fn told_row(
    alloc: Global,
    history: &[Entry],
    opening: &Opening,
    row: &Row,
    lease: LeasedRun,
    report: ReportedRun,
) -> Result<Row, Memory>
    requires { IsToldOf history.now opening.now row.now lease report }
    ensures { IfOk result (λ found. IsRow history.now opening.now found) }
{
    let mut runs = Vec::from_slice(alloc, &row.runs)?;
    push_some(&mut runs, told_run(Stage::Search, lease, report))?;
    let mut reruns = Vec::from_slice(alloc, &row.reruns)?;
    push_some(&mut reruns, told_run(Stage::Verify, lease, report))?;
    let skipped = Vec::from_slice(alloc, &row.skipped)?;
    let cancelled = row.cancelled;
    let over = is_over_by(row.over, report.fate);
    let (standing, plan) = stand(
        alloc, history, opening, &runs, &skipped, &reruns, cancelled, over,
    )?;
    let unreported = without_run(alloc, &row.unreported, report.run)?;
    Ok(Row {
        runs,
        reruns,
        skipped,
        cancelled,
        over,
        standing,
        plan,
        unreported,
        last_lease: row.last_lease,
    })
}

/// The position that a skip closes, where it was taken.
fn closed_position(lease: LeasedRun, skip: SkippedRun) -> Option<u16>
    ensures { result ≡ closed_position lease skip }
{
    if skip.fate.is_taken() {
        Some(lease.position)
    } else {
        None
    }
}

/// The row of a search after the last entry of a history skipped one of its runs.
fn skipped_row(
    alloc: Global,
    history: &[Entry],
    opening: &Opening,
    row: &Row,
    lease: LeasedRun,
    skip: SkippedRun,
) -> Result<Row, Memory>
    requires { IsSkipOf history.now opening.now row.now lease skip }
    ensures { IfOk result (λ found. IsRow history.now opening.now found) }
{
    let runs = Vec::from_slice(alloc, &row.runs)?;
    let reruns = Vec::from_slice(alloc, &row.reruns)?;
    let mut skipped = Vec::from_slice(alloc, &row.skipped)?;
    push_some(&mut skipped, closed_position(lease, skip))?;
    let cancelled = row.cancelled;
    let over = row.over;
    let (standing, plan) = stand(
        alloc, history, opening, &runs, &skipped, &reruns, cancelled, over,
    )?;
    let unreported = without_run(alloc, &row.unreported, skip.run)?;
    Ok(Row {
        runs,
        reruns,
        skipped,
        cancelled,
        over,
        standing,
        plan,
        unreported,
        last_lease: row.last_lease,
    })
}

/// Takes a lease, which stands at a place, into the row of its search.
fn lease_row(row: &mut Row, lease: LeasedRun, place: usize) -> Result<(), Memory>
    ensures { OnOk result (IsLeasedRow row.old row.new lease place) }
{
    row.unreported.push(lease)?;
    row.last_lease = place;
    Ok(())
}

/// Takes into the row of a search that it was cancelled.
fn cancel_row(row: &mut Row)
    ensures { IsCancelledRow row.old row.new }
{
    row.cancelled = true;
    row.standing = Standing::Cancelled;
}

// The rows of all searches, after appending an entry.

/// Takes in the search that the last entry of a history opened.
fn take_opened(
    alloc: Global,
    history: &[Entry],
    entry: &Entry,
    opening: &Opening,
    rows: &mut Vec<Row>,
) -> Result<(), Memory>
    requires step { IsStep history.now entry.now rows.old.items }
    requires opened { opening_in entry.now.what ≡ Some opening.now }
    ensures { OnOk result (AreRows history.now rows.new.items) }
{
    if rows.len() + 1 == opening.search as usize {
        rows.push(first_row(alloc, history, opening)?)?;
    }
    Ok(())
}

/// Takes in a lease, the last entry of a history, which stands at a place.
fn take_lease(
    history: &[Entry],
    entry: &Entry,
    lease: LeasedRun,
    rows: &mut Vec<Row>,
) -> Result<(), Memory>
    requires step { IsStep history.now entry.now rows.old.items }
    requires leased { lease_in entry.now.what ≡ Some lease }
    ensures { OnOk result (AreRows history.now rows.new.items) }
{
    if let Some(index) = row_place(rows, lease.search) {
        lease_row(&mut rows[index], lease, history.len() - 1)?;
    }
    Ok(())
}

/// Takes in a report, the last entry of a history.
fn take_report(
    alloc: Global,
    history: &[Entry],
    entry: &Entry,
    report: ReportedRun,
    rows: &mut Vec<Row>,
) -> Result<(), Memory>
    requires step { IsStep history.now entry.now rows.old.items }
    requires reported { report_in entry.now.what ≡ Some report }
    ensures { OnOk result (AreRows history.now rows.new.items) }
{
    let Some(lease) = lease_of(history, report.run) else {
        return Ok(());
    };
    let Some(opening) = opening_numbered(history, lease.search) else {
        return Ok(());
    };
    if let Some(index) = row_place(rows, lease.search) {
        rows[index] = told_row(alloc, history, opening, &rows[index], lease, report)?;
    }
    Ok(())
}

/// Takes in a report of a run whose tree can't be tested, the last entry of a history.
fn take_skip(
    alloc: Global,
    history: &[Entry],
    entry: &Entry,
    skip: SkippedRun,
    rows: &mut Vec<Row>,
) -> Result<(), Memory>
    requires step { IsStep history.now entry.now rows.old.items }
    requires skipped { skip_in entry.now.what ≡ Some skip }
    ensures { OnOk result (AreRows history.now rows.new.items) }
{
    let Some(lease) = lease_of(history, skip.run) else {
        return Ok(());
    };
    let Some(opening) = opening_numbered(history, lease.search) else {
        return Ok(());
    };
    if let Some(index) = row_place(rows, lease.search) {
        rows[index] = skipped_row(alloc, history, opening, &rows[index], lease, skip)?;
    }
    Ok(())
}

/// Takes in that the last entry of a history cancelled a search.
fn take_cancelled(history: &[Entry], entry: &Entry, search: u32, rows: &mut Vec<Row>)
    requires step { IsStep history.now entry.now rows.old.items }
    requires cancelled { cancelled_in entry.now.what ≡ Some search }
    ensures { AreRows history.now rows.new.items }
{
    if let Some(index) = row_place(rows, search) {
        cancel_row(&mut rows[index]);
    }
}

/// Takes the last entry of a legal history into the rows by the entries before it.
pub(crate) fn take_entry(
    alloc: Global,
    history: &[Entry],
    entry: &Entry,
    rows: &mut Vec<Row>,
) -> Result<(), Memory>
    requires { IsStep history.now entry.now rows.old.items }
    ensures { OnOk result (AreRows history.now rows.new.items) }
{
    if let Some(opening) = entry.what.opening() {
        take_opened(alloc, history, entry, opening, rows)
    } else if let Some(lease) = entry.what.lease() {
        take_lease(history, entry, lease, rows)
    } else if let Some(report) = entry.what.report() {
        take_report(alloc, history, entry, report, rows)
    } else if let Some(skip) = entry.what.skip() {
        take_skip(alloc, history, entry, skip, rows)
    } else {
        if let Some(search) = entry.what.cancelled() {
            take_cancelled(history, entry, search, rows);
        }
        Ok(())
    }
}
