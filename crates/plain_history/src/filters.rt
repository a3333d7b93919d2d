//! What a history holds: its searches, the runs that were handed out, their reports, the orders. Each is found by going
//! through the entries in order.

ghost use Rattle.std.specs.Prelude.{◌≡◌, ◌<◌, length, Contains, IfSome, IfOk};
ghost use Rattle.std.specs.Option.{option_copied};
ghost use Rattle.farm_entry.specs.History.{all_leases, counted, counted_run, has_key, is_lease_for, is_closed, is_of_search, is_report_of, is_reported, last_lease, lease_of, leases, opening_numbered, openings, order_lines, place_of_key, place_of_report, position_for, reruns, run_of, runs, skipped, skipped_position, was_cancelled, went_over};
ghost use Rattle.farm_entry.specs.Orders.{orders};

use crate::lists::push_some;
use farm_entry::{Entry, LeasedRun, Opening, OrderLine, ReportedRun, SkippedRun};
use farm_rules::OrderedCommit;
use farm_types::{Key, Memory, Stage};
use std::alloc::Global;
use weight_exact::{Run, Verdict};

/// How many searches were opened.
pub fn openings_count(history: &[Entry]) -> usize
    ensures { result ≡ length (openings history.now) }
{
    let openings = history.iter().filter(|entry| entry.what.is_opening());
    openings.count()
}

/// How many runs were handed out.
pub fn all_leases_count(history: &[Entry]) -> usize
    ensures { result ≡ length (all_leases history.now) }
{
    let leases = history.iter().filter_map(|entry| entry.what.lease());
    leases.count()
}

/// How many orders were given.
pub fn orders_count(history: &[Entry]) -> usize
    ensures { result ≡ length (order_lines history.now) }
{
    let orders = history.iter().filter(|entry| entry.what.is_order());
    orders.count()
}

/// The search with a number.
pub fn opening_numbered(history: &[Entry], search: u32) -> Option<&Opening>
    ensures found { option_copied result ≡ opening_numbered history.now search }
    ensures held { IfSome result (λ opening. Contains (openings history.now) opening.now) }
{
    for entry in history {
        if let Some(opening) = entry.what.opening()
            && opening.search == search
        {
            return Some(opening);
        }
    }
    None
}

/// The lease of a run.
pub fn lease_of(history: &[Entry], run: u32) -> Option<LeasedRun>
    ensures { result ≡ lease_of history.now run }
{
    let mut leases = history.iter().filter_map(|entry| entry.what.lease());
    leases.find(|lease| lease.run == run)
}

/// The leases of a search, at both stages.
pub fn leases(alloc: Global, history: &[Entry], search: u32) -> Result<Vec<LeasedRun>, Memory>
    ensures { IfOk result (λ found. found.items ≡ leases history.now search) }
{
    let leases = history.iter().filter_map(|entry| entry.what.lease());
    Ok(
        leases
            .filter(|lease| lease.search == search)
            .collect(alloc)?,
    )
}

/// Whether a run was reported, with a verdict or as one whose tree can't be tested.
pub fn is_reported(history: &[Entry], run: u32) -> bool
    ensures { result ≡ is_reported history.now run }
{
    let mut told = history.iter().filter_map(|entry| entry.what.told());
    told.any(|told| told == run)
}

/// A lease's run with its verdict, where the lease is of a search at a stage.
fn run_of(search: u32, stage: Stage, verdict: Verdict, lease: LeasedRun) -> Option<Run>
    ensures { result ≡ run_of search stage verdict lease }
{
    if lease.search == search && lease.is_at(stage) {
        Some(lease.run_with(verdict))
    } else {
        None
    }
}

/// The run of a report that counts, where it is of a search at a stage.
fn counted_run(history: &[Entry], search: u32, stage: Stage, report: ReportedRun) -> Option<Run>
    ensures { result ≡ counted_run history.now search stage report }
{
    if !report.fate.is_counted() {
        return None;
    }
    match lease_of(history, report.run) {
        Some(lease) => run_of(search, stage, report.verdict, lease),
        None => None,
    }
}

/// The runs that count for a search at a stage.
pub fn counted(
    alloc: Global,
    history: &[Entry],
    search: u32,
    stage: Stage,
) -> Result<Vec<Run>, Memory>
    ensures { IfOk result (λ found. found.items ≡ counted history.now search stage) }
{
    let reports = history.iter().filter_map(|entry| entry.what.report());
    Ok(
        reports
            .filter_map(|report| counted_run(history, search, stage, report))
            .collect(alloc)?,
    )
}

/// The runs by which the belief of a search is made.
pub fn runs(alloc: Global, history: &[Entry], search: u32) -> Result<Vec<Run>, Memory>
    ensures { IfOk result (λ found. found.items ≡ runs history.now search) }
{
    counted(alloc, history, search, Stage::Search)
}

/// The reruns by which its culprit is verified.
pub fn reruns(alloc: Global, history: &[Entry], search: u32) -> Result<Vec<Run>, Memory>
    ensures { IfOk result (λ found. found.items ≡ reruns history.now search) }
{
    counted(alloc, history, search, Stage::Verify)
}

/// The position of a lease, where it is of a search.
fn position_for(search: u32, lease: LeasedRun) -> Option<u16>
    ensures { result ≡ position_for search lease }
{
    if lease.search == search {
        Some(lease.position)
    } else {
        None
    }
}

/// The position that a skip closes, where it was taken and is of a search.
fn skipped_position(history: &[Entry], search: u32, skip: SkippedRun) -> Option<u16>
    ensures { result ≡ skipped_position history.now search skip }
{
    if !skip.fate.is_taken() {
        return None;
    }
    match lease_of(history, skip.run) {
        Some(lease) => position_for(search, lease),
        None => None,
    }
}

/// The positions of a search whose trees can't be tested, in the order in which that was said. One may stand twice.
pub fn skipped(alloc: Global, history: &[Entry], search: u32) -> Result<Vec<u16>, Memory>
    ensures { IfOk result (λ found. found.items ≡ skipped history.now search) }
{
    let skips = history.iter().filter_map(|entry| entry.what.skip());
    Ok(
        skips
            .filter_map(|skip| skipped_position(history, search, skip))
            .collect(alloc)?,
    )
}

/// Whether a lease is of a search.
fn is_of_search(search: u32, lease: Option<LeasedRun>) -> bool
    ensures { result ≡ is_of_search search lease }
{
    match lease {
        None => false,
        Some(lease) => lease.search == search,
    }
}

/// Whether a report of a search took it past its budget.
pub fn went_over(history: &[Entry], search: u32) -> bool
    ensures { result ≡ went_over history.now search }
{
    let mut reports = history.iter().filter_map(|entry| entry.what.report());
    reports.any(|report| {
        report.fate.is_over() && is_of_search(search, lease_of(history, report.run))
    })
}

/// Whether a search was cancelled.
pub fn was_cancelled(history: &[Entry], search: u32) -> bool
    ensures { result ≡ was_cancelled history.now search }
{
    let mut cancellations = history.iter().filter_map(|entry| entry.what.cancelled());
    cancellations.any(|cancelled| cancelled == search)
}

/// Whether an entry is a lease of a search.
fn is_lease_for(search: u32, entry: &Entry) -> bool
    ensures { result ≡ is_lease_for search entry.now }
{
    is_of_search(search, entry.what.lease())
}

/// The place of a search's last lease, or 0, where no lease can stand, if it was never leased.
pub fn last_lease(history: &[Entry], search: u32) -> usize
    ensures { result ≡ last_lease history.now search }
{
    let mut found = 0;
    for (place, entry) in history.iter().enumerate() {
        if is_lease_for(search, entry) {
            found = place;
        }
    }
    found
}

/// Whether an entry holds a key.
fn has_key(key: Key, entry: &Entry) -> bool
    ensures { result ≡ has_key key entry.now }
{
    match entry.what.key() {
        None => false,
        Some(other) => other.0 == key.0,
    }
}

/// The place of the entry that holds a key.
pub fn place_of_key(history: &[Entry], key: Key) -> Option<usize>
    ensures found { result ≡ place_of_key history.now key }
    ensures within { IfSome result (λ place. place < length history.now) }
{
    history.iter().position(|entry| has_key(key, entry))
}

/// Whether an entry is the report of a run, with a verdict or not.
pub(crate) fn is_report_of(run: u32, entry: &Entry) -> bool
    ensures { result ≡ is_report_of run entry.now }
{
    match entry.what.told() {
        None => false,
        Some(told) => told == run,
    }
}

/// The place of the report of a run, with a verdict or not.
pub fn place_of_report(history: &[Entry], run: u32) -> Option<usize>
    ensures found { result ≡ place_of_report history.now run }
    ensures within { IfSome result (λ place. place < length history.now) }
{
    history.iter().position(|entry| is_report_of(run, entry))
}

/// All orders, by their numbers.
pub fn order_lines(alloc: Global, history: &[Entry]) -> Result<Vec<OrderLine>, Memory>
    ensures { IfOk result (λ lines. lines.items ≡ order_lines history.now) }
{
    let mut lines = Vec::new(alloc);
    for entry in history {
        push_some(&mut lines, entry.what.order()?)?;
    }
    Ok(lines)
}

/// The orders that stand, those that were carried over among them, in the order of their entries.
pub fn orders(alloc: Global, history: &[Entry]) -> Result<Vec<OrderedCommit>, Memory>
    ensures { IfOk result (λ found. found.items ≡ orders history.now) }
{
    let orders = history.iter().filter_map(|entry| entry.what.ordered());
    Ok(orders.collect(alloc)?)
}

/// Whether the farm was closed.
pub fn is_closed(history: &[Entry]) -> bool
    ensures { result ≡ is_closed history.now }
{
    history.iter().any(|entry| entry.what.is_closing())
}
