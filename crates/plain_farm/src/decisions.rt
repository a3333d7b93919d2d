//! The one decision on a command, at a history and a moment.

ghost use Rattle.std.specs.Prelude.{◌≡◌, IfOk};
ghost use Rattle.farm_entry.specs.History.{opening_numbered};
ghost use Rattle.farm_entry.specs.Decision.{closed_decision, decide, full_decision, known_decision, own_decision, page_decision, runs_decision, shape_decision};
ghost use Rattle.farm_entry.specs.Legal.{IsLegal};
ghost use Rattle.plain_farm.specs.Rows.{AreRows};

use crate::decision_known::known_decision;
use crate::decision_new::{
    cancel_decision, lease_decision, open_decision, report_decision, revert_decision, skip_decision,
};
use crate::due_run::next_run_by;
use crate::orders::next_order_by;
use crate::pages::{order_page, page_of, totals};
use crate::rows::Row;
use crate::run_page::runs_page;
use crate::search_lines::search_list;
use farm_entry::{Command, Decision, Entry, MAX_ENTRIES, Refusal, Reply, moment_used};
use farm_types::{Memory, Moment};
use plain_history::{is_closed, lease_of, opening_numbered};
use std::alloc::Global;

/// First the shape of an open, which needs no history.
fn shape_decision(alloc: Global, command: &Command) -> Result<Option<Decision>, Memory>
    ensures { IfOk result (λ found. found ≡ shape_decision command.now) }
{
    match command {
        Command::Open(ask) => match ask.opening(alloc, 0)? {
            Ok(_) => Ok(None),
            Err(fault) => Ok(Some(Decision::Refuse(Refusal::BadOpen(fault)))),
        },
        _ => Ok(None),
    }
}

/// Then a history that takes no more, which still shows: a full one, or else a closed one.
fn full_decision(history: &[Entry], command: &Command) -> Option<Decision>
    ensures { result ≡ full_decision history.now command.now }
{
    if MAX_ENTRIES <= history.len() && !command.is_show() {
        Some(Decision::Refuse(Refusal::Full))
    } else {
        closed_decision(history, command)
    }
}

/// A closed farm still shows.
fn closed_decision(history: &[Entry], command: &Command) -> Option<Decision>
    ensures { result ≡ closed_decision history.now command.now }
{
    if is_closed(history) && !command.is_show() {
        Some(Decision::Refuse(Refusal::Closed))
    } else {
        None
    }
}

/// The page of a search.
fn page_decision(alloc: Global, history: &[Entry], search: u32) -> Result<Decision, Memory>
    requires { IsLegal history.now }
    ensures { IfOk result (λ found. found ≡ page_decision history.now search (opening_numbered history.now search)) }
{
    match opening_numbered(history, search) {
        None => Ok(Decision::Refuse(Refusal::UnknownSearch(search))),
        Some(opening) => {
            let page = page_of(alloc, history, opening)?;
            Ok(Decision::Show(Reply::Search(page)))
        }
    }
}

/// A page of the runs of a search.
fn runs_decision(
    alloc: Global,
    history: &[Entry],
    search: u32,
    from: u32,
) -> Result<Decision, Memory>
    ensures { IfOk result (λ found. found
        ≡ runs_decision history.now search from (opening_numbered history.now search)) }
{
    match opening_numbered(history, search) {
        None => Ok(Decision::Refuse(Refusal::UnknownSearch(search))),
        Some(opening) => {
            let page = runs_page(alloc, history, from, opening)?;
            Ok(Decision::Show(Reply::Runs(page)))
        }
    }
}

/// Then what each command is for, at the moment used.
fn own_decision(
    alloc: Global,
    history: &[Entry],
    rows: &[Row],
    command: &Command,
    at: Moment,
) -> Result<Decision, Memory>
    requires legal { IsLegal history.now }
    requires rows { AreRows history.now rows.now }
    ensures { IfOk result (λ found. found ≡ own_decision history.now command.now at) }
{
    match command {
        Command::Open(ask) => open_decision(alloc, history, ask, at),
        Command::Lease { key, worker } => {
            let run = next_run_by(alloc, history, rows, at)?;
            lease_decision(history, *key, worker, at, run)
        }
        Command::Report { run, verdict } => {
            let lease = lease_of(history, *run);
            report_decision(alloc, history, rows, *run, *verdict, at, lease)
        }
        Command::Skip { run } => {
            let lease = lease_of(history, *run);
            skip_decision(alloc, history, rows, *run, at, lease)
        }
        Command::Cancel { key, search } => {
            cancel_decision(alloc, history, rows, *key, *search, at)
        },
        Command::TakeRevert { key, agent } => {
            let next = next_order_by(alloc, history, rows, at)?;
            revert_decision(*key, agent, at, next)
        }
        Command::ShowSearch { search } => page_decision(alloc, history, *search),
        Command::ShowFarm => Ok(Decision::Show(Reply::Farm(totals(alloc, history)?))),
        Command::ShowOrders => Ok(Decision::Show(Reply::Orders(order_page(alloc, history)?))),
        Command::ShowRuns { search, from } => runs_decision(alloc, history, *search, *from),
        Command::ShowSearches { from } => {
            let list = search_list(alloc, history, *from)?;
            Ok(Decision::Show(Reply::Searches(list)))
        }
    }
}

/// The decision on a command at a history and a moment: the first that is there.
pub fn decide(
    alloc: Global,
    history: &[Entry],
    command: &Command,
    at: Moment,
) -> Result<Decision, Memory>
    requires { IsLegal history.now }
    ensures { IfOk result (λ found. found ≡ decide history.now command.now at) }
{
    decide_by(alloc, history, &[], command, at)
}

/// The same, by the rows that are kept.
pub(crate) fn decide_by(
    alloc: Global,
    history: &[Entry],
    rows: &[Row],
    command: &Command,
    at: Moment,
) -> Result<Decision, Memory>
    requires legal { IsLegal history.now }
    requires rows { AreRows history.now rows.now }
    ensures { IfOk result (λ found. found ≡ decide history.now command.now at) }
{
    if let Some(found) = shape_decision(alloc, command)? {
        return Ok(found);
    }
    if let Some(found) = known_decision(alloc, history, command)? {
        return Ok(found);
    }
    if let Some(found) = full_decision(history, command) {
        return Ok(found);
    }
    own_decision(alloc, history, rows, command, moment_used(history, at))
}
