//! The one decision on a command, at a farm and a moment.

ghost use Rattle.std.specs.Prelude.{◌≡◌, IfOk};
ghost use Rattle.farm_types.specs.Moment.{moment_ms};
ghost use Rattle.farm_entry.specs.Decision.{closed_decision, decide, full_decision, own_decision};
ghost use Rattle.farm_entry.specs.History.{order_lines};
ghost use Rattle.farm_entry.specs.Pages.{totals};
ghost use Rattle.farm_laws.specs.Laws.{IsNotBefore};
ghost use Rattle.farm_core.specs.Opens.{AsksOther};

use crate::decision_known::known_decision;
use crate::decision_new::{cancel_decision, lease_decision, open_decision, revert_decision};
use crate::decision_report::{report_decision, skip_decision};
use crate::search_page::{list_decision, page_decision, runs_decision};
use farm_entry::{Command, Decision, MAX_ENTRIES, OpenAsk, Refusal, Reply, Totals, moment_used};
use farm_types::{Memory, Moment};
use kept_farm::KeptFarm;
use std::alloc::Global;

/// A history that takes no more still shows: a full one, or else a closed one.
fn full_decision(farm: &KeptFarm, command: &Command) -> Option<Decision>
    ensures { result ≡ full_decision farm.now command.now }
{
    if MAX_ENTRIES <= farm.history().len() && !command.is_show() {
        Some(Decision::Refuse(Refusal::Full))
    } else {
        closed_decision(farm, command)
    }
}

/// A closed farm still shows.
fn closed_decision(farm: &KeptFarm, command: &Command) -> Option<Decision>
    ensures { result ≡ closed_decision farm.now command.now }
{
    if farm.is_closed() && !command.is_show() {
        Some(Decision::Refuse(Refusal::Closed))
    } else {
        None
    }
}

/// What is counted of the whole history.
fn all_totals(farm: &KeptFarm) -> Totals
    ensures { result ≡ totals farm.now }
{
    farm.totals_at(farm.history().len())
}

/// What each command is for that asks for an entry but opens no search, at the moment used.
fn own_decision(farm: &KeptFarm, command: &Command, at: Moment) -> Result<Decision, Memory>
    requires not_before { IsNotBefore farm.now (moment_ms at) }
    requires other { AsksOther command.now }
    ensures { IfOk result (λ found. found ≡ own_decision farm.now command.now at) }
{
    match command {
        Command::Lease { key, worker } => {
            let due = farm.next_run(at);
            lease_decision(farm, *key, worker, at, due)
        }
        Command::Report { run, verdict } => Ok(report_decision(farm, *run, *verdict, at)),
        Command::Skip { run } => Ok(skip_decision(farm, *run, at)),
        Command::Cancel { key, search } => Ok(cancel_decision(farm, *key, *search, at)),
        Command::TakeRevert { key, agent } => {
            let next = farm.next_order(at);
            revert_decision(*key, agent, at, next)
        }
        _ => unreachable!(),
    }
}

/// What an open of a search comes to, in a frame that has room for the search.
fn decision_on_open(
    alloc: Global,
    farm: &KeptFarm,
    command: &Command,
    ask: &OpenAsk,
    at: Moment,
) -> Result<Decision, Memory>
    requires { command.now ≡ Command.Open ask.now }
    ensures { IfOk result (λ found. found ≡ decide farm.now command.now at) }
{
    let history = farm.history();
    let number = farm.searches_count() as u32 + 1;
    let opening = match ask.opening(alloc, number)? {
        Ok(opening) => opening,
        Err(fault) => return Ok(Decision::Refuse(Refusal::BadOpen(fault))),
    };
    if let Some(found) = known_decision(alloc, farm, command)? {
        return Ok(found);
    }
    if let Some(found) = full_decision(farm, command) {
        return Ok(found);
    }
    open_decision(alloc, farm, opening, moment_used(history, at))
}

/// What a command comes to that asks for another entry.
fn decision_on_other(
    alloc: Global,
    farm: &KeptFarm,
    command: &Command,
    at: Moment,
) -> Result<Decision, Memory>
    requires { AsksOther command.now }
    ensures { IfOk result (λ found. found ≡ decide farm.now command.now at) }
{
    let history = farm.history();
    // (a decision is large, so it is moved where there is one, and not by `?` where there is none)
    match known_decision(alloc, farm, command) {
        Ok(None) => {}
        Ok(Some(found)) => return Ok(found),
        Err(memory) => return Err(memory),
    }
    if let Some(found) = full_decision(farm, command) {
        return Ok(found);
    }
    own_decision(farm, command, moment_used(history, at))
}

/// All orders, shown.
fn orders_decision(alloc: Global, farm: &KeptFarm) -> Result<Decision, Memory>
    ensures { IfOk result (λ found. found ≡ Decision.Show (Reply.Orders (order_lines farm.now))) }
{
    match farm.order_page(alloc) {
        Ok(page) => Ok(Decision::Show(Reply::Orders(page))),
        Err(memory) => Err(memory),
    }
}

/// The decision on a command at a farm's history and a moment: the first that is there. First stands the shape of an
/// open, which needs no history; its search is made once, under the number that it would have.
///
/// # Errors
///
/// [`Memory`].
#[tactic(auto, using(crate::proofs::Shown::shown))]
pub(crate) fn decide(
    alloc: Global,
    farm: &KeptFarm,
    command: &Command,
    at: Moment,
) -> Result<Decision, Memory>
    ensures { IfOk result (λ found. found ≡ decide farm.now command.now at) }
{
    // A command that only shows something has no key, and is answered at a history too that takes no more. A search
    // that is opened takes much room, which the other commands needn't clear and move.
    match command {
        Command::Open(ask) => decision_on_open(alloc, farm, command, ask, at),
        Command::ShowSearch { search } => page_decision(alloc, farm, *search),
        Command::ShowRuns { search, from } => runs_decision(alloc, farm, *search, *from),
        Command::ShowSearches { from } => list_decision(alloc, farm, *from),
        Command::ShowFarm => Ok(Decision::Show(Reply::Farm(all_totals(farm)))),
        Command::ShowOrders => orders_decision(alloc, farm),
        _ => decision_on_other(alloc, farm, command, at),
    }
}
