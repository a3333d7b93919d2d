//! Which commit is to be reverted next.

ghost use Rattle.std.specs.Prelude.{◌≡◌, IfOk};
ghost use Rattle.std.specs.Option.{option_and_then};
ghost use Rattle.farm_rules.specs.Orders.{candidates, earlier, earliest, has_order, orders_of};
ghost use Rattle.farm_types.specs.CommitId.{same_id};
ghost use Rattle.farm_types.specs.Moment.{moment_ms};
ghost use Rattle.farm_entry.specs.History.{opening_in};
ghost use Rattle.farm_entry.specs.Legal.{IsLegal};
ghost use Rattle.farm_entry.specs.Orders.{confirmed_at, confirmed_searches, day_in, next_order_at, waiting_for_order};
ghost use Rattle.farm_entry.specs.Standing.{standing};
ghost use Rattle.plain_farm.specs.Rows.{AreRows};
ghost use Rattle.plain_history.specs.Held.{IsHeld};

use crate::kept::standing_by;
use crate::rows::Row;
use farm_entry::{Entry, Opening, Standing, What};
use farm_rules::{Candidate, Draft, NoOrder, OrderedCommit, day_of};
use farm_types::{CommitId, Memory, Moment};
use plain_history::{daily_limit, orders, orders_count, push_some, zone_minutes};
use std::alloc::Global;

/// The day of a moment in the farm's zone, in days since 1970-01-01.
pub fn day_in(history: &[Entry], moment: Moment) -> u32
    ensures { result ≡ day_in history.now (moment_ms moment) }
{
    day_of(moment, zone_minutes(history))
}

// The searches that wait for an order.

/// A search whose culprit is confirmed.
fn confirmed_at(standing: Standing, opening: &Opening) -> Option<Candidate>
    ensures { result ≡ confirmed_at standing opening.now }
{
    match standing {
        Standing::Confirmed(culprit) => Some(Candidate {
            search: opening.search,
            commit: opening.commit(culprit),
        }),
        _ => None,
    }
}

/// The search that an entry opened, if it opened one and its culprit is confirmed.
fn confirmed_in(
    alloc: Global,
    history: &[Entry],
    rows: &[Row],
    what: &What,
) -> Result<Option<Candidate>, Memory>
    requires legal { IsLegal history.now }
    requires rows { AreRows history.now rows.now }
    requires held { IsHeld history.now what.now }
    ensures { IfOk result (λ found. found
        ≡ option_and_then (λ o. confirmed_at (standing history.now o) o) (opening_in what.now)) }
{
    match what.opening() {
        None => Ok(None),
        Some(opening) => {
            let standing = standing_by(alloc, history, rows, opening)?;
            Ok(confirmed_at(standing, opening))
        }
    }
}

/// The searches whose culprit is confirmed, by their numbers.
pub fn confirmed_searches(alloc: Global, history: &[Entry]) -> Result<Vec<Candidate>, Memory>
    requires { IsLegal history.now }
    ensures { IfOk result (λ found. found.items ≡ confirmed_searches history.now) }
{
    confirmed_by(alloc, history, &[])
}

/// The same, by the rows that are kept.
fn confirmed_by(alloc: Global, history: &[Entry], rows: &[Row]) -> Result<Vec<Candidate>, Memory>
    requires legal { IsLegal history.now }
    requires rows { AreRows history.now rows.now }
    ensures { IfOk result (λ found. found.items ≡ confirmed_searches history.now) }
{
    let mut found = Vec::new(alloc);
    for entry in history {
        push_some(&mut found, confirmed_in(alloc, history, rows, &entry.what)?)?;
    }
    Ok(found)
}

/// Whether a commit has an order.
pub(crate) fn has_order(orders: &[OrderedCommit], commit: CommitId) -> bool
    ensures { result ≡ has_order orders.now commit }
{
    for order in orders {
        if is_for(order, commit) {
            return true;
        }
    }
    false
}

/// Whether an order is for a commit.
fn is_for(order: &OrderedCommit, commit: CommitId) -> bool
    ensures { result ≡ same_id order.now.commit commit }
{
    order.commit == commit
}

/// The confirmed searches whose commit has no order yet.
fn candidates(
    alloc: Global,
    searches: &[Candidate],
    orders: &[OrderedCommit],
) -> Result<Vec<Candidate>, Memory>
    ensures { IfOk result (λ found. found.items ≡ candidates searches.now orders.now) }
{
    let searches = searches.iter().copied();
    Ok(
        searches
            .filter(|confirmed| !has_order(orders, confirmed.commit))
            .collect(alloc)?,
    )
}

/// Of two searches the one with the smaller number, and on a tie the first.
fn earlier(confirmed: Candidate, other: Option<Candidate>) -> Candidate
    ensures { result ≡ earlier confirmed other }
{
    match other {
        Some(other) if confirmed.search > other.search => other,
        _ => confirmed,
    }
}

/// The search with the smallest number, the first of them on a tie.
fn earliest(searches: &[Candidate]) -> Option<Candidate>
    ensures { result ≡ earliest searches.now }
{
    match searches {
        [] => None,
        [confirmed, rest @ ..] => Some(earlier(*confirmed, earliest(rest))),
    }
}

/// How many orders stand on a day.
fn orders_of(day: u32, orders: &[OrderedCommit]) -> usize
    ensures { result ≡ orders_of day orders.now }
{
    orders.iter().filter(|order| order.day == day).count()
}

/// The confirmed searches whose commit has no order yet, by the rows that are kept.
pub(crate) fn waiting_by(
    alloc: Global,
    history: &[Entry],
    rows: &[Row],
) -> Result<Vec<Candidate>, Memory>
    requires legal { IsLegal history.now }
    requires rows { AreRows history.now rows.now }
    ensures { IfOk result (λ found. found.items ≡ waiting_for_order history.now) }
{
    let searches = confirmed_by(alloc, history, rows)?;
    let orders = orders(alloc, history)?;
    candidates(alloc, &searches, &orders)
}

/// What the next request for an order comes to at a moment: the next order, or why there is none.
pub fn next_order_at(
    alloc: Global,
    history: &[Entry],
    moment: Moment,
) -> Result<Result<Draft, NoOrder>, Memory>
    requires { IsLegal history.now }
    ensures { IfOk result (λ next. next ≡ next_order_at history.now (moment_ms moment)) }
{
    next_order_by(alloc, history, &[], moment)
}

/// The same, by the rows that are kept.
pub(crate) fn next_order_by(
    alloc: Global,
    history: &[Entry],
    rows: &[Row],
    moment: Moment,
) -> Result<Result<Draft, NoOrder>, Memory>
    requires legal { IsLegal history.now }
    requires rows { AreRows history.now rows.now }
    ensures { IfOk result (λ next. next ≡ next_order_at history.now (moment_ms moment)) }
{
    let searches = confirmed_by(alloc, history, rows)?;
    let orders = orders(alloc, history)?;
    let candidates = candidates(alloc, &searches, &orders)?;
    let Some(first) = earliest(&candidates) else {
        return Ok(Err(NoOrder::NoRevert));
    };
    let day = day_in(history, moment);
    let count = orders_of(day, &orders) as u32;
    if count < daily_limit(history) {
        Ok(Ok(Draft {
            order: orders_count(history) as u32 + 1,
            commit: first.commit,
            search: first.search,
            day,
        }))
    } else {
        Ok(Err(NoOrder::DailyLimit { day, count }))
    }
}
