//! When a farm may be closed, and which orders of a farm before it a farm may carry over: the entries that no command
//! adds.

ghost use Rattle.std.specs.Prelude.{◌≡◌, ◌↔◌, IsTrue, IfOk};
ghost use Rattle.std.specs.List.{list_all};
ghost use Rattle.farm_entry.specs.Closing.{begins_at, has_active, has_order_to_take, is_beginning, is_busy, may_carry, may_close};
ghost use Rattle.farm_entry.specs.History.{opening_in};
ghost use Rattle.farm_entry.specs.Legal.{IsLegal, IsUnasked};
ghost use Rattle.farm_entry.specs.Standing.{is_active, standing};
ghost use Rattle.plain_farm.specs.Rows.{AreRows};
ghost use Rattle.plain_history.specs.Held.{IsHeld};
ghost use Rattle.plain_history.specs.Tests.{is_some_and};

use crate::kept::standing_by;
use crate::orders::{has_order, waiting_by};
use crate::rows::Row;
use farm_entry::{Entry, MAX_ENTRIES, What, last_moment};
use farm_types::{CommitId, LAST_DAY, Memory, Moment};
use plain_history::{daily_limit, is_closed, orders};
use std::alloc::Global;

// Whether a farm is busy.

/// Whether the entry opened a search that goes on.
fn is_active_in(alloc: Global, history: &[Entry], rows: &[Row], what: &What) -> Result<bool, Memory>
    requires legal { IsLegal history.now }
    requires rows { AreRows history.now rows.now }
    requires held { IsHeld history.now what.now }
    ensures { IfOk result (λ found. found
        ≡ is_some_and (λ o. is_active (standing history.now o)) (opening_in what.now)) }
{
    match what.opening() {
        None => Ok(false),
        Some(opening) => {
            let standing = standing_by(alloc, history, rows, opening)?;
            Ok(standing.is_active())
        }
    }
}

/// Whether some search goes on, by the rows that are kept.
fn has_active_by(alloc: Global, history: &[Entry], rows: &[Row]) -> Result<bool, Memory>
    requires legal { IsLegal history.now }
    requires rows { AreRows history.now rows.now }
    ensures { IfOk result (λ found. found ≡ has_active history.now) }
{
    for entry in history {
        if is_active_in(alloc, history, rows, &entry.what)? {
            return Ok(true);
        }
    }
    Ok(false)
}

/// Whether some order is still to be taken, by the rows that are kept.
fn has_order_to_take_by(alloc: Global, history: &[Entry], rows: &[Row]) -> Result<bool, Memory>
    requires legal { IsLegal history.now }
    requires rows { AreRows history.now rows.now }
    ensures { IfOk result (λ found. found ≡ has_order_to_take history.now) }
{
    if daily_limit(history) == 0 {
        return Ok(false);
    }
    let waiting = waiting_by(alloc, history, rows)?;
    Ok(!waiting.is_empty())
}

/// Whether a farm is busy: a search goes on, or an order is still to be taken. A full farm isn't.
pub fn is_busy(alloc: Global, history: &[Entry]) -> Result<bool, Memory>
    requires { IsLegal history.now }
    ensures { IfOk result (λ busy. busy ≡ is_busy history.now) }
{
    is_busy_by(alloc, history, &[])
}

/// The same, by the rows that are kept.
fn is_busy_by(alloc: Global, history: &[Entry], rows: &[Row]) -> Result<bool, Memory>
    requires legal { IsLegal history.now }
    requires rows { AreRows history.now rows.now }
    ensures { IfOk result (λ busy. busy ≡ is_busy history.now) }
{
    if MAX_ENTRIES <= history.len() {
        return Ok(false);
    }
    if has_active_by(alloc, history, rows)? {
        return Ok(true);
    }
    has_order_to_take_by(alloc, history, rows)
}

/// Whether a closing may come next at a moment.
fn may_close_by(alloc: Global, history: &[Entry], rows: &[Row], at: Moment) -> Result<bool, Memory>
    requires legal { IsLegal history.now }
    requires rows { AreRows history.now rows.now }
    ensures { IfOk result (λ may. may ≡ may_close history.now at) }
{
    let busy = is_busy_by(alloc, history, rows)?;
    Ok(!is_closed(history) && !busy && last_moment(at, history).ms() <= at.ms())
}

// What is carried over.

/// Whether an entry is what a farm begins with: its founding, or a carried order.
fn is_beginning(what: &What) -> bool
    ensures { result ≡ is_beginning what.now }
{
    match what {
        What::Founded { .. } | What::Carried { .. } => true,
        _ => false,
    }
}

/// Whether it is that, at this moment.
fn begins_at(at: Moment, entry: &Entry) -> bool
    ensures { result ≡ begins_at at entry.now }
{
    is_beginning(&entry.what) && entry.at.ms() == at.ms()
}

/// Whether nothing but the founding and carried orders stand in a history, all at this moment.
fn has_only_begun(history: &[Entry], at: Moment) -> bool
    ensures { result ≡ list_all (begins_at at) history.now }
{
    history.iter().all(|entry| begins_at(at, entry))
}

/// Whether a carried order may come next at a moment.
fn may_carry(
    alloc: Global,
    history: &[Entry],
    at: Moment,
    commit: CommitId,
    day: u32,
) -> Result<bool, Memory>
    ensures { IfOk result (λ may. may ≡ may_carry history.now at commit day) }
{
    let orders = orders(alloc, history)?;
    Ok(
        history.len() < MAX_ENTRIES
            && has_only_begun(history, at)
            && !has_order(&orders, commit)
            && day <= LAST_DAY,
    )
}

/// Whether an entry that no command adds may come next.
pub(crate) fn is_unasked_by(
    alloc: Global,
    history: &[Entry],
    rows: &[Row],
    entry: &Entry,
) -> Result<bool, Memory>
    requires legal { IsLegal history.now }
    requires rows { AreRows history.now rows.now }
    ensures { IfOk result (λ next. IsTrue next ↔ IsUnasked history.now entry.now.at entry.now.what) }
{
    match &entry.what {
        What::Carried { commit, day } => may_carry(alloc, history, entry.at, *commit, *day),
        What::Closed => may_close_by(alloc, history, rows, entry.at),
        _ => Ok(false),
    }
}
