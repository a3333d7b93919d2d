//! What a farm begins with: its founding, and the orders that it carries over from a farm before it.

ghost use Rattle.std.specs.Prelude.{◌≡◌, true, take, IfOk, OnOk};
ghost use Rattle.farm_entry.specs.Closing.{may_carry};
ghost use Rattle.farm_entry.specs.Legal.{IsLegal};
ghost use Rattle.plain_farm.specs.Begun.{CanBeKept, HasBegun, IsBeginning, IsCarriedOn, IsKept};

use farm_entry::{Entry, MAX_ENTRIES, What};
use farm_rules::{OrderedCommit, Orders};
use farm_types::{LAST_DAY, Memory, Moment};
use std::alloc::Global;

/// Whether a carried order may come next at the moment at which a history begins, by the orders that are kept of it.
fn may_follow(history: &[Entry], at: Moment, orders: &Orders, carried: OrderedCommit) -> bool
    requires { HasBegun history.now at orders.now }
    ensures { result ≡ may_carry history.now at carried.commit carried.day }
{
    history.len() < MAX_ENTRIES && carried.day <= LAST_DAY && !orders.has_order(carried.commit)
}

/// Takes a carried order that comes next into the orders that are kept.
fn keep(orders: &mut Orders, carried: OrderedCommit) -> Result<(), Memory>
    requires { CanBeKept orders.old carried.commit }
    ensures { OnOk result (IsKept orders.old carried orders.new) }
{
    orders.reserve(1)?;
    orders.carry(carried);
    Ok(())
}

/// Whether an entry is a carried order that may come next in a history that only begins, at a moment; if so, it is
/// taken into the orders that are kept.
fn carries_on(
    history: &[Entry],
    entry: &Entry,
    at: Moment,
    orders: &mut Orders,
) -> Result<bool, Memory>
    requires { HasBegun history.now at orders.old }
    ensures { IfOk result (λ on. on ≡ true → IsCarriedOn history.now entry.now at orders.new) }
{
    match &entry.what {
        What::Carried { commit, day } => {
            let carried = OrderedCommit {
                commit: *commit,
                day: *day,
            };
            if entry.at.ms() != at.ms() || !may_follow(history, at, orders, carried) {
                return Ok(false);
            }
            keep(orders, carried)?;
            Ok(true)
        }
        _ => Ok(false),
    }
}

/// How many entries of a list its farm begins with: the founding, and the carried orders behind it that may stand
/// there. The orders are kept from entry to entry, so that none is gone through again for each one behind it.
pub(crate) fn beginning(alloc: Global, list: &[Entry]) -> Result<usize, Memory>
    requires { IsLegal (take 1 list.now) }
    ensures { IfOk result (IsBeginning list.now) }
{
    let at = list[0].at;
    let mut orders = Orders::start(alloc);
    for place in 1..list.len() {
        if !carries_on(&list[..place], &list[place], at, &mut orders)? {
            return Ok(place);
        }
    }
    Ok(list.len())
}
