//! The farm of a founding that carries over orders.

ghost use Rattle.std.specs.Prelude.{◌≡◌, ◌++◌, ◌∷◌, [], IfOk, OnOk};
ghost use Rattle.farm_entry.specs.Closing.{CanBeCarried};
ghost use Rattle.farm_entry.specs.Legal.{IsLegal};
ghost use Rattle.farm_store.specs.Inherited.{carried_at, inheriting};

use farm_core::{AdmitFault, Farm};
use farm_entry::{Entry, Settings, What};
use farm_rules::OrderedCommit;
use farm_types::{Memory, Moment};
use std::alloc::Global;

/// A farm that was founded with these settings at this moment and carries over these orders.
pub fn inherit(
    alloc: Global,
    settings: Settings,
    at: Moment,
    orders: &[OrderedCommit],
) -> Result<Farm, Memory>
    requires { CanBeCarried orders.now }
    ensures { IfOk result (λ farm. farm.history ≡ inheriting settings at orders.now) }
{
    let mut farm = Farm::found(alloc, settings, at)?;
    for order in orders {
        carry(&mut farm, at, *order)?;
    }
    Ok(farm)
}

/// Carries an order over into a farm, where it may come next.
fn carry(farm: &mut Farm, at: Moment, order: OrderedCommit) -> Result<(), Memory>
    requires { IsLegal (farm.old.history ++ carried_at at order ∷ []) }
    ensures { OnOk result (farm.new.history ≡ farm.old.history ++ carried_at at order ∷ []) }
{
    let entry = Entry {
        at,
        what: What::Carried {
            commit: order.commit,
            day: order.day,
        },
    };
    match farm.admit(entry) {
        Ok(()) => Ok(()),
        Err(AdmitFault::Illegal) => unreachable!(),
        Err(AdmitFault::Memory) => Err(Memory),
    }
}
