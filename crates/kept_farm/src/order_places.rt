//! Where the orders stand in a history, and the orders that stand there.

ghost use Rattle.std.specs.Prelude.{◌≡◌, ◌<◌, length, IfOk};
ghost use Rattle.std.specs.Vec.{vec_capacity};
ghost use Rattle.kept_farm.specs.Places.{line_at, lines_at, with_place, without_place};

use farm_entry::{Entry, OrderLine};
use farm_types::Memory;
use plain_history::push_some;
use std::alloc::Global;

/// Adds the place of an order, where the entry at that place records one.
pub(crate) fn put_place(places: &mut Vec<u32>, is_order: bool, place: u32)
    requires { length places.old.items < vec_capacity places.old }
    ensures { places.new.items ≡ with_place places.old.items is_order place }
{
    if is_order {
        places.push_reserved(place);
    }
}

/// Takes the last place out, where it is to go.
pub(crate) fn take_place(places: &mut Vec<u32>, is_order: bool)
    ensures { places.new.items ≡ without_place places.old.items is_order }
{
    if is_order {
        places.truncate(places.len().saturating_sub(1));
    }
}

/// The order that the entry at a place records.
fn line_at(history: &[Entry], place: u32) -> Result<Option<OrderLine>, Memory>
    ensures { IfOk result (λ line. line ≡ line_at history.now place) }
{
    match history.get(place as usize) {
        None => Ok(None),
        Some(entry) => entry.what.order(),
    }
}

/// The orders that the entries at these places record.
///
/// # Errors
///
/// [`Memory`].
pub(crate) fn lines_at(
    alloc: Global,
    history: &[Entry],
    places: &[u32],
) -> Result<Vec<OrderLine>, Memory>
    ensures { IfOk result (λ lines. lines.items ≡ lines_at history.now places.now) }
{
    let mut lines = Vec::with_capacity(alloc, places.len())?;
    for place in places {
        push_some(&mut lines, line_at(history, *place)?)?;
    }
    Ok(lines)
}
