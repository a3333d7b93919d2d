//! The lines that a farm hands over.

ghost use Rattle.std.specs.Prelude.{◌≡◌, ◌++◌, ◌∷◌, [], map, string_bytes, IfOk, OnOk};
ghost use Rattle.judge.specs.Text.{text_of};
ghost use Rattle.farm_handover.specs.Handover.{handover_of, order_line};

use farm_entry::Entry;
use farm_rules::OrderedCommit;
use farm_types::{ID_DIGITS, Memory};
use plain_history::orders;
use std::alloc::Global;
use std::str::from_utf8;

/// What a farm hands over: a line for each commit that was ordered, here or in a farm before, in the order of their
/// entries, and the line `closed N` with their number.
///
/// # Errors
///
/// [`Memory`].
pub fn handover_text(alloc: Global, history: &[Entry]) -> Result<String, Memory>
    ensures { IfOk result (λ text. string_bytes text ≡ handover_of history.now) }
{
    let orders = orders(alloc, history)?;
    let mut text = String::new(alloc);
    push_orders(&mut text, &orders)?;
    let count = orders.len();
    writeln!(text, "closed {count}")?;
    Ok(text)
}

/// Appends the lines of orders.
fn push_orders(text: &mut String, orders: &[OrderedCommit]) -> Result<(), Memory>
    ensures { OnOk result (string_bytes text.new
        ≡ string_bytes text.old ++ text_of (map order_line orders.now)) }
{
    for order in orders {
        push_order(text, *order)?;
    }
    Ok(())
}

/// Appends the line of an order.
fn push_order(text: &mut String, order: OrderedCommit) -> Result<(), Memory>
    ensures { OnOk result (string_bytes text.new ≡ string_bytes text.old ++ text_of (order_line order ∷ [])) }
{
    let mut id = [0; ID_DIGITS];
    order.commit.digits(&mut id);
    let Ok(digits) = from_utf8(&id) else {
        unreachable!();
    };
    let day = order.day;
    writeln!(text, "{digits} {day}")?;
    Ok(())
}
