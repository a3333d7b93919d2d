//! The orders that an input hands over.

ghost use Rattle.std.specs.Prelude.{◌≡◌, ◌≤◌, ◌+◌, ◌∷◌, Ok, Err, None, ℕ, List, length, IfOk, OnOk, IsErrOf};
ghost use Rattle.farm_entry.specs.Closing.{CanBeCarried};
ghost use Rattle.farm_entry.specs.declared.limits.TheConstants.{MAX_CARRIED};
ghost use Rattle.farm_handover.specs.Handover.{closes, handed_over, order_in_line, orders_from};
ghost use Rattle.farm_rules.specs.Orders.{Ordered};
ghost use Rattle.farm_wire.specs.Made.{id_named};
ghost use Rattle.judge.specs.Lines.{lines_left, next_number};
ghost use Rattle.judge.specs.Text.{words};

use crate::fault::HandoverFault;
use crate::read_orders::ReadOrders;
use farm_rules::OrderedCommit;
use farm_types::{CommitId, ID_BYTES, LAST_DAY};
use hex::FromHex;
use judge::{Line, Lines, Words};
use std::alloc::Global;

/// The orders that an input hands over, in its order: at most [`MAX_CARRIED`](farm_entry::MAX_CARRIED) lines
/// `COMMIT DAY`, each with another commit, then the line `closed N`, and nothing behind it.
///
/// # Errors
///
/// [`HandoverFault::BadInput`], exactly where the input isn't in this form; or [`HandoverFault::Memory`].
pub fn read_handover(alloc: Global, input: &[u8]) -> Result<Vec<OrderedCommit>, HandoverFault>
    ensures read { IfOk result (λ orders. handed_over input.now ≡ Ok orders.items) }
    ensures bad_input { (line : ℕ) → IsErrOf result (HandoverFault.BadInput line) → handed_over input.now ≡ Err line }
    ensures fit { IfOk result (λ orders. CanBeCarried orders.items) }
{
    let mut lines = Lines::of(input);
    let mut read = ReadOrders::none(alloc);
    while let Some(line) = lines.next() {
        let Some(order) = order_in_line(line.text) else {
            expect_end(read.len(), line, &mut lines)?;
            return Ok(read.into_orders());
        };
        if !read.is_further(order) {
            return Err(HandoverFault::BadInput(line.number));
        }
        read.add(order)?;
    }
    Err(HandoverFault::BadInput(lines.next_number()))
}

/// Expects a line to be the last one behind so many orders, and nothing to follow it.
fn expect_end(count: usize, line: Line, rest: &mut Lines) -> Result<(), HandoverFault>
    requires { count ≤ MAX_CARRIED }
    ensures ok { (orders : List Ordered) → length orders ≡ count → order_in_line line.entry.text.now ≡ None
        → next_number rest.old ≡ line.entry.number + 1
        → OnOk result (orders_from orders line.entry.number (line.entry.text.now ∷ lines_left rest.old) ≡ Ok orders) }
    ensures bad_input { (orders : List Ordered) → length orders ≡ count → order_in_line line.entry.text.now ≡ None
        → next_number rest.old ≡ line.entry.number + 1
        → (number : ℕ) → IsErrOf result (HandoverFault.BadInput number)
        → orders_from orders line.entry.number (line.entry.text.now ∷ lines_left rest.old) ≡ Err number }
{
    if !closes(count, line.text) {
        return Err(HandoverFault::BadInput(line.number));
    }
    match rest.next() {
        Some(further) => Err(HandoverFault::BadInput(further.number)),
        None => Ok(()),
    }
}

/// The order that a line `COMMIT DAY` writes.
fn order_in_line(line: &[u8]) -> Option<OrderedCommit>
    ensures { result ≡ order_in_line line.now }
{
    let mut words = Words::of(line);
    let commit = id_named(words.next()?)?;
    let day = words.next_number()?;
    if day > LAST_DAY || words.next().is_some() {
        return None;
    }
    Some(OrderedCommit { commit, day })
}

/// The id that a word names. Letters may be of either case.
fn id_named(word: &[u8]) -> Option<CommitId>
    ensures { result ≡ id_named word.now }
{
    Some(CommitId::of(<[u8; ID_BYTES]>::from_hex(word).ok()?))
}

/// Whether a line is `closed N`, the last one behind so many orders.
fn closes(count: usize, line: &[u8]) -> bool
    requires { count ≤ MAX_CARRIED }
    ensures { result ≡ closes count (words line.now) }
{
    let Some(mut words) = Words::after(b"closed", line) else {
        return false;
    };
    let Some(number) = words.next_number() else {
        return false;
    };
    number as usize == count && words.next().is_none()
}
