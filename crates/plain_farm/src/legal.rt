//! The histories that a farm can have.

ghost use Rattle.std.specs.Prelude.{◌↔◌, take, IsTrue, IfOk};
ghost use Rattle.farm_entry.specs.Legal.{IsLegal, IsNext};
ghost use Rattle.plain_farm.specs.Rows.{AreRows};
ghost use Rattle.plain_farm.specs.Stops.{IsFirstIllegal};

use crate::beginning::beginning;
use crate::closing::is_unasked_by;
use crate::decisions::decide_by;
use crate::rows::{Row, take_entry};
use farm_entry::{Decision, Entry, What};
use farm_types::Memory;
use std::alloc::Global;

/// Whether an entry may come next: it is what the command that it names adds, or no command adds its kind and it may
/// stand there.
pub fn is_next(alloc: Global, history: &[Entry], entry: &Entry) -> Result<bool, Memory>
    requires { IsLegal history.now }
    ensures { IfOk result (λ next. IsTrue next ↔ IsNext history.now entry.now) }
{
    is_next_by(alloc, history, &[], entry)
}

/// The same, by the rows that are kept.
fn is_next_by(alloc: Global, history: &[Entry], rows: &[Row], entry: &Entry) -> Result<bool, Memory>
    requires legal { IsLegal history.now }
    requires rows { AreRows history.now rows.now }
    ensures { IfOk result (λ next. IsTrue next ↔ IsNext history.now entry.now) }
{
    let Some(command) = entry.what.command(alloc)? else {
        return is_unasked_by(alloc, history, rows, entry);
    };
    match decide_by(alloc, history, rows, &command, entry.at)? {
        Decision::New(made) => Ok(made == *entry),
        _ => Ok(false),
    }
}

/// Whether a list begins with a founding.
fn is_founded(list: &[Entry]) -> bool
    ensures { IsTrue result ↔ IsLegal (take 1 list.now) }
{
    match list {
        [] => false,
        [first, ..] => match first.what {
            What::Founded { .. } => true,
            _ => false,
        },
    }
}

/// The place of the first entry that may not stand where it does, so that the entries before it are a legal history
/// (or none) and with it they are not. Nothing, exactly where the list is a legal history. An empty list, which isn't
/// one, stops at place 0. From place to place a row is kept of each search, so that none is gone through again for an
/// entry that doesn't speak of it, and before them the orders that the farm carries over.
pub fn first_illegal(alloc: Global, list: &[Entry]) -> Result<Option<usize>, Memory>
    ensures { IfOk result (IsFirstIllegal list.now) }
{
    if !is_founded(list) {
        return Ok(Some(0));
    }
    let begun = beginning(alloc, list)?;
    let mut rows = Vec::new(alloc);
    for place in begun..list.len() {
        if !is_next_by(alloc, &list[..place], &rows, &list[place])? {
            return Ok(Some(place));
        }
        take_entry(alloc, &list[..place + 1], &list[place], &mut rows)?;
    }
    Ok(None)
}
