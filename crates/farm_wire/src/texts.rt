//! The forms of a command's members that take memory.

ghost use Rattle.std.specs.Prelude.{◌≡◌, [], IfOk, IsSome, MatchOption, None, OnErr, Some};
ghost use Rattle.json_tape.specs.Views.{data_of, items_in};
ghost use Rattle.farm_wire.specs.Forms as form;

use crate::forms::suspect;
use farm_entry::Suspects;
use farm_types::{Memory, Name, NameFault};
use json_tape::{Parsed, ParsedItems};
use std::alloc::Global;
use suspect_range::Suspect;

/// A name, or none where the value is no text that is one. Memory is wanted for a copy of the name alone.
#[tactic(auto, unfolding(crate::specs::Forms::name))]
pub(crate) fn name(alloc: Global, value: Parsed<'_, '_>) -> Result<Option<Name>, Memory>
    ensures read { IfOk result (λ found. found ≡ form.name (data_of value.entry)) }
    ensures short { OnErr result (IsSome (form.name (data_of value.entry))) }
{
    let Some(text) = value.as_str() else {
        return Ok(None);
    };
    match Name::of(alloc, text) {
        Ok(name) => Ok(Some(name)),
        Err(NameFault::Memory) => Err(Memory),
        Err(_) => Ok(None),
    }
}

/// Suspects, or none where the value is no array of them.
#[tactic(auto, unfolding(crate::specs::Forms::suspects))]
pub(crate) fn suspects(alloc: Global, value: Parsed<'_, '_>) -> Result<Option<Suspects>, Memory>
    ensures { IfOk result (λ found. found ≡ form.suspects (data_of value.entry)) }
{
    let Some(counted) = value.items() else {
        return Ok(None);
    };
    let Some(list) = value.items() else {
        return Ok(None);
    };
    suspects_of(Vec::with_capacity(alloc, count(counted))?, list)
}

/// How many items there are, for the room that they take.
fn count(items: ParsedItems<'_, '_>) -> usize {
    let mut left = items;
    let mut count = 0usize;
    while left.next().is_some() {
        count = count.saturating_add(1);
    }
    count
}

fn suspects_of(room: Vec<Suspect>, list: ParsedItems<'_, '_>) -> Result<Option<Suspects>, Memory>
    requires { room.items ≡ [] }
    ensures { IfOk result (λ found. found ≡ form.suspects_of (items_in list.entry)) }
{
    let mut found = room;
    let mut left = list;
    while let Some(value) = left.next() {
        match suspect(value) {
            Some(suspect) => found.push(suspect)?,
            None => return Ok(None),
        }
    }
    Ok(Some(Suspects::of(found)))
}
