//! The decision on a command that was done before: its first reply again, or that its key was used for another.

ghost use Rattle.std.specs.Prelude.{◌≡◌, ◌<◌, length, IfOk};
ghost use Rattle.farm_entry.specs.Decision.{known_decision, repeat_or_clash};
ghost use Rattle.farm_entry.specs.Legal.{IsLegal};

use farm_entry::{Command, Decision, Entry, Refusal};
use farm_types::Memory;
use plain_history::{place_of_key, place_of_report};
use std::alloc::Global;

/// The decision on a command whose key stands at a place.
fn repeat_or_clash(
    alloc: Global,
    history: &[Entry],
    command: &Command,
    place: usize,
) -> Result<Decision, Memory>
    requires legal { IsLegal history.now }
    requires within { place < length history.now }
    ensures { IfOk result (λ found. found ≡ repeat_or_clash history.now command.now place) }
{
    if history[place].what.is_asked_by(alloc, command)? {
        Ok(Decision::Repeat(place as u32))
    } else {
        Ok(Decision::Refuse(Refusal::KeyClash(place as u32)))
    }
}

/// The decision on a command that was done before, or whose key was used for another: a report, with a
/// verdict or not, is told by its run.
pub(crate) fn known_decision(
    alloc: Global,
    history: &[Entry],
    command: &Command,
) -> Result<Option<Decision>, Memory>
    requires { IsLegal history.now }
    ensures { IfOk result (λ found. found ≡ known_decision history.now command.now) }
{
    if let Command::Report { run, .. } | Command::Skip { run } = command {
        return match place_of_report(history, *run) {
            None => Ok(None),
            Some(place) => Ok(Some(Decision::Repeat(place as u32))),
        };
    }
    let Some(key) = command.key() else {
        return Ok(None);
    };
    match place_of_key(history, key) {
        None => Ok(None),
        Some(place) => Ok(Some(repeat_or_clash(alloc, history, command, place)?)),
    }
}
