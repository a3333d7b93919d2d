//! The decision on a command that was done before: its first reply again, or that its key was used for another.

ghost use Rattle.std.specs.Prelude.{◌≡◌, ◌<◌, length, IfOk};
ghost use Rattle.farm_entry.specs.Decision.{known_decision, repeat_or_clash};

use farm_entry::{Command, Decision, Refusal};
use farm_types::Memory;
use kept_farm::KeptFarm;
use std::alloc::Global;

/// The decision on a command whose key stands at a place.
fn repeat_or_clash(
    alloc: Global,
    farm: &KeptFarm,
    command: &Command,
    place: u32,
) -> Result<Decision, Memory>
    requires { place < length farm.now }
    ensures { IfOk result (λ found. found ≡ repeat_or_clash farm.now command.now place) }
{
    let history = farm.history();
    if history[place as usize].what.is_asked_by(alloc, command)? {
        Ok(Decision::Repeat(place))
    } else {
        Ok(Decision::Refuse(Refusal::KeyClash(place)))
    }
}

/// The decision on a command that was done before, or whose key was used for another: a report, with a
/// verdict or not, is told by its run.
pub(crate) fn known_decision(
    alloc: Global,
    farm: &KeptFarm,
    command: &Command,
) -> Result<Option<Decision>, Memory>
    ensures { IfOk result (λ found. found ≡ known_decision farm.now command.now) }
{
    if let Command::Report { run, .. } | Command::Skip { run } = command {
        return match farm.place_of_report(*run) {
            None => Ok(None),
            Some(place) => Ok(Some(Decision::Repeat(place))),
        };
    }
    let Some(key) = command.key() else {
        return Ok(None);
    };
    match farm.place_of_key(key) {
        None => Ok(None),
        Some(place) => Ok(Some(repeat_or_clash(alloc, farm, command, place)?)),
    }
}
