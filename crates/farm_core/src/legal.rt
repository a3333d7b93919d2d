//! The entries that may come next.

ghost use Rattle.std.specs.Prelude.{◌≡◌, ◌↔◌, IsTrue, IfOk};
ghost use Rattle.farm_entry.specs.Legal.{IsNext, IsUnasked};

use crate::decisions::decide;
use farm_entry::{Decision, Entry, What};
use farm_types::Memory;
use kept_farm::KeptFarm;
use std::alloc::Global;

/// Whether an entry may come next: it is what the command that it names adds, or no command adds its kind and it may
/// stand there.
///
/// # Errors
///
/// [`Memory`].
pub(crate) fn is_next(alloc: Global, farm: &KeptFarm, entry: &Entry) -> Result<bool, Memory>
    ensures { IfOk result (λ next. IsTrue next ↔ IsNext farm.now entry.now) }
{
    let Some(command) = entry.what.command(alloc)? else {
        return Ok(is_unasked(farm, entry));
    };
    match decide(alloc, farm, &command, entry.at)? {
        Decision::New(made) => Ok(made == *entry),
        _ => Ok(false),
    }
}

/// Whether an entry that no command adds may come next: a carried order, or a closing.
fn is_unasked(farm: &KeptFarm, entry: &Entry) -> bool
    ensures { IsTrue result ↔ IsUnasked farm.now entry.now.at entry.now.what }
{
    match &entry.what {
        What::Carried { commit, day } => farm.may_carry(entry.at, *commit, *day),
        What::Closed => farm.may_close(entry.at),
        _ => false,
    }
}
