//! Showing the page of a search by the farm in memory.

ghost use Rattle.std.specs.Prelude.{◌≡◌, IfOk};
ghost use Rattle.std.specs.Option.{option_map};
ghost use Rattle.farm_entry.specs.History.{opening_numbered};
ghost use Rattle.farm_entry.specs.Pages.{page_of};

use farm_core::{CoreFault, Farm, Prepared};
use farm_entry::{Command, Reply, SearchPage};
use farm_types::Memory;

/// The page of a search, where it was opened.
pub fn page_in(farm: &mut Farm, search: u32) -> Result<Option<SearchPage>, Memory>
    ensures page { IfOk result
        (λ page. page ≡ option_map (page_of farm.old.history) (opening_numbered farm.old.history search)) }
    ensures history { farm.new.history ≡ farm.old.history }
{
    // What is shown doesn't go by the moment, so that of the founding will do.
    let at = farm.history()[0].at;
    match farm.prepare(&Command::ShowSearch { search }, at) {
        Ok(Prepared::Shown(Reply::Search(page))) => Ok(Some(page)),
        Ok(_) => unreachable!(),
        Err(CoreFault::Refused(_)) => Ok(None),
        Err(CoreFault::Memory) => Err(Memory),
    }
}
