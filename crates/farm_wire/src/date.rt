//! Days as dates.

ghost use Rattle.std.specs.Prelude.{◌≡◌, ◌≤◌, IfOk, string_bytes};
ghost use Rattle.farm_types.specs.declared.moment.TheConstants.{LAST_DAY};
ghost use Rattle.farm_wire.specs.Dates.{day_text};

use farm_types::Memory;
use std::alloc::Global;

/// The date of a day that is counted from 1970-01-01, as `YYYY-MM-DD`.
pub(crate) fn day_text(alloc: Global, day: u32) -> Result<String, Memory>
    requires { day ≤ LAST_DAY }
    ensures { IfOk result (λ text. string_bytes text ≡ day_text day) }
{
    farm_rules::date_text(alloc, day)
}
