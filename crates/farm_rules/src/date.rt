ghost use Rattle.std.specs.Prelude.{◌≡◌, ◌≤◌, pos, length, IfOk};
ghost use Rattle.std.specs.String.{string_bytes};
ghost use Rattle.jiff.specs.Types.{Date};
ghost use Rattle.jiff.specs.Words.{date_text, epoch_day};

use farm_types::{LAST_DAY, Memory};
use jiff::ToSpan;
use jiff::civil::date;
use std::alloc::Global;

/// The date of a day that is counted from 1970-01-01, as `YYYY-MM-DD` in the Gregorian calendar: always 10 characters.
pub fn date_text(alloc: Global, day: u32) -> Result<String, Memory>
    requires { day ≤ LAST_DAY }
    ensures date { IfOk result (λ text. (d : Date) × (epoch_day d ≡ pos day) × (string_bytes text ≡ date_text d)) }
    ensures len { IfOk result (λ text. length (string_bytes text) ≡ 10) }
{
    let Ok(found) = date(1970, 1, 1).checked_add((day as i64).days()) else {
        unreachable!();
    };
    Ok(format!(in alloc; "{found}")?)
}
