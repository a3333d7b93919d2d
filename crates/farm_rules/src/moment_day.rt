ghost use Rattle.std.specs.Prelude.{◌≡◌, ◌≤◌, ◌≤ℤ◌};
ghost use Rattle.farm_rules.specs.Day.{day_at};
ghost use Rattle.farm_types.specs.Moment.{moment_ms};

use crate::{MS_PER_DAY, MS_PER_MINUTE};
use farm_types::{LAST_DAY, Moment, ZONE_MAX_MINUTES, ZONE_MIN_MINUTES};

/// The day of a moment by the local clock, in whole days since 1970-01-01, where local time is `zone_minutes` minutes
/// ahead of UTC.
pub fn day_of(moment: Moment, zone_minutes: i32) -> u32
    requires zone_low { ZONE_MIN_MINUTES ≤ℤ zone_minutes }
    requires zone_high { zone_minutes ≤ℤ ZONE_MAX_MINUTES }
    ensures day { result ≡ day_at (moment_ms moment) zone_minutes }
    ensures in_range { result ≤ LAST_DAY }
{
    let local_ms = moment.ms() as i64 + zone_minutes as i64 * MS_PER_MINUTE;
    local_ms.div_euclid(MS_PER_DAY) as u32
}
