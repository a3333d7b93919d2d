//! How a farm in memory is founded.

ghost use Rattle.std.specs.Prelude.{◌≡◌};
ghost use Rattle.farm_entry.specs.Settings.{settings_daily, settings_lease_ms, settings_zone_minutes};
ghost use Rattle.farm_types.specs.Moment.{moment_ms};

use farm_entry::Settings;
use farm_types::{MOMENT_MIN_MS, Moment};

/// How long a run of a farm in memory is leased for, in milliseconds.
pub const MEMORY_LEASE_MS: u32 = 60_000;

/// The most orders that a farm in memory gives a day.
pub const MEMORY_DAILY: u32 = 10;

/// How far the time zone of a farm in memory lies east of UTC, in minutes.
pub const MEMORY_ZONE_MINUTES: i32 = 0;

/// The settings of a farm in memory.
pub fn memory_settings() -> Settings
    ensures lease { settings_lease_ms result ≡ MEMORY_LEASE_MS }
    ensures daily { settings_daily result ≡ MEMORY_DAILY }
    ensures zone { settings_zone_minutes result ≡ MEMORY_ZONE_MINUTES }
{
    match Settings::of(MEMORY_LEASE_MS, MEMORY_DAILY, MEMORY_ZONE_MINUTES) {
        Ok(settings) => settings,
        Err(_) => unreachable!(),
    }
}

/// The moment at which a farm in memory is founded: the first that there is.
pub fn memory_moment() -> Moment
    ensures { moment_ms result ≡ MOMENT_MIN_MS }
{
    match Moment::of(MOMENT_MIN_MS) {
        Ok(at) => at,
        Err(_) => unreachable!(),
    }
}
