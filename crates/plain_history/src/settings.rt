//! What the farm was founded with.

ghost use Rattle.std.specs.Prelude.{◌≡◌};
ghost use Rattle.farm_entry.specs.History.{daily_limit, lease_ms, settings_of, zone_minutes};
ghost use Rattle.farm_entry.specs.Limits.{IsZone};

use farm_entry::{Entry, Settings};

/// What the farm was founded with, which its first entry says.
pub fn settings_of(history: &[Entry]) -> Option<Settings>
    ensures { result ≡ settings_of history.now }
{
    match history {
        [] => None,
        [first, ..] => first.what.settings(),
    }
}

/// How long a lease lasts, in milliseconds.
pub fn lease_ms(history: &[Entry]) -> u32
    ensures { result ≡ lease_ms history.now }
{
    match settings_of(history) {
        Some(settings) => settings.lease_ms(),
        None => 0,
    }
}

/// How many orders a day may have.
pub fn daily_limit(history: &[Entry]) -> u32
    ensures { result ≡ daily_limit history.now }
{
    match settings_of(history) {
        Some(settings) => settings.daily(),
        None => 0,
    }
}

/// How far the zone of the farm's days lies east of UTC, in minutes.
pub fn zone_minutes(history: &[Entry]) -> i32
    ensures number { result ≡ zone_minutes history.now }
    ensures in_range { IsZone result }
{
    match settings_of(history) {
        Some(settings) => settings.zone_minutes(),
        None => 0,
    }
}
