ghost use Rattle.std.specs.Prelude.{◌≡◌, Some, None, OnOk, IfOk, IfErr};
ghost use Rattle.farm_entry.specs.Limits.{IsDailyLimit, IsLeaseTime, IsZone};

use farm_types::{ZONE_MAX_MINUTES, ZONE_MIN_MINUTES};
use thiserror::Error;

/// The shortest time that a lease may last, in milliseconds.
pub const LEASE_MIN_MS: u32 = 1_000;

/// The longest time that a lease may last, one day, in milliseconds.
pub const LEASE_MAX_MS: u32 = 86_400_000;

/// The greatest daily limit of orders; the least is 0, with which no order is ever given.
pub const MAX_DAILY: u32 = 1_000;

/// What a farm is founded with, and keeps: how long a lease lasts, how many orders to revert a day may have, and where
/// its days begin.
#[derive(Clone, Copy, PartialEq, Eq)]
pub struct Settings {
    lease_ms: u32,
    daily: u32,
    zone_minutes: i32,
    ghost lease_in_range: { IsLeaseTime lease_ms },
    ghost daily_in_range: { IsDailyLimit daily },
    ghost zone_in_range: { IsZone zone_minutes },
}

/// Why three numbers are no settings: the first of them that is outside its limits.
#[derive(Clone, Copy, Debug, Error)]
pub enum SettingsFault {
    /// A lease of this many milliseconds is shorter than [`LEASE_MIN_MS`] or longer than [`LEASE_MAX_MS`].
    #[error("a lease lasts {min} to {max} ms, and not {0}", min = LEASE_MIN_MS, max = LEASE_MAX_MS)]
    Lease(u32),
    /// This many orders a day are more than [`MAX_DAILY`].
    #[error("{0} orders a day are more than {max}", max = MAX_DAILY)]
    Daily(u32),
    /// This many minutes east of UTC are fewer than [`ZONE_MIN_MINUTES`] or more than [`ZONE_MAX_MINUTES`].
    #[error("a time zone lies {min} to {max} minutes east of UTC, and not {0}", min = ZONE_MIN_MINUTES, max = ZONE_MAX_MINUTES)]
    Zone(i32),
}

impl Settings {
    ghost use Rattle.farm_entry.specs.Settings.{settings_daily, settings_fault, settings_lease_ms, settings_zone_minutes};

    /// The settings with these numbers, or the first of them that is outside its limits: `lease_ms` is how long a lease
    /// lasts, [`LEASE_MIN_MS`] to [`LEASE_MAX_MS`] milliseconds; `daily` the most orders of a day, 0 to [`MAX_DAILY`];
    /// and `zone_minutes` how far the zone of the days lies east of UTC, [`ZONE_MIN_MINUTES`] to [`ZONE_MAX_MINUTES`].
    pub fn of(lease_ms: u32, daily: u32, zone_minutes: i32) -> Result<Settings, SettingsFault>
        ensures taken { OnOk result (settings_fault lease_ms daily zone_minutes ≡ None) }
        ensures kept { IfOk result (λ settings. (settings_lease_ms settings ≡ lease_ms)
            × (settings_daily settings ≡ daily) × (settings_zone_minutes settings ≡ zone_minutes)) }
        ensures refused { IfErr result (λ fault. settings_fault lease_ms daily zone_minutes ≡ Some fault) }
    {
        if !(LEASE_MIN_MS..=LEASE_MAX_MS).contains(&lease_ms) {
            return Err(SettingsFault::Lease(lease_ms));
        }
        if daily > MAX_DAILY {
            return Err(SettingsFault::Daily(daily));
        }
        if !(ZONE_MIN_MINUTES..=ZONE_MAX_MINUTES).contains(&zone_minutes) {
            return Err(SettingsFault::Zone(zone_minutes));
        }
        Ok(Settings {
            lease_ms,
            daily,
            zone_minutes,
        })
    }

    /// How long a lease lasts, in milliseconds.
    pub fn lease_ms(&self) -> u32
        ensures number { result ≡ settings_lease_ms self.now }
        ensures in_range { IsLeaseTime result }
    {
        self.lease_ms
    }

    /// The most orders that a day may have.
    pub fn daily(&self) -> u32
        ensures number { result ≡ settings_daily self.now }
        ensures in_range { IsDailyLimit result }
    {
        self.daily
    }

    /// How far the farm's time zone lies east of UTC, in minutes; west of it the number is negative. A day of the farm
    /// begins at midnight of this zone.
    pub fn zone_minutes(&self) -> i32
        ensures number { result ≡ settings_zone_minutes self.now }
        ensures in_range { IsZone result }
    {
        self.zone_minutes
    }
}
