/// The westernmost time zone, in minutes east of UTC: local time is 12 hours behind UTC.
pub const ZONE_MIN_MINUTES: i32 = -720;

/// The easternmost time zone, in minutes east of UTC: local time is 14 hours ahead of UTC.
pub const ZONE_MAX_MINUTES: i32 = 840;
