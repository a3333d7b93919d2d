//! The units of a day.

/// How many milliseconds a minute has.
pub const MS_PER_MINUTE: i64 = 60_000;

/// How many milliseconds a day has. Days have no leap seconds.
pub const MS_PER_DAY: i64 = 86_400_000;
