//! The numbers of every drill.

/// The most workers of a drill; the fewest is one.
pub const MAX_WORKERS: u32 = 4;

/// How long a run of a drill is leased for, in milliseconds: one day, so that no lease is over while a drill is played.
pub const DRILL_LEASE_MS: u32 = 86_400_000;

/// The most orders that the farm of a drill gives a day.
pub const DRILL_DAILY: u32 = 1_000;

/// How far the time zone of a drill's farm lies east of UTC, in minutes.
pub const DRILL_ZONE_MINUTES: i32 = 0;

/// The moment at which a drill is played, but for its reverts: milliseconds since 1970-01-01 in UTC.
pub const DRILL_MS: u64 = 86_401_000;

/// How far apart the commits of two searches are numbered. A search has fewer suspects, so that all commits of a drill
/// differ.
pub const SEARCH_SPAN: u32 = 1_000;

/// A day, in milliseconds.
pub const DAY_MS: u64 = 86_400_000;
