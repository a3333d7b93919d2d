//! The limits of a search, within which exact inference fits 128 bits.

/// The greatest number of suspects.
pub const MAX_SUSPECTS: usize = 1_000;

/// The greatest prior weight of a suspect. The least is 1.
pub const MAX_WEIGHT: u32 = 65_535;

/// The greatest prior weight of "no culprit", the calm weight. The least is 1.
pub const MAX_CALM: u32 = 1_000_000;

/// The greatest width of a search: how many positions it may run at once. The least is 1.
pub const MAX_WIDTH: u8 = 8;

/// How many basis points a whole has. Shares are given in basis points.
pub const BASIS_POINTS: u128 = 10_000;
