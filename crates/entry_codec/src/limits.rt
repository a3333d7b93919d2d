/// The most bytes of an entry: an opening with the longest name, a miss rate above 0 and the most suspects.
pub const MAX_ENTRY_BYTES: usize = 22_268;

/// The most bytes of a log page, in which a history is handed on: each entry fits.
pub const LOG_PAGE_BYTES: usize = 100_000;
