/// The most entries of a history, its closing aside. A full one still answers what only shows, and repeats what it
/// answered before.
pub const MAX_ENTRIES: usize = 1_000_000;

/// The most orders that a farm is founded with: its founding and they fit one record of a journal.
pub const MAX_CARRIED: usize = 30_000;

/// The most searches of a farm, ended ones among them.
pub const MAX_SEARCHES: u32 = 2_000;

/// The greatest number of reruns with which a search is verified; the least is 1.
pub const MAX_RERUNS: u32 = 8;

/// The most lines of a page of runs, and of the list of searches.
pub const PAGE_LINES: u32 = 100;
