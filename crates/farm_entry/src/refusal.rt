use crate::Standing;
use crate::limits::{MAX_ENTRIES, MAX_RERUNS, MAX_SEARCHES};
use flake_rate::{BarFault, MissFault, RateFault};
use suspect_range::RangeFault;
use thiserror::Error;
use weight_exact::MAX_WIDTH;

/// Why a farm refuses a command. A refused command changes nothing, and its key stays unused.
#[derive(Clone, Copy, Debug, Error)]
pub enum Refusal {
    /// The search can't be opened as it was asked for.
    #[error("the search can't be opened: {0}")]
    BadOpen(OpenFault),
    /// The key stands in the entry at this place, counted from 0, and that entry is of another command: one of another
    /// kind, or with other contents.
    #[error("the key was used for another command, which made entry {0}")]
    KeyClash(u32),
    /// The history holds [`MAX_ENTRIES`] entries.
    #[error("the history is full, with {max} entries", max = MAX_ENTRIES)]
    Full,
    /// The farm was closed.
    #[error("the farm is closed")]
    Closed,
    /// The farm has [`MAX_SEARCHES`] searches.
    #[error("the farm has {max} searches, and takes no more", max = MAX_SEARCHES)]
    TooManySearches,
    /// No search has a run to hand out.
    #[error("no run is due")]
    NoRun,
    /// No run with this number was handed out.
    #[error("there is no run {0}")]
    UnknownRun(u32),
    /// No search has this number.
    #[error("there is no search {0}")]
    UnknownSearch(u32),
    /// The search has ended, and stands so.
    #[error("the search has ended: {0}")]
    SearchEnded(Standing),
    /// No culprit is confirmed whose commit has no order yet.
    #[error("no commit waits to be reverted")]
    NoRevert,
    /// The day has all the orders that the settings allow.
    #[error("day {day} has {count} orders, and may have no more")]
    DailyLimit {
        /// The day in the farm's time zone, in days since 1970-01-01.
        day: u32,
        /// How many orders it has.
        count: u32,
    },
}

/// Why a search can't be opened. Where several causes stand, the first in this order is answered.
#[derive(Clone, Copy, Debug, Error)]
pub enum OpenFault {
    /// The suspects make no range. Running out of memory isn't said in this way.
    #[error(transparent)]
    Range(RangeFault),
    /// The numbers, as given, are no flake rate.
    #[error(transparent)]
    Rate(RateFault),
    /// The numbers, as given, are no miss rate, or are one with which a broken test fails no more often than a sound
    /// one does at the flake rate.
    #[error("the miss rate {c}/{d} is outside its limits, or too high for the flake rate", c = .0.c, d = .0.d)]
    Miss(MissFault),
    /// The numbers, as given, are no bar.
    #[error(transparent)]
    Bar(BarFault),
    /// This width is outside 1 to [`MAX_WIDTH`].
    #[error("the width {0} is outside 1 to {max}", max = MAX_WIDTH)]
    Width(u32),
    /// This number of reruns is outside 1 to [`MAX_RERUNS`].
    #[error("the number of reruns, {0}, is outside 1 to {max}", max = MAX_RERUNS)]
    Reruns(u32),
}
