//! The numbers that tell the kinds of entries and of their parts apart.

/// The tag of a founding.
pub const FOUNDED_TAG: u8 = 1;

/// The tag of an opening whose miss rate is 0: a broken test fails each time.
pub const OPENED_TAG: u8 = 2;

/// The tag of a run that was given to a worker.
pub const LEASED_TAG: u8 = 3;

/// The tag of a report.
pub const REPORTED_TAG: u8 = 4;

/// The tag of a search that was cancelled.
pub const CANCELLED_TAG: u8 = 5;

/// The tag of an order to revert.
pub const ORDERED_TAG: u8 = 6;

/// The tag of an opening whose miss rate is above 0.
pub const OPENED_WITH_MISS_TAG: u8 = 7;

/// The tag of a report of a run whose tree can't be tested.
pub const SKIPPED_TAG: u8 = 8;

/// The tag of the farm's closing.
pub const CLOSED_TAG: u8 = 9;

/// The tag of an order that was carried over from a farm before.
pub const CARRIED_TAG: u8 = 10;

/// A run that is to find the culprit.
pub const SEARCH_MARK: u8 = 1;

/// A run that verifies a culprit.
pub const VERIFY_MARK: u8 = 2;

/// The test passed.
pub const PASS_MARK: u8 = 1;

/// The test failed.
pub const FAIL_MARK: u8 = 2;

/// The report counts.
pub const COUNTED_MARK: u8 = 1;

/// The report came when the search had no more use for it.
pub const LATE_MARK: u8 = 2;

/// The report would have taken the search past its budget.
pub const OVER_MARK: u8 = 3;

/// The report that a tree can't be tested closes the run's position. Where it came too late, its mark is
/// [`LATE_MARK`].
pub const TAKEN_MARK: u8 = 1;
