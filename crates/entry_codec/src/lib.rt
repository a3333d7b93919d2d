//! Entries as bytes, and back: the form in which a farm's history is kept and handed on.
//!
//! A list of entries is their bytes one after the other. An entry is its moment (8 bytes), a tag (1 byte) that tells
//! its kind, and its fields; numbers stand with their highest byte first, a name as its length in one byte and its
//! bytes. Each entry has one spelling, and no spelling begins another one, so that bytes are read in one way or in
//! none.
//!
//! Where some bytes are no list of entries, the fault tells the exact offset at which they stop being one. An entry has
//! 9 to `MAX_ENTRY_BYTES` bytes.
//!
//! The crate stands on `farm_entry` for the entries, on the crates of the values that these hold, whose own calls test
//! each limit, on `byteorder` for the numbers, on `hex` for the word for bytes, and on `thiserror` for the texts of its
//! faults. The layers above may use every name below. The definitions stand in `specs/`: `Spelling` (the bytes of an
//! entry and of a list), `Grammar` (which entries have a spelling, and where bytes stop being one), `Values` and
//! `Reading` (one entry from the front of some bytes, as a function on lists), `LogPage` (what is handed on at once).
//! The facts on them are [`laws`].
#![tactic(auto)]

mod entries;
mod fault;
mod fields;
pub mod laws;
mod limits;
mod marks;
mod page;
mod parts;
mod reading;
mod values;
mod writing;

pub use fault::CodecFault;
pub use limits::{LOG_PAGE_BYTES, MAX_ENTRY_BYTES};
pub use marks::{
    CANCELLED_TAG, CARRIED_TAG, CLOSED_TAG, COUNTED_MARK, FAIL_MARK, FOUNDED_TAG, LATE_MARK,
    LEASED_TAG, OPENED_TAG, OPENED_WITH_MISS_TAG, ORDERED_TAG, OVER_MARK, PASS_MARK, REPORTED_TAG,
    SEARCH_MARK, SKIPPED_TAG, TAKEN_MARK, VERIFY_MARK,
};
pub use page::write_log_page;
pub use reading::read_entries;
pub use writing::{write_entries, write_entries_into};
