//! What a list of entries holds, by going through it: the searches, the runs that were handed out, their reports, the
//! orders, the places of keys and reports; and what the farm was founded with.
//!
//! Each definition of `farm_entry` on the filters of a history is one function of the same name, whose contract is that
//! definition, exactly, for any list of entries; running out of memory is the only other answer. Nothing is kept from
//! call to call. What one entry holds, `farm_entry` tells itself. The crate stands on it for the types and the
//! definitions, and on the crates below it for values. The layer above may use every name below, and cites
//! `specs/Held` and `specs/Tests` and the lemmas of `proofs/Holding`, `proofs/Items` and `proofs/Passes`.
#![tactic(auto)]

mod filters;
mod lists;
mod reports;
mod settings;

pub use filters::{
    all_leases_count, counted, is_closed, is_reported, last_lease, lease_of, leases,
    opening_numbered, openings_count, order_lines, orders, orders_count, place_of_key,
    place_of_report, reruns, runs, skipped, was_cancelled, went_over,
};
pub use lists::{lines_from, push_some};
pub use reports::{report_of, report_shown};
pub use settings::{daily_limit, lease_ms, settings_of, zone_minutes};
