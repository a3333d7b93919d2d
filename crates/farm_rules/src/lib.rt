//! The rules of the farm that several crates are proved against: which run is due, what reruns come to, which search
//! gets the next revert order, and the day that an order counts on; the calls that compute them, and the book of the
//! orders that stand.
//!
//! The rules are definitions, in specs/. They compute by recursion on lists, so that the worked numbers in [`laws`] are
//! found by evaluating them; the other laws there say what characterises them. The types that a rule is asked with and
//! answers, where it has some of its own, stand here too, so that every layer above means the same by a candidate, a
//! draft and a refusal.
//!
//! A search that runs several tests at once keeps the positions of the runs that are out. [`due_search`] says what
//! comes next of the plan of a searching search, and [`due_verify`] what comes next of the reruns of a verifying one.
//! [`is_left`] tells it entry by entry, for a caller that makes no more of its plan than it needs. The layer above
//! passes the plan and the positions that are out, each as often as it runs.
//!
//! That a named suspect is rerun, at it and at its parent, before anything is reverted is how LUCI's bisection verifies
//! a culprit. [`Verify`] takes the reruns one by one, in the order in which they end. Its contracts say what it stands
//! for (`specs/StandsFor.antt`): the plain list of the reruns that counted. It keeps counts and not reruns. After any
//! list of reruns a verification has ended exactly as the rules say of those that counted, and a late rerun changes
//! nothing ([`verifications`]). `Verify::counts` tells how many counted at the culprit and at its parent.
//!
//! [`Orders`] is the book of the revert orders that stand: which confirmed search gets the next one, and on which day
//! it counts. No commit has two orders, and those that were carried over from farms before this one are orders as well.
//! `Orders::reserve` makes room for so many more; each order takes one place, and one that `take_last` takes back gives
//! its place back, so that as many can be added again without memory. The orders stand in a table of its own, since the
//! maps of the libraries don't promise that a removal gives its room back. Contracts see the book as a `Book` of
//! `specs/`: the list of the orders that stand, how many of them were given here, and the room for more. [`day_of`] is
//! the day of a moment by a local clock, and [`date_text`] a day's date.
//!
//! The rules take no memory. The crate stands on `farm_types` for ids, moments, days, the limits of time zones and the
//! out-of-memory error, on `weight_exact` for runs, on `jiff` for the calendar, and on `thiserror` for the texts of
//! refusals. The layers above may use every name below, and cite `StandsFor`, `answer`, the fields of a `Verification`,
//! `Book`, and the lemmas of `proofs/Striking` (what is left of a plan), `proofs/Earliest` and `proofs/Drafts` (the
//! next order).
//!
//! The laws: what is due doesn't depend on the order of the outstanding runs (`outstanding_runs_in_any_order`); the
//! search that gets an order is the first with the least number among the confirmed ones whose commit has none
//! (`drafts_are_next_orders`, `earliest_is_the_first_with_the_least_number`); a day begins at or before its moments and
//! the next one after them (`days_have_their_milliseconds`).
#![tactic(auto)]

mod date;
mod day;
mod due;
pub mod laws;
mod moment_day;
mod order_book;
mod order_chains;
mod orders;
mod outcome;
pub mod verifications;
mod verify;

pub use date::date_text;
pub use day::{MS_PER_DAY, MS_PER_MINUTE};
pub use due::{due_search, due_verify, is_left};
pub use moment_day::day_of;
pub use order_book::{Orders, RevertOrder};
pub use orders::{Candidate, Draft, NoOrder, OrderedCommit};
pub use outcome::Outcome;
pub use verify::Verify;
