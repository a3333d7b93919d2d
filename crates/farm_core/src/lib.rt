//! The farm: one legal history of entries, and what may come next in it.
//!
//! A [`Farm`] answers a command in two steps. `prepare` says what the command comes to at the history and a moment, by
//! the farm's definitions, and makes the room for its entry; `commit` then appends that entry and takes no memory, so
//! that an entry which was stored elsewhere in between can't be lost. `answer` does both at once, and `enter` does so
//! for a caller who needs no reply but the run that it hands out. `admit` takes an entry that came from elsewhere, if
//! it may come next, and `retract` takes the last entries back. Contracts see the history, and the entries that may be
//! committed next.
//!
//! What is kept for the history and for what may be committed next is kept once, by `kept_farm`: where an entry was
//! made ready, its look-ups, its search and its totals are carried on with it, so that a commit moves one number. What
//! was made ready and not committed is taken away again by the next `prepare`, `answer`, `enter`, `admit` or `retract`.
//!
//! What a command comes to is decided by look-ups (`decisions`): what was done before, what is due, where a search
//! stands and what is counted is asked of the kept farm, and the answer is what the plain program promises over a list
//! of entries.
//!
//! It stands on `kept_farm` for what is kept, on `search_state` for what the state of a search says of a history, on
//! the laws of `farm_laws` for what these calls ask for, on `plain_history` for what the farm was founded with, on
//! `farm_entry` for the types and the definitions of the farm, and on `farm_types` for moments and the out-of-memory
//! error. The layer above may use every name below.
#![tactic(auto)]

mod decision_known;
mod decision_new;
mod decision_report;
mod decisions;
mod farm;
mod legal;
mod prepared;
mod search_page;
mod tail;

pub use farm::{AdmitFault, Farm};
pub use prepared::{CoreFault, Prepared};
