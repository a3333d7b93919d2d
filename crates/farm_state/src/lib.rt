//! A farm as it is kept: a legal history with its books, the state of each of its searches, and the order of turns in
//! which its active searches are asked for a run, carried from entry to entry.
//!
//! Contracts see a [`FarmState`], which has the books and the states, and a [`FarmTurns`], which has the order too, as
//! the history. An entry more costs what it changes: a report is one note of a belief. The last one can be taken away
//! again: where it was about a search, the state of that search is told anew.
//!
//! The run that is handed out next is found by a walk along the active searches up to the first that has a run to make,
//! and an entry more changes the order at one search: the one that it opens, leases a run of, or ends. For each entry
//! it is kept what was changed in the order.
//!
//! The laws say whose turn it is to have a run handed out; a function there does nothing, its contract is the law.
//! `specs/WhoseTurn` says whose turn it is, `specs/TurnOrder` which lists of searches are in the order of turns, and
//! what is due along one. The lemmas say that the run that is handed out next is the first that is due along the order,
//! and that appending an entry changes it so.
//!
//! It stands on `farm_books` for the history and its look-ups, on `search_state` for the searches and for what holds
//! between the two, on `search_books` for the order, on `farm_entry` for the types and the definitions, and on the
//! lemmas of `farm_laws`.
#![tactic(auto)]

mod leases;
mod moves;
mod state;
mod telling;
mod turns;

pub use leases::{
    runs_go_to_the_search_that_waits_longest, searches_never_leased_stand_at_the_founding,
};
pub use state::FarmState;
pub use turns::FarmTurns;
