//! A farm with its ledger: its history with the state of each search and the order of their turns, with where each
//! search was opened and how many runs it was leased, and with the revert orders that stand.
//!
//! Contracts see a [`Ledger`] as the history, a list of entries, and each look-up as the definition of the farm that it
//! answers. An entry more is booked with it, and the last one can be taken away again, which takes no memory. The
//! first search that waits for an order is kept beside each entry: an entry more moves it on over those that don't wait
//! any more, or back to the one that now does, so that the next order is looked up.
//!
//! It stands on `farm_state` for the history with the states and the turns, on `farm_rules` for the book of the orders,
//! on `plain_history` for what the farm was founded with, on `farm_entry` for the types and the definitions, and on the
//! crates of laws for what legal histories keep.
#![tactic(auto)]

mod ledger;
mod notes;
mod register;

pub use ledger::Ledger;
