//! A farm as it is kept: a legal history, and beside it what a farm is asked for, so that each answer is looked up and
//! not searched for.
//!
//! Contracts see a [`KeptFarm`] as the history, a list of entries, and each look-up as the definition of the farm that
//! it answers. An entry more costs what it changes, and the last one can be taken away again, which takes no memory.
//!
//! It stands on `farm_ledger` for the history, its books, the states of the searches, the order of their turns and the
//! orders that stand, and on `search_books` for where the entries of each search stand; on `farm_laws` and
//! `search_state` for what appending an entry changes, on `plain_history` for lists that are made item by item, and on
//! `farm_entry` for the types and the definitions. The layer above may use every name below.
#![tactic(auto)]

mod changes;
mod entry_kind;
mod farm;
mod order_places;
mod replies;
mod row;
mod run_page;
mod search_list;

pub use farm::KeptFarm;
