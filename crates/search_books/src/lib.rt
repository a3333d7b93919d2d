//! The books that a farm keeps of its searches: the runs that were handed out, where keys and reports stand, the order
//! in which active searches are asked for a run, and where the entries of each search stand.
//!
//! Additions to a book take no memory where room was made for them before, and each can be taken back and gives its
//! room back, so that an entry which was stored elsewhere can be added, taken back and added again.
//!
//! A [`LeaseBook`] has each run that was handed out, and whether it was answered. It finds a lease by its run, and the
//! open leases of one search without going through those of others: they stand in a chain, from the newest to the
//! oldest, which an answered lease leaves where it is near its head. A look follows it only as far as leases may still
//! be open, since each lease knows the latest deadline up to it. Contracts see a `BookView` of `specs/`: the list of
//! leases with their marks, and the room for more.
//!
//! An [`Inbox`] tells at which entry each request's key stands, and at which each run was reported, by a look-up: so a
//! request that is sent again, or a run that is reported again, is known without going through the history. Keys are
//! kept in buckets, since a sender picks them; runs are numbered one after the other, and each has a row. Contracts see
//! an `InboxView`: two finite maps with their room.
//!
//! An [`ActiveOrder`] has the active searches: those never leased by number, and behind them the others by when each
//! was last leased. It gives the search to ask first, and the one to ask after another, each in one step, so that the
//! next run is found by looking at the first few searches. What a search is and when it is active is its caller's.
//! Contracts see an `Active`: two lists of numbers, how many were opened, and the room for more.
//!
//! [`SearchPlaces`] has where the entries of each search stand in a history: the one that opened it, its leases in
//! order, and its order. An entry is added at its place by what it is to the searches ([`EntryKind`]). Contracts see a
//! list of `RowView`s, one for each search by its number.
//!
//! The crate stands on `farm_types` for keys, the stage of a run and the out-of-memory error, and on nothing of the
//! farm. The layers above may use every name below.
#![tactic(auto)]

mod active;
mod book;
mod bucket;
mod entry_kind;
mod inbox;
mod key_chains;
mod key_table;
pub mod laws;
mod lease;
mod lease_chains;
mod links;
mod look;
mod places;
mod ring;
mod row;
mod run_rows;

pub use active::ActiveOrder;
pub use book::LeaseBook;
pub use entry_kind::EntryKind;
pub use inbox::Inbox;
pub use lease::{Lease, OUT_MAX};
pub use places::SearchPlaces;
pub use row::SearchRow;
