//! A legal history, kept with its books: whatever is asked of it by a key, a run or a search is looked up and not
//! searched for.
//!
//! Contracts see [`Books`] as the history, a list of entries, and each look-up as the definition of the farm that it
//! answers. An entry more is booked with it, and the last one can be taken away again, which takes no memory.
//!
//! It stands on `search_books` for the books, on `farm_entry` for the types and the definitions, and on `farm_laws` for
//! what legal histories keep.
#![tactic(auto)]

mod books;
mod notes;

pub use books::Books;
