//! JSON texts read onto a tape, with the meaning that `serde_json` gives them: what a text says borrows from it, and
//! no string, array or tree of members is allocated for it.
//!
//! The crate stands on `json` for the tape, on `simdutf8` for UTF-8, on `fast_float` for numbers, and on `serde_json`
//! for what a text means: its `read` (`Rattle.serde_json.specs.Read`) is cited by each clause, so a text is accepted
//! and refused exactly as by `serde_json::Value`, and a look-up finds what it finds there. The layer above may use
//! [`Document`], which is a whole text, [`Parsed`], a value in it, and [`ParsedItems`], the items of an array.
#![tactic(auto)]

mod document;
mod items;
mod number;
mod parsed;
mod range;

pub use document::{Document, Unread};
pub use items::ParsedItems;
pub use parsed::Parsed;
