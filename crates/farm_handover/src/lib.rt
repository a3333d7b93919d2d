//! What a closed farm hands over to the next one: a line `COMMIT DAY` for each commit that was ordered, and a last line
//! `closed N` with their number; written of a history, and read back.
//!
//! `specs/Handover` says it whole, from bytes to bytes. The crate stands on `farm_entry` for histories, on `farm_rules`
//! for orders, whose table tells whether a commit was read before, on `farm_types` and `hex` for ids, on `farm_wire`
//! for what an id in text names, on `common_types` for numbers, and on `judge` for lines and words. The layer above may
//! use every name below, and cite the law that what is written is read back ([`laws`]).
#![tactic(auto)]

mod fault;
pub mod laws;
mod read_orders;
mod reading;
mod writing;

pub use fault::HandoverFault;
pub use reading::read_handover;
pub use writing::handover_text;
