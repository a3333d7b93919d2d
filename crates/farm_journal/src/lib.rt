//! A journal on a disk: a file of payloads, each of which stays once it was acknowledged, wherever a crash comes.
//!
//! A file begins with a header; then come gates, one byte each. Behind an open gate stands a record, and behind that
//! the next gate; what follows a closed gate means nothing. A payload is appended by writing its record behind the
//! closed gate with a closed gate behind it, syncing, opening the gate and syncing. So a crash at any moment leaves the
//! payloads from before, or these and the new one, whatever it makes of the bytes that were being written.
//!
//! The crate stands on `farm_disk` and the base crate `common_types`. The layers above may use
//! - `Journal`: `create`, `open_on`, `append`, `repair`, and what it tells of itself;
//! - `Payload` and `Payloads`, and the limits of the layout;
//! - `laws`, on what the definitions come to.
//!
//! Clauses above cite `specs/` (`Layout`, `State`, `Created`, `Opened`, `ReadsOnly`, `Faults`, `Mended`).
#![tactic(auto)]

mod appending;
mod creating;
mod disk_calls;
mod fault;
mod journal;
pub mod laws;
mod layout;
mod mending;
mod opening;
mod payload;
mod payloads;
mod reading;
mod storing;
mod upgrading;

pub use fault::{CreateFault, JournalFault, OpeningFault};
pub use journal::Journal;
pub use layout::{FIRST_GATE, GATE_LIMIT, MAGIC, MAX_PAYLOAD, VERSION_1, VERSION_2};
pub use mending::Repaired;
pub use payload::Payload;
pub use payloads::Payloads;
