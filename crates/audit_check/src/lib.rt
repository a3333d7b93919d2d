//! An independent check of a journal: whether its bytes stand for a history that a farm can have.
//!
//! [`audit`] reads the bytes of a journal by readers of its own and decides whether their entries are a legal history
//! by `plain_farm`, place by place. It calls nothing of the codec, of the journal or of the farm that the service
//! keeps, so that a fault in one of them shows here; of the first two it cites the definitions of the file's layout
//! (`opens`) and of an entry's bytes (`entry_at`), which say what a journal is.
//!
//! The code stands on `farm_entry` and the crates of the values that entries hold, whose own calls test each limit, on
//! `plain_history` and on `plain_farm`. The layer above may use every name below, and cites `specs/Told` (what bytes
//! tell), `specs/Verdict` (what is found of that), `specs/Line` (the line of a finding) and `specs/Audited` (the line
//! on bytes).
#![tactic(auto)]

mod auditing;
mod entries;
mod fields;
mod finding;
mod gates;
pub mod laws;
mod parts;
mod stop;
mod values;

pub use auditing::{audit, audit_line};
pub use finding::{Finding, MAX_AUDITED};
