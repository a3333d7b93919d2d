//! The answers of an HTTP connection as bytes: the status line and the fields of an answer, the interim answer, the
//! bodies of the faults of requests, and the status of each answer of a farm. An answer is put to a sink piece by
//! piece, from texts that stand in the program and digits on the stack, so it takes no memory of its own.
//!
//! Where a put fails, what went out is a prefix of the answer's bytes.
//!
//! The crate stands on `http_words` for statuses, faults and methods, on `farm_entry` for the answers of a farm, on
//! `link_io` for sinks, and on `itoa` for digits. The layers above may use every name below. Which bytes an answer has
//! is defined by `answer_bytes` and `interim_bytes` of `specs/Answers`, and its status by `fault_status` and
//! `answer_status` of `specs/Faults` and `specs/Statuses`.
#![tactic(auto)]

mod answer;
mod farm_status;
mod faults;
mod lines;
mod pieces;
mod status;

pub use answer::{HttpAnswer, put_answer, put_interim};
pub use farm_status::{answer_status, refusal_status};
pub use faults::{fault_allow, fault_status, fault_text, memory_text, store_fault_text};
pub use status::status_line;
