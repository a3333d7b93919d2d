//! The farm's commands as they are sent, and its answers as they are sent back, in JSON: script lines and the bodies of
//! requests are read as commands, and replies, refusals and faults are written as texts. [`answer_text`] writes the
//! answer to a command, which is the one or the other, and [`answer_text_in`] in room that is kept for texts.
//!
//! No text says that memory ran out: that is an answer of the call. A line longer than [`MAX_COMMAND_BYTES`] is refused
//! as too long by its length alone.
//!
//! The crate stands on `farm_entry` for commands, replies and refusals, on `farm_laws` for the days that a legal
//! history's replies show, on `farm_types`, `suspect_range`, `flake_rate` and `weight_exact` for the values in them, on
//! `http_words` for routes, on `farm_rules` and `jiff` for dates, on `json_tape` for what is read, on `serde_json` and
//! `json` for what is written, on `itoa` and `simdutf8` for digits, on `uuid` for keys, on `hex` for ids, and on
//! `thiserror` for the texts of its faults. The layers above may use every name below. What a text says is defined by
//! `line_reading` and `body_reading` of `specs/`, over the value that `serde_json` reads; what is written is
//! `serde_json`'s text of `reply_data`, `refusal_data` and `fault_data`. Replies are written member by member into one
//! text (`JsonText`), as `serde_json` writes their values; log pages and refusals, which are rare or long, go through a
//! map of members (`JsonObject`).
#![tactic(auto)]

mod answer;
mod command;
mod commas;
mod date;
mod fault;
mod field;
mod fields;
mod forms;
pub mod laws;
mod limits;
mod line_reader;
mod object;
mod orders;
mod page;
mod refusal;
mod reply;
mod runs;
mod searches;
mod standing;
mod text;
mod texts;
mod verb;
mod words;

pub use answer::{answer_text, answer_text_in};
pub use command::command_of;
pub use fault::WireFault;
pub use field::Field;
pub use http_words::Route;
pub use limits::MAX_COMMAND_BYTES;
pub use line_reader::{LineReader, line_of};
pub use refusal::{fault_text, refusal_text};
pub use reply::{log_text, reply_text, reply_text_in, totals_text};
