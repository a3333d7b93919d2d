//! The evidence of a search: its search line and its runs, in the lines that `judge` reads, so that anyone can judge
//! the search anew from nothing but its runs.
//!
//! Which reports are evidence is defined in `specs/Written`, and the text in `specs/Evidence`. The layer above may use
//! [`evidence_text`], which goes through the history a few times, however many runs the search has. The crate stands on
//! `plain_history` and `plain_farm` for what a history holds and what a search believes, and on the definitions of
//! `judge` for the form of its lines. That `judge` reads the text as it is meant is a law of a crate above.
#![tactic(auto)]

mod leases;
mod lines;
mod runs;
mod text;

pub use text::evidence_text;
