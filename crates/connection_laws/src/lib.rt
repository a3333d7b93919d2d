//! What is held of one HTTP connection: for the bytes that were taken from it, which bytes were put, at which histories
//! its commands were answered, and with which counts of the disk it answered that the store had failed; and the laws of
//! that.
//!
//! Nothing here runs. `specs/Held` has the definition, `specs/Steps` what items come to one after the other,
//! `specs/Answers` the bytes that are put for an item, `specs/Serving` what serving a connection came to, and
//! `specs/Owners` whose the entries are that were recorded. A function of [`laws`] does nothing: its contract is the
//! law.
//!
//! The crate stands on `http_requests` for the items of a connection's bytes, on `farm_wire` and `http_answers` for the
//! texts, statuses and bytes of answers, on `farm_store` for what a farm answers, on `turn_lock` for what a pass holds, and on
//! `link_io` for links and clocks. The layers above may use every name below.
#![tactic(auto)]

pub mod laws;
mod served;

pub use served::{ServeFault, Served, Why};
