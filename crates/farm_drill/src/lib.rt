//! A drill: a whole farm that is played from two numbers, in threads. It opens searches, lets workers lease, run and
//! report on one shared farm, takes the reverts, and gives the line of its numbers.
//!
//! [`drill`] is the one call. Its workers are `WorkerCore`s whose actions are done on the shared farm, each in a thread
//! with a pass of its own; when they have ended, the farm is closed, and what is left is done by the caller alone. What
//! the history is then is `IsDrilled` of `specs/Drilled`, and the line is `drill_line` of `specs/Line`. Which worker
//! ran what, and when, no contract says.
//!
//! The crate stands on `drill_plan` for which searches there are and what their runs say, on `shared_farm` for the farm
//! that workers share, on `farm_store` for the farm once it is closed, and on `worker_core` for what a worker does
//! next. The layer above may use every name below and cite `specs/`.
#![tactic(auto)]

mod asking;
mod crew;
mod farm;
mod keys;
mod line;
mod look;
mod names;
mod opens;
mod reporting;
mod reverts;
mod runs;
mod whole;
mod worker;

pub use line::Tally;
pub use whole::drill;
