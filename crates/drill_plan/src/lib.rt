//! The plan of a drill: which searches it opens, where the true culprit of each stands, and what each run would say.
//!
//! A drill is a large farm that is played from two numbers. Everything in it follows from the number of a search, by
//! the definitions of `specs/Plan`; `specs/Start` says which history a farm has once all searches of a drill are
//! opened, and `laws` that none of these opens is refused. The crate stands on `farm_entry` for requests and
//! histories, and on the values that they hold. The layers above may use every name below and cite `specs/`.
#![tactic(auto)]

mod ask;
pub mod laws;
mod limits;
mod truth;

pub use ask::planned_ask;
pub use limits::{
    DAY_MS, DRILL_DAILY, DRILL_LEASE_MS, DRILL_MS, DRILL_ZONE_MINUTES, MAX_WORKERS, SEARCH_SPAN,
};
pub use truth::{planned_culprit, planned_suspects, planned_verdict};
