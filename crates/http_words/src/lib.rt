//! The words of HTTP as this service speaks it: what requests ask for, by which faults they are answered, the statuses
//! of answers, and how much of a message is taken.
//!
//! The crate stands on the standard library alone, and nothing in it runs. The layers above may use every name below.
//! So the readers of commands (`farm_wire`), the table of paths (`http_requests`), the readers of messages and the
//! writer of answers speak of the same routes, faults and limits, and none of them stands on another for it.
#![tactic(auto)]

mod endpoint;
mod fault;
mod limits;
mod route;
mod status_code;

pub use endpoint::Endpoint;
pub use fault::{Allow, Fault, PathField};
pub use limits::{MAX_BODY_BYTES, MAX_FIELDS, MAX_HEAD_BYTES};
pub use route::Route;
pub use status_code::StatusCode;
