//! A worker: it leases runs of a farm over a network that may lose any request, runs their tests, and reports what came
//! of them, until the farm has no run to hand out, or it took as many leases as it was to take.
//!
//! [`work`] does what `WorkerCore` of `worker_core` decides, step by step: it draws keys, sends each request over a
//! connection of its own, and asks a runner for what tests say. Its contract names the steps by what the network, the
//! runner and the source of keys tell (`specs/Steps`, `specs/Work`), so the laws of workers hold of it.
//!
//! What a worker sends are two requests as bytes of HTTP ([`lease_request`], [`report_request`]; `specs/Requests`). A
//! key is sent as `uuid` writes it, a number as `itoa` does. What it reads are the bodies of a farm's answers, which
//! tell a lease's run, its test and its commit, that there is no run, or that the farm is closed: by `lease_reading`,
//! `tells_no_run` and `tells_closed` of `specs/Answers`, over the value that `serde_json` reads.
//!
//! The crate stands on `worker_core` for what a worker does, with its runner and its keys, on `farm_wire` for the forms
//! of members in JSON (`specs/Forms`) and for which text is an object (`specs/Reading`), on `http_exchange` for a
//! request, its bytes and its response, on `http_words` for statuses, on `link_io` for networks, on `farm_types` for
//! names and ids, and on `serde_json` for JSON. The layers above may use every name below.
#![tactic(auto)]

mod agent;
mod answer;
mod body;
mod lines;
mod members;
mod object;
mod reply;
mod request;
mod worked;

pub use answer::{AnswerFault, LeaseAnswer, is_closed, is_no_run, lease_of};
pub use request::{lease_request, report_request};
pub use worked::{WorkFault, Worked, work};
