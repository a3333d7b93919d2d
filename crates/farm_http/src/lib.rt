//! The farm over HTTP: one connection served over any link, whatever the pieces its bytes come in.
//!
//! [`serve_link`] takes the bytes of a link, answers each request as soon as it is whole, and puts the answers in the
//! order of the requests. Commands that stand whole in the bytes held go to the farm together, as one batch at one
//! turn. What it came to is one clause, `Serves` of `connection_laws`.
//!
//! The crate stands on `http_requests` for what comes next of the bytes held, on `farm_wire` for commands in bodies and
//! the texts of answers, on `shared_farm` for turns and totals, on `http_answers` for statuses and bytes, on `link_io`
//! for links and clocks, and on `connection_laws` for what is held of a connection. The layers above may use every name
//! below.
#![tactic(auto)]

mod batch;
mod caller;
mod commands;
mod connection;
mod fault_answers;
mod front;
mod kept;
mod kept_bytes;
mod log_page;
mod received;
mod responses;
mod serve;
mod service;
mod told;

pub use caller::Caller;
pub use connection_laws::{ServeFault, Served, Why};
pub use http_requests::Pages;
pub use serve::serve_link;
pub use service::Service;
