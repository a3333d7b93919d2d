//! A client of HTTP: the bytes of a request, one response, read from the bytes that are held of a connection, a request
//! over a connection of its own and the response to it, and a request that is sent again where it is lost.
//!
//! [`get_request`] and [`post_request`] make a request's bytes. [`send`] sends a request until it is answered, three
//! times at most, and [`send_once`] once; both say what it was lost by ([`Lost`]). [`exchange`] connects, puts a
//! request, takes the response and gives the connection back, over any `Network`; [`take_response`] reads one response
//! of any source, however it is cut into pieces. None trusts the other end: what no whole response came of is told
//! apart by whether the connection failed or the other end is to blame (`specs/Responses`, `specs/Exchanges`,
//! `specs/Sending`). Where the network tells, a contract names each exchange by what it tells.
//!
//! [`read_response`] says what stands at the front of bytes: a whole response, an interim one to be left out, nothing
//! whole yet, or bytes that no further ones can make a response. A response is a head within the limits and a body of
//! just the length that its one Content-Length states; other fields aren't looked at (`specs/Whole.antt`). The heads
//! are read with `httparse`, by whose grammar the contracts speak, and hold for every continuation of the bytes
//! ([`laws`]). So a reader of a connection needs no more than [`ResponseProgress`] says.
//!
//! The crate stands on `httparse`, on `http_requests` for what fields say, on `http_words` for statuses and limits, on
//! `link_io` for connections, on `common_types` for the out-of-memory error, counts and a body as a list, and on `itoa`
//! for numbers. The layers above may use every name below.
#![tactic(auto)]

mod connection;
mod fields;
mod interim;
pub mod laws;
mod progress;
mod reading;
mod received;
mod request;
mod response;
mod sending;
mod status;

pub use connection::{Exchanged, exchange};
pub use interim::INTERIM_STATUS;
pub use progress::ResponseProgress;
pub use reading::read_response;
pub use request::{get_request, post_request};
pub use response::{Body, NoResponse, Response, take_response};
pub use sending::{Lost, MAX_TRIES, Sent, send, send_once};
pub use status::status_number;
