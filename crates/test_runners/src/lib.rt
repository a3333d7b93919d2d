//! What a real worker reports of its tests: what a table says of them (`table:PATH`), or a test host that is asked over
//! connections of their own (`host:ADDRESS`). Either gives a verdict, or says that the tree can't be tested.
//! [`runner_named`] says which of them a word names, and [`TestRunner`] is either of them, as a `Runner`.
//!
//! Whatever is read here is a value: [`read_table`] makes a [`Table`] of a file's bytes, or says which line is outside
//! the form and why, and a host's question and answer are functions of their bytes (`specs/Host`). What a file or a
//! host of the outside holds or says, no contract says: the one who makes the runner reads the file, and the network
//! is handed in.
//!
//! The crate stands on `worker_core` for runners and what comes of a test, on `link_io` for connections, on
//! `http_exchange` for what is told of one connection, on `hex` and `memchr`, and on `farm_types` and `weight_exact`
//! for names, ids and verdicts. The layers above may use every name below.
#![tactic(auto)]

mod host;
mod index;
mod lines;
mod named;
mod row;
mod runner;
mod table;

pub use named::{RunnerName, runner_named};
pub use row::RowFault;
pub use runner::TestRunner;
pub use table::{Table, TableFault, read_table};
