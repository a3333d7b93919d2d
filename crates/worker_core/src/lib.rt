//! What a worker does next: it draws a key, asks the farm for a run, runs the test, reports what came of it, and begins
//! anew, over a network that may lose each request. And what it asks of the outside beside its connections: a `Runner`
//! runs a test at a commit and says whether it passed, or that the tree can't be tested, and a `KeySource` gives the
//! keys by which a request that is sent again is known again.
//!
//! [`WorkerCore`] only decides, and takes no memory. Whoever drives it does what an [`Action`] says, and tells it by an
//! [`Event`] what came of that. Each step is the definition `core_step` (`specs/Steps.antt`), by which the laws of
//! workers and farm are said too.
//!
//! The contracts of a runner and of a source of keys say what is told of their answers, and that each failure is
//! counted. `ListRunner` and `ListKeys` answer by a list and tell all that they did. `RandomKeys` is the trusted edge:
//! no contract says that its keys differ from those of others.
//!
//! The crate stands on `farm_types` for names, commits and keys, on `weight_exact` for verdicts, on `link_io` for
//! counts and for the calls that are to fail, on `common_types` for what is told without a byte of memory, and on
//! `rand_chacha` with `rand_core` for keys. The layers above may use every name below, and cite `specs/` and `add_told`
//! of `link_io`.
#![tactic(auto)]

mod action;
mod event;
mod keys;
pub mod laws;
mod list_keys;
mod list_runner;
mod random_keys;
mod runner;
mod tested;
mod worker;

pub use action::{Action, End};
pub use event::Event;
pub use keys::KeySource;
pub use list_keys::ListKeys;
pub use list_runner::ListRunner;
pub use random_keys::RandomKeys;
pub use runner::{Ran, Runner};
pub use tested::Tested;
pub use worker::{MAX_TRIES, WorkerCore};
