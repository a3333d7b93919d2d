//! The whole program as one library call. `finder` runs the subcommand that the words name over the objects that it is
//! handed: its contract is the program's promise, whatever stands behind the objects.
//!
//! It stands on `finder_words` for the words, on `finder_commands` for what each subcommand does and for the statuses,
//! on `farm_serve` for the service of a farm over a network, on `link_io`, `worker_core` and `farm_disk` for
//! the traits of the outside, and on `file_disk`, `tcp_net` and `test_runners` for the adapters over the system.
//! `run_words` makes the real objects and calls `finder`; `run_process` does so for the process's words, writes the
//! status's line to standard error, and ends with the status's number: `main` of the program is that call alone.
#![tactic(auto)]

mod asked;
mod openings;
mod process;
mod program;
mod real_runner;
mod serve_command;
mod stand_ins;

pub use finder_commands::{MEMORY_DAILY, MEMORY_LEASE_MS, MEMORY_ZONE_MINUTES, Status};
pub use process::{run_process, run_words};
pub use program::finder;
