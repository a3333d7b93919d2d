//! What each subcommand of the program does, but for `serve`: a public module for each, with the call of its name, over
//! the objects that it is handed, which answers how the program ends. `specs/` has a module for each command: what is
//! said of every way to end, and that its work is done where nothing fails.
//!
//! [`Status`] is how a call of the program ended, with the number of the process's exit and the line for standard
//! error; [`status_of_opening`] is that of a journal which is not opened. No command starts a thread but a drill.
//!
//! The crate stands on `judge`, `audit_check`, `rates_report`, `search_evidence`, `farm_handover` and `farm_script` for
//! the answers, on `farm_drill` for drills, on `worker_agent` and `journal_follow` for workers and followers, on
//! `farm_store` for a farm whose history is on a disk, and on `outside_seen`, `link_io`, `net_io`, `worker_io` and
//! `farm_disk` for the traits of the outside and for what is seen of them. The layer above may use those calls and the
//! names below.
#![tactic(auto)]

pub mod audit_command;
pub mod close_command;
pub mod drill_command;
pub mod evidence_command;
pub mod follow_command;
pub mod found_command;
pub mod inherit_command;
pub mod judge_command;
mod memory_farm;
mod opening;
mod put_text;
pub mod rates_command;
mod read_input;
pub mod run_command;
pub mod run_journal;
pub mod show_command;
mod status;
pub mod work_command;

pub use memory_farm::{MEMORY_DAILY, MEMORY_LEASE_MS, MEMORY_ZONE_MINUTES};
pub use opening::status_of_opening;
pub use status::Status;
