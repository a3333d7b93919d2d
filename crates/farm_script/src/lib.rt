//! A script of commands, and its run: lines come in, each is answered as soon as it is whole, and its reply line goes
//! out before more is taken.
//!
//! What a script gives is a definition: `text_of` and `history_of` of `specs/Script` make of a rule, a history and some
//! lines the text of all replies and the history after them, and `farm_rule` of `specs/FarmRule` is the rule by which a
//! farm answers a line. [`run_script`] runs a script over any [`ScriptFarm`], whatever stands behind it, and its
//! contract says for every way to end which lines were answered and which bytes were put; [`run_founded`] does so over
//! a farm in memory that it founds.
//!
//! [`shown_text`] is what the farm of a store shows of itself: its own page, and that of each search.
//!
//! Wherever a script ends, the history that it leaves begins with the one that it was run from (`Grows`), and is legal
//! where that one was (`scripts_leave_legal_histories`). A line has at most `MAX_COMMAND_BYTES` bytes: a longer one is
//! refused by what is held of it, and the run goes on. A script has fewer than `INPUT_LIMIT` bytes, 2^30.
//!
//! It stands on `farm_core` for the farm in memory, on `farm_store` for one whose history stands on a disk, on
//! `farm_wire` for what a line says and the text of the answer to it, on `farm_journal` for a fault of the disk, on
//! `link_io` for the input and the output, on `memchr`, and on the crates of the farm's values and definitions. The
//! layer above may use every name below.
#![tactic(auto)]

mod answer_line;
mod answer_piece;
mod founded;
mod held_line;
pub mod laws;
mod memory_farm;
mod run_end;
mod script_farm;
mod script_run;
mod shown;
mod store_farm;

pub use founded::run_founded;
pub use run_end::RunEnd;
pub use script_farm::ScriptFarm;
pub use script_run::run_script;
pub use shown::shown_text;
