//! The words that the program is called with: which subcommand they name, with its numbers, and which journal, address
//! and runner.
//!
//! `asked` of `specs/Words` says what a list of words asks for, if it asks for anything; [`read_subcommand`] reads just
//! that, and [`read_places`] gives what they name outside. A word that is empty or begins with a dash asks for nothing,
//! and neither do words of which one is missing or one too many, or in which a number is out of its range.
//!
//! The words are matched by `clap` against the commands that there are. `fits` of `specs/Forms` says which words are
//! taken: none of them is empty or begins with a dash, the first is the name of a command of the table there, and as
//! many follow as that command takes. [`match_words`] gives just those back, each under the name of what it stands for;
//! what a number, a zone or a name is, [`read_subcommand`] reads.
//!
//! The crate stands on `clap`, on `common_types` for numbers and the out-of-memory error, on `farm_entry` for the
//! settings of a farm and their limits, on `drill_plan` for the most workers of a drill, and on `farm_types`. The layer
//! above may use every name below.
#![tactic(auto)]

mod command_line;
mod counts;
mod matched;
mod matching;
mod places;
mod subcommand;

pub use counts::{MAX_HANDLERS, MAX_LINKS, MAX_NUMBER, MAX_ROUNDS, MAX_RUNS};
pub use matched::Matched;
pub use matching::match_words;
pub use places::{Places, read_places};
pub use subcommand::{Subcommand, read_subcommand};
