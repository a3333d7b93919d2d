//! The judge: it answers the lines of one search, what becomes of each run, the shares of the hypotheses, and where the
//! search stands.
//!
//! `specs/` says it whole, from bytes to bytes: lines and words (`Text`), the form of an input (`Form`), the fate of
//! each run line (`Fates`) and the text of the answer (`Answer`), over the definitions of the inference in
//! `weight_exact`. The code reads the input once and keeps a `posterior::Belief` in place of the runs; limits are those
//! of `flake_rate` and `weight_exact`, numbers in text are read by `common_types`, and line feeds are found by
//! `memchr`. The layer above may use [`judge`], whose contract is that definition, read lines and words by [`Lines`]
//! and [`Words`], and cite the laws over the definition ([`laws`]).
#![tactic(auto)]

mod answer;
mod fate;
mod fault;
pub mod laws;
mod lines;
mod miss;
mod opening;
mod report;
mod run_line;
mod search;
mod standing;
mod trial;
mod words;

pub use answer::judge;
pub use fate::JudgeFate;
pub use fault::JudgeFault;
pub use lines::{Line, Lines};
pub use run_line::RunLine;
pub use standing::JudgeStanding;
pub use words::Words;
