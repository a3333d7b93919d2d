//! What a farm of searches is told, records and answers: its settings, the entries of its history, the commands that
//! it takes, and the replies and refusals that it gives; and the definitions of the farm, which say what each command
//! comes to at each history, and which histories are legal.
//!
//! The crate stands on `farm_types`, `flake_rate`, `suspect_range` and `weight_exact` for the values that these hold,
//! on `common_types` for its lists, on `farm_rules` for the rules that its definitions are made of, and on `thiserror`
//! for the texts of its refusals. The types are plain: their fields are public, and what is legal is said of whole
//! histories. The layers above may use every name below. Contracts see lists and the opening of a search as what they
//! hold, see settings through `settings_lease_ms`, `settings_daily` and `settings_zone_minutes` of `specs/`, and say by
//! `settings_fault` why numbers are no settings.
//!
//! The definitions stand in `specs/`, to be read in this order: `Ask` (the search that a request asks for), `Setup`
//! (from an opening to its weights), `History` (what a list of entries holds), `Standing`, `Due`, `Orders`, `RunPages`,
//! `SearchLines`, `Pages`, `Reply`, `Decision`, `Answer`, `Closing` (when a farm may be closed, and what it may carry
//! over), `Legal` and `Playing` (what becomes of a history as commands are decided). They compute. Their laws stand in
//! crates above this one, `farm_laws` and `leaf_laws`, which has farms that are played by evaluating them too. The
//! layers above may cite the lemmas of `proofs/Growing` (what a history holds after appending an entry, and its last
//! moment), `proofs/Asked` (what is made of the numbers of an ask) and `proofs/SameSettings`.
#![tactic(auto)]

mod answer;
mod ask;
mod command;
mod decision;
mod entry;
mod holding;
mod inference;
mod lease;
mod limits;
mod moments;
mod naming;
mod opening;
mod order_page;
mod refusal;
mod reply;
mod run_page;
mod search_list;
mod settings;
mod standing;
mod states;

pub use answer::Answer;
pub use command::{Command, OpenAsk, Suspects};
pub use decision::Decision;
pub use entry::{Entry, Fate, SkipFate, What};
pub use lease::{DueRun, LeasedRun, ReportedRun, SkippedRun};
pub use limits::{MAX_CARRIED, MAX_ENTRIES, MAX_RERUNS, MAX_SEARCHES, PAGE_LINES};
pub use moments::{last_moment, later, moment_used};
pub use opening::{BoxedOpening, Opening};
pub use order_page::{OrderLine, OrderPage};
pub use refusal::{OpenFault, Refusal};
pub use reply::{Positions, Reply, SearchPage, Shares, Totals};
pub use run_page::{RunLine, RunOutcome, RunPage, RunReport};
pub use search_list::{SearchLine, SearchList};
pub use settings::{LEASE_MAX_MS, LEASE_MIN_MS, MAX_DAILY, Settings, SettingsFault};
pub use standing::Standing;
