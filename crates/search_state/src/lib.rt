//! One search of a farm, kept from report to report: what it believes, how far its verification is, and where it
//! stands.
//!
//! A [`SearchState`] takes the reports of its search one by one, with a verdict or as skips of trees that can't be
//! tested, and answers at once where the search stands, what a further report would do, and which run is due. Contracts
//! see it as the plain thing: the search's opening, the lists of the runs and of the reruns that counted, of the
//! positions that were skipped, and whether it went over its budget or was cancelled (`specs/SearchView`). It keeps
//! none of these lists, but one belief and one verification that stand for them, and a flag for each position that was
//! skipped, and takes no memory after its start. `specs/Seen` says what a history holds of a search, and
//! `proofs/Changes` and `AllStates` how appending an entry changes it.
//!
//! It stands on `farm_entry` for the types and the definitions, on `posterior`, `threshold_pick` and `farm_rules` for
//! the belief, the plan, the reruns and the run that is due, and on `farm_laws` for what they ask for.
#![tactic(auto)]

mod decided;
mod state;

pub use state::SearchState;
