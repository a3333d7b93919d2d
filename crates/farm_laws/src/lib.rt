//! Laws of farms: what holds of every legal history by the definitions of `farm_entry`, each law the contract of a call
//! that does nothing.
//!
//! Among the laws: a legal history grows entry by entry (`legal_histories_grow_by_entries`); each entry that a command
//! made has a reply, which stays the same (`replies_stay`); a search that has ended stays as it ended
//! (`ends_are_final`). Those that need more than these lemmas stand in `leaf_laws`, on which no code stands.
//!
//! The crate stands on `farm_entry` for the types and the definitions, and on the crates below it for their laws. The
//! layers above cite its lemmas, of which these serve most: `Induct` (a legal history grows entry by entry),
//! `Recorded` (what is decided can be recorded), `Beliefs` (what a history gives to the belief of a search, and the
//! belief to the picks), `Bounds`, `CarriedOver` (orders that were carried over stand first), `Closings`, `Counting`
//! and `OneMore` (what appending an entry changes), `InRange`, `Loads`, `OpenLimits`, `Opened`, `ReplyDays`,
//! `RunSteps` and `Standings`; those on lists alone stand in `Lists`. `Stepped` says of each kind of entry what holds
//! when it is added, and the laws that say something new begin there. The words that laws are said in and definitions
//! are not stand in `specs`.
#![tactic(auto)]

pub mod decisions;
pub mod histories;
pub mod searches;
pub mod values;
