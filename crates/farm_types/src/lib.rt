//! The small values of the farm, each of which holds exactly what was read: ids of commits, names, moments in time,
//! keys of requests, the stage of a run. The limits of time zones and of days stand here too, for the layers above that
//! share them, and the out-of-memory error is handed on.
//!
//! The crate stands on `common_types` for the out-of-memory error, on `hex` for digits and on `thiserror` for the texts
//! of its refusals, and on nothing of the farm. A value is made by the one call that tests its limits, so the layers
//! above take it as legal and test nothing again. They may use every name below. What a value holds is seen through
//! `id_bytes` and `moment_ms` of `specs/`, and a name is seen as the list of its bytes; why a text is refused is said
//! by `id_fault` and `name_fault`. Their proofs may cite the lemmas of `proofs/SameValues` (values that show the same
//! are equal), `proofs/Limits` (what the test of a moment tells), `proofs/NameTexts` and `proofs/FirstIndex` (the first
//! index at which a test passes).
#![tactic(auto)]

mod commit_id;
mod id_digits;
mod key;
pub mod laws;
mod moment;
mod name;
mod stage;
mod zone;

pub use commit_id::{CommitId, ID_BYTES, ID_DIGITS, IdFault};
pub use common_types::Memory;
pub use key::Key;
pub use moment::{LAST_DAY, MOMENT_MAX_MS, MOMENT_MIN_MS, Moment, MomentFault};
pub use name::{NAME_FIRST_BYTE, NAME_LAST_BYTE, NAME_MAX_BYTES, Name, NameFault};
pub use stage::Stage;
pub use zone::{ZONE_MAX_MINUTES, ZONE_MIN_MINUTES};
