//! The suspects of a search in commit order, over a base that is trusted: which commits may hold the culprit, how
//! suspicious each is before any test ran, and how likely it is that none of them is the culprit.
//!
//! The crate stands on `farm_types` for ids and the out-of-memory error, on `weight_exact` for the limits within which
//! a search can be judged exactly, and on `thiserror` for the texts of its refusals. A [`SuspectRange`] is made by the
//! one call that tests its limits, so the layers above take its commits as different and its weights as in range. They
//! may use every name below. Contracts see a range as a `RangeView` of `specs/`, and say by `range_fault` why a list
//! of suspects is refused. Their proofs may cite the lemmas of `proofs/Legal` (a range has no fault, and its weights
//! are priors) and `proofs/SameContents` (`==` tells what ranges hold).
#![tactic(auto)]

mod fault;
pub mod laws;
mod marks;
mod range;
mod suspect;

pub use fault::RangeFault;
pub use range::SuspectRange;
pub use suspect::Suspect;
