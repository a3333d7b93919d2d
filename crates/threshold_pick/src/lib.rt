//! Where to run next: the positions at which the cumulative weight of the suspects is nearest to evenly spaced
//! thresholds, among those at which a run can still be made.
//!
//! A search that may have k runs at once cuts what it believes into k + 1 parts, as near to equal as whole suspects
//! allow: bisection, with the quantiles of the posterior for the middle. [`pick`] finds one such position by halves,
//! and [`plan_into`] all k; [`pick_uncounted`] and [`plan_uncounted`] are for a caller that counts no steps. They stand
//! on `weight_exact`: they read its `Sums`, count on its `Steps`, and meet its definition of the plan. The layer above
//! passes the sums and the floor of a belief. By the laws the positions are then the plan of the runs that the belief
//! stands for.
//!
//! Each picked position is the nearest to its threshold above the floor, the smaller one on a tie, and is found in at
//! most log2(8n) steps for n suspects.
//!
//! A tree may not build, or the test may not exist in it. Its position is skipped then: the plan of the search is made
//! of the other positions, those that are open. [`Skips`] keeps which positions were skipped, by a bit for each, and
//! contracts see them as a list in the order in which they were skipped. [`open_pick`] picks among the open positions,
//! and [`is_hidden`] says when skipped positions alone part hypotheses that are at the bar together.
//!
//! The crate stands on `weight_exact`, whose thresholds and weights the definitions speak of, on `flake_rate` for the
//! bar, and on `common_types` for what contracts alone see. The layers above may cite every definition of specs/: the
//! plan over open positions (`Open`), what the nearest of them is (`Nearest`), and when hypotheses that no run can tell
//! apart any more are at the bar together (`HiddenBlocks`). Their proofs may cite the lemmas of `proofs/Nearest` and
//! `proofs/Firsts`.
//!
//! The laws: picks are the plan ([`laws`]); with nothing skipped the plan over open positions is that of all
//! (`with_nothing_skipped` of [`open_laws`]); it has as many positions as its width or none, each the nearest of those
//! that are open (`open_plan_is_nearest`); the block round the middle of the weight tells whether skipped positions
//! hide a hypothesis at the bar (`the_middle_block_tells`).
#![tactic(auto)]

mod hidden;
pub mod laws;
pub mod open_laws;
mod open_picks;
mod picks;
mod skips;
mod threshold;

pub use hidden::is_hidden;
pub use open_picks::{open_pick, open_pick_uncounted};
pub use picks::{pick, pick_uncounted, plan_into, plan_uncounted};
pub use skips::Skips;
pub use weight_exact::Memory;
