//! Exact Bayesian inference over whole numbers: the definitions, and the arithmetic that computes them.
//!
//! A search has n suspects, the hypotheses 1 to n, and the hypothesis n + 1 that there is no culprit, only a flake.
//! `specs/` holds the inference's definitions over plain lists of runs: priors, the likelihood of a run, weights,
//! shares, the bar, floor and load, the budget and the plan. Here stands the exact arithmetic that the belief of a
//! search is computed with: `budget`, `Powers`, `Sums` and the counter `Steps`. The laws of the definitions stand in
//! `leaf_laws`. It stands on `flake_rate` and `common_types`.
//!
//! The layer above may cite every definition, takes products from `times` alone, and may cite the lemmas of `proofs/`,
//! by topic: `FactorNumbers` and `Likelihoods` (the four numbers), `Floors` (floor and load), `SumTo` and `Reweighed`
//! (cumulative sums), `Cancels`, `Shares` (the bar), `Plans`, `Priors`, `Budgets` and `Powering`.
#![tactic(auto)]

mod factors;
mod limits;
mod power_table;
mod powers;
mod run;
mod run_budget;
mod steps;
mod sums;

pub use common_types::Memory;
pub use factors::{Factors, MAX_FACTOR};
pub use limits::{BASIS_POINTS, MAX_CALM, MAX_SUSPECTS, MAX_WEIGHT, MAX_WIDTH};
pub use powers::{Counts, Powers};
pub use run::{Run, Verdict};
pub use run_budget::{MAX_BUDGET, MAX_PRIOR_TOTAL, MIN_BUDGET, MIN_PRIOR_TOTAL, budget};
pub use steps::Steps;
pub use sums::Sums;
