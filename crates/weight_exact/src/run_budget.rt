//! The budget of a search: what load fits 128 bits.

ghost use Rattle.std.specs.Prelude.{◌≡◌, ℕ, ◌*◌, ◌^◌, ◌<◌, ◌≤◌};
ghost use Rattle.flake_rate.specs.Miss.{FitsRate};
ghost use Rattle.weight_exact.specs.Budget.{Fits, budget_of};
ghost use Rattle.weight_exact.specs.Factors.{factors_of};

use crate::factors::Factors;
use crate::limits::{BASIS_POINTS, MAX_CALM, MAX_SUSPECTS, MAX_WEIGHT};
use flake_rate::{Miss, Rate};

/// The least total of the priors of a search: one suspect of weight 1, and a calm weight of 1.
pub const MIN_PRIOR_TOTAL: u64 = 2;

/// The greatest total of the priors of a search: of as many suspects as there may be, each of the greatest weight, and
/// of the greatest calm weight.
pub const MAX_PRIOR_TOTAL: u64 = MAX_SUSPECTS as u64 * MAX_WEIGHT as u64 + MAX_CALM as u64;

/// The least budget that a search has, whatever its priors and its rates.
pub const MIN_BUDGET: u32 = 5;

/// The greatest budget that a search has, whatever its priors and its rates.
pub const MAX_BUDGET: u32 = 113;

/// The budget of a search, which bounds its load: the greatest number for which the total of the priors, times the
/// greatest likelihood number to this power, in basis points, is below 2^128. While the load is at most the budget, no
/// weight, sum or share leaves 128 bits. A search may count more runs than that, since not every run adds to its load.
///
/// `prior_total` is the total of the priors, calm included.
pub fn budget(prior_total: u64, rate: Rate, miss: Miss) -> u32
    requires at_least { MIN_PRIOR_TOTAL ≤ prior_total }
    requires at_most { prior_total ≤ MAX_PRIOR_TOTAL }
    requires told { FitsRate miss rate }

    ensures fits { Fits prior_total (factors_of rate miss) result }
    ensures greatest { (more : ℕ) → Fits prior_total (factors_of rate miss) more → more ≤ result }
    ensures value { result ≡ budget_of prior_total (factors_of rate miss) }

    // Where it lies, whatever the total and the two rates.
    ensures lowest { MIN_BUDGET ≤ result }
    ensures highest { result ≤ MAX_BUDGET }
{
    let greatest = Factors::of(rate, miss).greatest();
    let room = u128::MAX / (u128::from(prior_total) * BASIS_POINTS);
    logarithm(room, greatest)
}

/// The greatest exponent to which a base has a power of at most `room`. It divides once, where `ilog` would for each
/// exponent.
fn logarithm(room: u128, base: u32) -> u32
    requires some { 1 ≤ room }
    requires two { 2 ≤ base }
    ensures power_le { base ^ result ≤ room }
    ensures next_power_gt { room < base * base ^ result }
{
    let factor = u128::from(base);
    let most = room / factor;
    let mut exponent = 0;
    let mut power = 1;
    while power <= most {
        power *= factor;
        exponent += 1;
    }
    exponent
}
