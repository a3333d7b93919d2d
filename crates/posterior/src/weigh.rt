//! The walk over all hypotheses that makes the sums anew from the counts.

ghost use Rattle.std.specs.Prelude.{◌≡◌, ◌+◌, ◌-◌, ◌*◌, ◌<◌, ◌≤◌, ◌^◌, ℕ, Some, None, length, vec_len, sum, slice_index, if◌then◌else◌};
ghost use Rattle.std.specs.Bool.{OnTrue};
ghost use Rattle.weight_exact.specs.Cumulative.{AreSumsOf};
ghost use Rattle.weight_exact.specs.Powers.{product, count_of};
ghost use Rattle.weight_exact.specs.Steps.{CanCount};
ghost use Rattle.posterior.specs.Middle.{reaching};
ghost use Rattle.posterior.specs.Walk.{CanWalk, tallied_weight};

use crate::tallies::Tallies;
use crate::weighed::Weighed;
use flake_rate::Bar;
use std::marker::Brand;
use std::sync::ledger::{Blank, Ledger};
use weight_exact::{Counts, Powers, Steps, Sums};

/// The weight of a hypothesis: nothing up to the floor, and above it the prior times the numbers of the counted runs.
fn weight_of<L: Ledger>(
    powers: &Powers,
    prior: u32,
    cleared: bool,
    counts: Counts,
    steps: &mut Steps<L>,
) -> u128
    requires together { count_of counts ≤ powers.now.budget }
    requires fits { product powers.now.factors prior counts < 2 ^ 128 }
    ensures value { result ≡ (if cleared then 0 else product powers.now.factors prior counts) }
    ensures cost { steps.new ≤ steps.old + 1 }
    ensures rises { steps.old ≤ steps.new }
{
    if cleared {
        0
    } else if is_empty(counts) {
        u128::from(prior)
    } else {
        powers.times(u128::from(prior), counts, steps)
    }
}

/// Whether no run is counted, so that each likelihood number has the power 1.
fn is_empty(counts: Counts) -> bool
    ensures { OnTrue result (counts ≡ record { fail_in = 0; fail_out = 0; pass_in = 0; pass_out = 0 }) }
{
    counts.fail_in == 0 && counts.fail_out == 0 && counts.pass_in == 0 && counts.pass_out == 0
}

/// How many are counted at an index, of which the last hypothesis has none.
fn count_in(counts: &[u8], index: usize) -> u32
    ensures { result ≡ slice_index counts.now index }
{
    u32::from(counts.get(index).copied().unwrap_or(0))
}

/// The counts for the next hypothesis: the runs at the position just passed had its culprit out.
fn past(counts: Counts, fails: u32, passes: u32) -> Counts
    requires fails { fails ≤ counts.fail_in }
    requires passes { passes ≤ counts.pass_in }
    requires few { count_of counts < 2 ^ 32 }
    ensures { result ≡ record {
      fail_in = counts.fail_in - fails;
      fail_out = counts.fail_out + fails;
      pass_in = counts.pass_in - passes;
      pass_out = counts.pass_out + passes;
    } }
{
    Counts {
        fail_in: counts.fail_in - fails,
        fail_out: counts.fail_out + fails,
        pass_in: counts.pass_in - passes,
        pass_out: counts.pass_out + passes,
    }
}

/// Makes the sums anew from the counts, in one walk over the hypotheses, and says which one reaches the bar.
pub fn weigh<L: Ledger>(
    priors: &[u32],
    bar: Bar,
    powers: &Powers,
    tallies: &Tallies,
    sums: &mut Sums,
    steps: &mut Steps<L>,
) -> Option<u16>
    requires walk { CanWalk priors.now powers.now tallies.now sums.old }
    ensures length { length sums.new ≡ length sums.old }
    ensures sums { AreSumsOf (tallied_weight priors.now powers.now.factors tallies.now) sums.new }
    ensures reached { result ≡ reaching bar (tallied_weight priors.now powers.now.factors tallies.now) sums.new }
    ensures cost { steps.new ≤ steps.old + 2 * length priors.now }
    ensures rises { steps.old ≤ steps.new }
{
    let mut counts = Counts {
        fail_in: tallies.failed,
        fail_out: 0,
        pass_in: tallies.passed,
        pass_out: 0,
    };
    let mut heaviest = Weighed {
        hypothesis: 0,
        weight: 0,
    };
    let mut whole = 0;
    for index in 0..priors.len() {
        let cleared = index + 1 <= tallies.floor as usize;
        let weight = weight_of(powers, priors[index], cleared, counts, steps);
        whole += weight;
        sums.set(index + 1, whole, steps);
        heaviest = heaviest.or(index as u16 + 1, weight);
        counts = past(
            counts,
            count_in(&tallies.fails, index),
            count_in(&tallies.passes, index),
        );
    }
    heaviest.at_bar(bar, whole)
}

/// The same for a caller that counts no steps.
pub fn weigh_uncounted(
    priors: &[u32],
    bar: Bar,
    powers: &Powers,
    tallies: &Tallies,
    sums: &mut Sums,
) -> Option<u16>
    requires walk { CanWalk priors.now powers.now tallies.now sums.old }
    ensures length { length sums.new ≡ length sums.old }
    ensures sums { AreSumsOf (tallied_weight priors.now powers.now.factors tallies.now) sums.new }
    ensures reached { result ≡ reaching bar (tallied_weight priors.now powers.now.factors tallies.now) sums.new }
{
    weigh_on::<Brand>(priors, bar, powers, tallies, sums, Blank::new(1))
}

/// The same on a counter of its own, that nobody reads.
fn weigh_on<L: Ledger>(
    priors: &[u32],
    bar: Bar,
    powers: &Powers,
    tallies: &Tallies,
    sums: &mut Sums,
    blank: Blank,
) -> Option<u16>
    requires blank { CanCount blank L.name L.parts }
    requires walk { CanWalk priors.now powers.now tallies.now sums.old }
    ensures length { length sums.new ≡ length sums.old }
    ensures sums { AreSumsOf (tallied_weight priors.now powers.now.factors tallies.now) sums.new }
    ensures reached { result ≡ reaching bar (tallied_weight priors.now powers.now.factors tallies.now) sums.new }
{
    let mut steps = Steps::<L>::new(blank);
    weigh(priors, bar, powers, tallies, sums, &mut steps)
}
