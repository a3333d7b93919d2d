//! Whether hypotheses that skipped positions alone part are at the bar together.

ghost use Rattle.std.specs.Prelude.{◌≡◌, ◌+◌, ◌*◌, ◌<◌, ◌≤◌, ◌^◌, length};
ghost use Rattle.flake_rate.specs.Bar.{bar_numerator, bar_denominator};
ghost use Rattle.weight_exact.specs.Share.{is_at_bar};
ghost use Rattle.weight_exact.specs.Steps.{CanCount};
ghost use Rattle.threshold_pick.specs.Sums.{suspects_in};
ghost use Rattle.threshold_pick.specs.Blocks.{CanHalve, is_hidden_in, middle_in, sum_upto};

use crate::Skips;
use flake_rate::Bar;
use std::marker::Brand;
use std::sync::ledger::{Blank, Ledger};
use weight_exact::{BASIS_POINTS, Steps, Sums};

/// Whether the hypotheses round the middle of the whole that no run can tell apart any more, as each position between
/// them was skipped, are at the bar together. A hypothesis that is at the bar alone is such a block as well.
///
/// It takes no memory. The middle is looked for by halves, and the block round it in the bits of the positions.
pub fn is_hidden(sums: &Sums, bar: Bar, skips: &Skips) -> bool
    requires { CanHalve sums.now }
    ensures { result ≡ is_hidden_in (bar_numerator bar) (bar_denominator bar) sums.now skips.now }
{
    is_hidden_on::<Brand>(sums, bar, skips, Blank::new(1))
}

/// The same on a counter of its own, which nobody reads.
fn is_hidden_on<L: Ledger>(sums: &Sums, bar: Bar, skips: &Skips, blank: Blank) -> bool
    requires blank { CanCount blank L.name L.parts }
    requires sums { CanHalve sums.now }
    ensures { result ≡ is_hidden_in (bar_numerator bar) (bar_denominator bar) sums.now skips.now }
{
    let mut steps = Steps::<L>::new(blank);
    let middle = middle(sums, &mut steps);
    let before = sum_to(sums, skips.last_below(middle), &mut steps);
    let upto = sum_to(
        sums,
        skips.first_at(middle, sums.suspects() as u16),
        &mut steps,
    );
    is_at_bar(bar, upto - before, sums.total())
}

/// Whether a part of a whole is at the bar.
fn is_at_bar(bar: Bar, part: u128, whole: u128) -> bool
    requires part { part ≤ whole }
    requires room { whole * BASIS_POINTS < 2 ^ 128 }
    ensures { result ≡ is_at_bar (bar_numerator bar) (bar_denominator bar) whole part }
{
    u128::from(bar.t()) * whole <= part * u128::from(bar.u())
}

/// The middle hypothesis: the first with at least half of the whole up to it.
fn middle<L: Ledger>(sums: &Sums, steps: &mut Steps<L>) -> u16
    requires { CanHalve sums.now }
    ensures middle { result ≡ middle_in sums.now }
    ensures first { 1 ≤ result }
    ensures last { result ≤ suspects_in sums.now + 1 }
{
    let whole = sums.total();
    let half = whole - whole / 2;
    let mut low = 1;
    let mut high = sums.suspects() as u16 + 1;
    while low < high {
        let hypothesis = low.midpoint(high);
        if half <= sums.at(usize::from(hypothesis), steps) {
            high = hypothesis;
        } else {
            low = hypothesis + 1;
        }
    }
    low
}

/// The sum of the hypotheses up to one, or of none.
fn sum_to<L: Ledger>(sums: &Sums, hypothesis: u16, steps: &mut Steps<L>) -> u128
    requires { hypothesis ≤ length sums.now }
    ensures { result ≡ sum_upto sums.now hypothesis }
{
    if hypothesis == 0 {
        0
    } else {
        sums.at(usize::from(hypothesis), steps)
    }
}
