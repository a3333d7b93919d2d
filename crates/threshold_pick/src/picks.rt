//! The positions to run next.

ghost use Rattle.std.specs.Prelude.{◌≡◌, ℕ, ◌+◌, ◌-◌, ◌*◌, ◌<◌, ◌≤◌, ◌^◌, length};
ghost use Rattle.weight_exact.specs.Steps.{CanCount};
ghost use Rattle.weight_exact.specs.declared.limits.TheConstants.{MAX_WIDTH};
ghost use Rattle.threshold_pick.specs.CanPick.{CanPick};
ghost use Rattle.threshold_pick.specs.Sums.{sum_at, suspects_in, whole};
ghost use Rattle.threshold_pick.specs.Picks.{IsPick, ArePicks};

use crate::threshold::Threshold;
use std::marker::Brand;
use std::sync::ledger::{Blank, Ledger};
use weight_exact::{Steps, Sums};

/// The `j`-th of `k` positions to run next: of the suspects above the floor the one whose cumulative weight is nearest
/// to `j` parts in `k` + 1 of the whole, and the smaller one on a tie.
///
/// It takes no memory, and searches by halves: it reads at most two sums more than the number of suspects has binary
/// digits. Each read is a step.
pub fn pick<L: Ledger>(sums: &Sums, floor: u16, j: u8, k: u8, steps: &mut Steps<L>) -> u16
    requires sums { CanPick floor sums.now }
    requires first { 1 ≤ j }
    requires last { j ≤ k }
    requires narrow { k ≤ MAX_WIDTH }

    ensures nearest { IsPick sums.now floor j k result }
    ensures cost { 2 ^ (steps.new - steps.old) ≤ 8 * suspects_in sums.now }
    ensures counted { steps.old ≤ steps.new }
{
    let threshold = Threshold::of(sums, j, k);
    let reaching = first_reaching(sums, floor, threshold, steps);
    if reaching == floor + 1 {
        return reaching;
    }
    let before = threshold.distance(sums.at(usize::from(reaching) - 1, steps));
    let here = threshold.distance(sums.at(usize::from(reaching), steps));
    if before <= here {
        reaching - 1
    } else {
        reaching
    }
}

/// The first position above the floor whose sum reaches the threshold, or the last position, where none before it does.
pub(crate) fn first_reaching<L: Ledger>(
    sums: &Sums,
    floor: u16,
    threshold: Threshold,
    steps: &mut Steps<L>,
) -> u16
    requires sums { CanPick floor sums.now }
    requires room { whole sums.now * threshold.parts < 2 ^ 128 }

    ensures above { floor < result }
    ensures within { result ≤ suspects_in sums.now }
    ensures before { (i : ℕ) → floor < i → i < result → sum_at sums.now i * threshold.parts < threshold.mark }
    ensures from { (i : ℕ) → result ≤ i → i < suspects_in sums.now
        → threshold.mark ≤ sum_at sums.now i * threshold.parts }
    ensures cost { 2 ^ (steps.new - steps.old) ≤ 2 * suspects_in sums.now }
    ensures counted { steps.old ≤ steps.new }
{
    let mut low = floor + 1;
    let mut high = sums.suspects() as u16;
    while low < high {
        let middle = low.midpoint(high);
        if threshold.is_reached_by(sums.at(usize::from(middle), steps)) {
            high = middle;
        } else {
            low = middle + 1;
        }
    }
    low
}

/// Writes the plan of width `k`: all `k` positions to run next, in order. A position may stand in it several times.
///
/// It takes no memory, and at most `k` times the steps that one [`pick`] may take.
pub fn plan_into<L: Ledger>(sums: &Sums, floor: u16, k: u8, out: &mut [u16], steps: &mut Steps<L>)
    requires sums { CanPick floor sums.now }
    requires narrow { k ≤ MAX_WIDTH }
    requires width { length out.old ≡ k }

    ensures picks { ArePicks sums.now floor k out.new }
    ensures cost { 2 ^ (steps.new - steps.old) ≤ (8 * suspects_in sums.now) ^ k }
    ensures counted { steps.old ≤ steps.new }
{
    for index in 0..k {
        out[usize::from(index)] = pick(sums, floor, index + 1, k, steps);
    }
}

/// The plan of width `k` for a caller that counts no steps.
pub fn plan_uncounted(sums: &Sums, floor: u16, k: u8, out: &mut [u16])
    requires sums { CanPick floor sums.now }
    requires narrow { k ≤ MAX_WIDTH }
    requires width { length out.old ≡ k }
    ensures { ArePicks sums.now floor k out.new }
{
    plan_on::<Brand>(sums, floor, k, out, Blank::new(1));
}

/// The same on a counter of its own, which nobody reads.
fn plan_on<L: Ledger>(sums: &Sums, floor: u16, k: u8, out: &mut [u16], blank: Blank)
    requires blank { CanCount blank L.name L.parts }
    requires sums { CanPick floor sums.now }
    requires narrow { k ≤ MAX_WIDTH }
    requires width { length out.old ≡ k }
    ensures { ArePicks sums.now floor k out.new }
{
    plan_into(sums, floor, k, out, &mut Steps::<L>::new(blank));
}

/// One [`pick`] for a caller that counts no steps.
pub fn pick_uncounted(sums: &Sums, floor: u16, j: u8, k: u8) -> u16
    requires sums { CanPick floor sums.now }
    requires first { 1 ≤ j }
    requires last { j ≤ k }
    requires narrow { k ≤ MAX_WIDTH }
    ensures { IsPick sums.now floor j k result }
{
    pick_on::<Brand>(sums, floor, j, k, Blank::new(1))
}

/// The same on a counter of its own, which nobody reads.
fn pick_on<L: Ledger>(sums: &Sums, floor: u16, j: u8, k: u8, blank: Blank) -> u16
    requires blank { CanCount blank L.name L.parts }
    requires sums { CanPick floor sums.now }
    requires first { 1 ≤ j }
    requires last { j ≤ k }
    requires narrow { k ≤ MAX_WIDTH }
    ensures { IsPick sums.now floor j k result }
{
    pick(sums, floor, j, k, &mut Steps::<L>::new(blank))
}
