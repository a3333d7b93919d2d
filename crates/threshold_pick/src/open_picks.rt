//! The positions to run next, where some were skipped.

ghost use Rattle.std.specs.Prelude.{◌≡◌, ◌-◌, ◌*◌, ◌≤◌, ◌^◌};
ghost use Rattle.weight_exact.specs.Steps.{CanCount};
ghost use Rattle.weight_exact.specs.declared.limits.TheConstants.{MAX_WIDTH};
ghost use Rattle.threshold_pick.specs.CanPick.{CanPick};
ghost use Rattle.threshold_pick.specs.Sums.{suspects_in};
ghost use Rattle.threshold_pick.specs.Picks.{open_pick_in};

use crate::Skips;
use crate::picks::{first_reaching, pick};
use crate::threshold::Threshold;
use std::marker::Brand;
use std::sync::ledger::{Blank, Ledger};
use weight_exact::{Steps, Sums};

/// The `j`-th of `k` positions to run next: of the suspects above the floor that weren't skipped the one whose
/// cumulative weight is nearest to `j` parts in `k` + 1 of the whole, and the smaller one on a tie. Where each was
/// skipped there is none.
///
/// It takes no memory, and searches by halves: it reads at most two sums more than the number of suspects has binary
/// digits. Each read is a step. Where nothing was skipped it is [`pick`].
pub fn open_pick<L: Ledger>(
    sums: &Sums,
    floor: u16,
    skips: &Skips,
    j: u8,
    k: u8,
    steps: &mut Steps<L>,
) -> Option<u16>
    requires sums { CanPick floor sums.now }
    requires first { 1 ≤ j }
    requires last { j ≤ k }
    requires narrow { k ≤ MAX_WIDTH }

    ensures nearest { result ≡ open_pick_in sums.now floor skips.now j k }
    ensures cost { 2 ^ (steps.new - steps.old) ≤ 8 * suspects_in sums.now }
    ensures counted { steps.old ≤ steps.new }
{
    if skips.is_empty() {
        return Some(pick(sums, floor, j, k, steps));
    }
    let threshold = Threshold::of(sums, j, k);
    let reaching = first_reaching(sums, floor, threshold, steps);
    let suspects = sums.suspects() as u16;
    let before = skips.last_below(reaching);
    let from = skips.first_at(reaching, suspects);
    if before <= floor {
        if from <= suspects { Some(from) } else { None }
    } else if suspects < from {
        Some(before)
    } else {
        let distance_before = threshold.distance(sums.at(usize::from(before), steps));
        let distance_from = threshold.distance(sums.at(usize::from(from), steps));
        Some(if distance_before <= distance_from {
            before
        } else {
            from
        })
    }
}

/// One [`open_pick`] for a caller that counts no steps.
pub fn open_pick_uncounted(sums: &Sums, floor: u16, skips: &Skips, j: u8, k: u8) -> Option<u16>
    requires sums { CanPick floor sums.now }
    requires first { 1 ≤ j }
    requires last { j ≤ k }
    requires narrow { k ≤ MAX_WIDTH }
    ensures { result ≡ open_pick_in sums.now floor skips.now j k }
{
    open_pick_on::<Brand>(sums, floor, skips, j, k, Blank::new(1))
}

/// The same on a counter of its own, which nobody reads.
fn open_pick_on<L: Ledger>(
    sums: &Sums,
    floor: u16,
    skips: &Skips,
    j: u8,
    k: u8,
    blank: Blank,
) -> Option<u16>
    requires blank { CanCount blank L.name L.parts }
    requires sums { CanPick floor sums.now }
    requires first { 1 ≤ j }
    requires last { j ≤ k }
    requires narrow { k ≤ MAX_WIDTH }
    ensures { result ≡ open_pick_in sums.now floor skips.now j k }
{
    open_pick(sums, floor, skips, j, k, &mut Steps::<L>::new(blank))
}
