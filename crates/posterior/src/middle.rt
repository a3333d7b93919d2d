//! The hypothesis at the bar, looked for by halves in the cumulative sums.

ghost use Rattle.std.specs.Prelude.{◌≡◌, ◌+◌, ◌-◌, ◌<◌, ◌≤◌, ℕ, length};
ghost use Rattle.weight_exact.specs.Cumulative.{AreSumsOf};
ghost use Rattle.posterior.specs.Middle.{HasMiddle, reaching};

use crate::weighed::Weighed;
use flake_rate::Bar;
use std::sync::ledger::Ledger;
use weight_exact::{Steps, Sums};

/// The hypotheses above `low` and up to `high`, among which the middle of the total lies: with the sums up to those
/// two.
#[derive(Clone, Copy)]
struct Span {
    low: u16,
    before: u128,
    high: u16,
    upto: u128,
}

impl Span {
    /// The part of the span up to a hypothesis within it, or the part above it: the one with the middle of the total.
    fn halved(self, hypothesis: u16, sum: u128, middle: u128) -> Span
        ensures up { middle < sum → result ≡ record { low = self.low; before = self.before; high = hypothesis; upto = sum } }
        ensures down { sum ≤ middle → result ≡ record { low = hypothesis; before = sum; high = self.high; upto = self.upto } }
    {
        if middle < sum {
            Span {
                high: hypothesis,
                upto: sum,
                ..self
            }
        } else {
            Span {
                low: hypothesis,
                before: sum,
                ..self
            }
        }
    }
}

/// The hypothesis whose weight is at the bar of the whole. As the bar is above one half, it can only be the one in
/// whose span the middle of the whole lies. Up to the floor nothing weighs anything.
pub fn at_bar<L: Ledger>(sums: &Sums, floor: u16, bar: Bar, steps: &mut Steps<L>) -> Option<u16>
    requires middle { HasMiddle floor sums.now }
    ensures bar { (w : ℕ → ℕ) → AreSumsOf w sums.now → result ≡ reaching bar w sums.now }
    ensures cost { steps.new ≤ steps.old + (length sums.now - floor) }
    ensures rises { steps.old ≤ steps.new }
{
    let last = sums.suspects() as u16 + 1;
    let whole = sums.at(usize::from(last), steps);
    let middle = whole / 2;
    let mut span = Span {
        low: floor,
        before: 0,
        high: last,
        upto: whole,
    };
    while 1 < span.high - span.low {
        let hypothesis = span.low + (span.high - span.low) / 2;
        let sum = sums.at(usize::from(hypothesis), steps);
        span = span.halved(hypothesis, sum, middle);
    }
    let found = Weighed {
        hypothesis: span.high,
        weight: span.upto - span.before,
    };
    found.at_bar(bar, whole)
}
