//! A hypothesis with its weight.

ghost use Rattle.std.specs.Prelude.{◌≡◌, ◌*◌, ◌<◌, ◌≤◌, ◌^◌, Some, None, if◌then◌else◌};
ghost use Rattle.flake_rate.specs.Bar.{bar_numerator, bar_denominator};
ghost use Rattle.weight_exact.specs.Share.{is_at_bar};

use flake_rate::Bar;
use weight_exact::BASIS_POINTS;

/// A hypothesis, and what it weighs.
#[derive(Clone, Copy)]
pub struct Weighed {
    pub hypothesis: u16,
    pub weight: u128,
}

impl Weighed {
    /// The heavier of this one and another hypothesis; this one on a tie.
    pub fn or(self, hypothesis: u16, weight: u128) -> Weighed
        ensures heavier { self.weight < weight → (result.hypothesis ≡ hypothesis) × (result.weight ≡ weight) }
        ensures lighter { weight ≤ self.weight → (result.hypothesis ≡ self.hypothesis) × (result.weight ≡ self.weight) }
    {
        if self.weight < weight {
            Weighed { hypothesis, weight }
        } else {
            self
        }
    }

    /// The hypothesis, where its share of the whole is at the bar.
    pub fn at_bar(self, bar: Bar, whole: u128) -> Option<u16>
        requires part { self.weight ≤ whole }
        requires room { whole * BASIS_POINTS < 2 ^ 128 }
        ensures { result ≡ (if is_at_bar (bar_numerator bar) (bar_denominator bar) whole self.weight
            then Some self.hypothesis else None) }
    {
        if u128::from(bar.t()) * whole <= self.weight * u128::from(bar.u()) {
            Some(self.hypothesis)
        } else {
            None
        }
    }
}
