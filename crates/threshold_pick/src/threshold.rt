//! A threshold of the cumulative weight.

ghost use Rattle.std.specs.Prelude.{◌≡◌, ◌↔◌, ◌+◌, ◌*◌, ◌<◌, ◌≤◌, ◌^◌, IsTrue};
ghost use Rattle.std.specs.Int.{abs_diff};
ghost use Rattle.threshold_pick.specs.Sums.{whole};
ghost use Rattle.weight_exact.specs.declared.limits.TheConstants.{BASIS_POINTS, MAX_WIDTH};

use weight_exact::Sums;

/// The threshold at j parts in k + 1 of a whole. It is compared with sums in whole numbers, both sides times k + 1.
#[derive(Clone, Copy)]
pub(crate) struct Threshold {
    /// How many parts the whole has: k + 1.
    pub(crate) parts: u128,
    /// j times the whole.
    pub(crate) mark: u128,
}

impl Threshold {
    /// The threshold at `j` parts in `k` + 1 of the whole that these sums come to.
    pub(crate) fn of(sums: &Sums, j: u8, k: u8) -> Threshold
        requires inside { j ≤ k }
        requires narrow { k ≤ MAX_WIDTH }
        requires room { whole sums.now * BASIS_POINTS < 2 ^ 128 }
        ensures parts { result.parts ≡ k + 1 }
        ensures mark { result.mark ≡ j * whole sums.now }
        ensures room { whole sums.now * result.parts < 2 ^ 128 }
    {
        Threshold {
            parts: u128::from(k) + 1,
            mark: u128::from(j) * sums.total(),
        }
    }

    /// Whether a sum reaches the threshold.
    pub(crate) fn is_reached_by(self, sum: u128) -> bool
        requires { sum * self.parts < 2 ^ 128 }
        ensures { IsTrue result ↔ (self.mark ≤ sum * self.parts) }
    {
        self.mark <= sum * self.parts
    }

    /// How far a sum is from the threshold, times k + 1.
    pub(crate) fn distance(self, sum: u128) -> u128
        requires { sum * self.parts < 2 ^ 128 }
        ensures { result ≡ abs_diff (sum * self.parts) self.mark }
    {
        (sum * self.parts).abs_diff(self.mark)
    }
}
