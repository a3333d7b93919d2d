//! The rate that is offered for a tally.

ghost use Rattle.std.specs.Prelude.{◌≡◌, ◌≤◌, ◌<◌, ◌^◌};
ghost use Rattle.flake_rate.specs.Rate.{rate_denominator, rate_numerator};
ghost use Rattle.rates_report.specs.Tally.{lowest, offered};

use flake_rate::Rate;

/// The flake rate that is offered for a test that failed so often in so many runs at sound trees: Laplace's rule of
/// succession (1814), by which one fail and one pass more are supposed, so that it lies strictly between 0 and 1.
/// Where its denominator is too great for a rate, it is rounded down to thousandths, and is at least one.
pub(crate) fn offered_rate(fails: u64, runs: u64) -> Rate
    requires fewer { fails ≤ runs }
    requires small { runs < 2 ^ 48 }
    ensures numerator { rate_numerator result ≡ (lowest (offered fails runs)).0 }
    ensures denominator { rate_denominator result ≡ (lowest (offered fails runs)).1 }
{
    let most = Rate::MAX_DENOMINATOR as u64;
    let (a, b) = if runs + 2 <= most {
        (fails + 1, runs + 2)
    } else {
        (((fails + 1) * most / (runs + 2)).max(1), most)
    };
    match Rate::of(a as u32, b as u32) {
        Ok(rate) => rate,
        Err(_) => unreachable!(),
    }
}
