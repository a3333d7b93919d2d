//! The flake rate of a test.

ghost use Rattle.std.specs.Prelude.{◌≡◌, ◌*◌, ◌/◌, ◌↔◌, IsOk, IfOk, IfErr};
ghost use Rattle.std.specs.Int.{IsGcd};
ghost use Rattle.flake_rate.specs.Divisor.{gcd};
ghost use Rattle.flake_rate.specs.Limits.{IsRate};

use crate::divisor::in_lowest_terms;
use std::error::Error;
use std::fmt;

/// How often a sound test fails all the same: the probability `a/b`, strictly between 0 and 1,
/// in lowest terms and with a denominator of at most [`Rate::MAX_DENOMINATOR`].
///
/// Runs are taken to be independent of each other, as in Henderson et al., "Flake Aware Culprit
/// Finding" (ICST 2023). That the rate is a fraction of whole numbers, so that each belief is
/// exact, is this project's choice.
#[derive(Clone, Copy, PartialEq, Eq)]
pub struct Rate {
    a: u32,
    b: u32,
    pub ghost in_limits: { IsRate a b },
    pub ghost lowest_terms: { gcd a b ≡ 1 },
}

impl Rate {
    ghost use Rattle.flake_rate.specs.Rate.{rate_numerator, rate_denominator};

    /// The greatest denominator that a flake rate may be given with.
    pub const MAX_DENOMINATOR: u32 = 1_000;

    /// The flake rate `a/b`, brought to lowest terms.
    ///
    /// # Errors
    ///
    /// [`RateFault`] exactly where not `1 <= a < b <= 1000`. The numbers are tested as given, so
    /// 500/2000 is refused although 1/4 is a flake rate.
    pub fn of(a: u32, b: u32) -> Result<Rate, RateFault>
        ensures within { IsOk result ↔ IsRate a b }
        ensures reduced { IfOk result (λ r.
            (rate_numerator r ≡ a / gcd a b) × (rate_denominator r ≡ b / gcd a b)) }
        ensures same_fraction { IfOk result (λ r. rate_numerator r * b ≡ a * rate_denominator r) }
        ensures lowest { IfOk result (λ r. IsGcd (rate_numerator r) (rate_denominator r) 1) }
        ensures fault { IfErr result (λ e. e ≡ record { a = a; b = b }) }
    {
        if a == 0 || a >= b || b > Self::MAX_DENOMINATOR {
            return Err(RateFault { a, b });
        }
        let (a, b) = in_lowest_terms(a, b);
        Ok(Rate { a, b })
    }

    /// The numerator in lowest terms, from 1 to below the denominator.
    pub fn a(&self) -> u32
        ensures { result ≡ rate_numerator self.now }
    {
        self.a
    }

    /// The denominator in lowest terms, from 2 to [`Rate::MAX_DENOMINATOR`].
    pub fn b(&self) -> u32
        ensures { result ≡ rate_denominator self.now }
    {
        self.b
    }
}

/// Two numbers that are no flake rate, as they were given.
#[derive(Clone, Copy, Debug)]
pub struct RateFault {
    /// The numerator as given.
    pub a: u32,
    /// The denominator as given.
    pub b: u32,
}

impl fmt::Display for RateFault {
    fn fmt<W: fmt::Write>(&self, f: &mut fmt::Formatter<W>) -> fmt::Result {
        let RateFault { a, b } = *self;
        write!(
            f,
            "the flake rate {a}/{b} is outside its limits: 1 <= a < b <= {}",
            Rate::MAX_DENOMINATOR
        )
    }
}

impl Error for RateFault {}
