//! The miss rate of a test.

ghost use Rattle.std.specs.Prelude.{◌≡◌, ◌*◌, ◌/◌, ◌↔◌, IsTrue, IsOk, IfOk, IfErr};
ghost use Rattle.std.specs.Int.{IsGcd};
ghost use Rattle.flake_rate.specs.Divisor.{gcd};
ghost use Rattle.flake_rate.specs.Limits.{IsMiss};

use crate::divisor::in_lowest_terms;
use crate::rate::Rate;
use std::error::Error;
use std::fmt;

/// How often a broken test passes all the same: the probability `c/d`, from 0 to below 1, in
/// lowest terms and with a denominator of at most [`Miss::MAX_DENOMINATOR`].
///
/// A miss rate of 0/1 says that a broken test fails each time.
#[derive(Clone, Copy, PartialEq, Eq)]
pub struct Miss {
    c: u32,
    d: u32,
    pub ghost in_limits: { IsMiss c d },
    pub ghost lowest_terms: { gcd c d ≡ 1 },
}

impl Miss {
    ghost use Rattle.flake_rate.specs.Miss.{miss_numerator, miss_denominator, FitsRate};

    /// The greatest denominator that a miss rate may be given with.
    pub const MAX_DENOMINATOR: u32 = 100;

    /// The miss rate `c/d`, brought to lowest terms: a `c` of 0 gives 0/1.
    ///
    /// # Errors
    ///
    /// [`MissFault`] exactly where not `c < d <= 100`. The numbers are tested as given, so
    /// 100/200 is refused although 1/2 is a miss rate.
    pub fn of(c: u32, d: u32) -> Result<Miss, MissFault>
        ensures within { IsOk result ↔ IsMiss c d }
        ensures reduced { IfOk result (λ m.
            (miss_numerator m ≡ c / gcd c d) × (miss_denominator m ≡ d / gcd c d)) }
        ensures same_fraction { IfOk result (λ m. miss_numerator m * d ≡ c * miss_denominator m) }
        ensures lowest { IfOk result (λ m. IsGcd (miss_numerator m) (miss_denominator m) 1) }
        ensures zero { c ≡ 0 → IfOk result (λ m. (miss_numerator m ≡ 0) × (miss_denominator m ≡ 1)) }
        ensures fault { IfErr result (λ e. e ≡ record { c = c; d = d }) }
    {
        if c >= d || d > Self::MAX_DENOMINATOR {
            return Err(MissFault { c, d });
        }
        let (c, d) = in_lowest_terms(c, d);
        Ok(Miss { c, d })
    }

    /// The miss rate 0/1, of a test that always fails once it is broken. It fits every flake rate.
    pub fn none() -> Miss
        ensures numerator { miss_numerator result ≡ 0 }
        ensures denominator { miss_denominator result ≡ 1 }
    {
        Miss { c: 0, d: 1 }
    }

    /// The numerator in lowest terms, from 0 to below the denominator.
    pub fn c(&self) -> u32
        ensures { result ≡ miss_numerator self.now }
    {
        self.c
    }

    /// The denominator in lowest terms, from 1 to [`Miss::MAX_DENOMINATOR`].
    pub fn d(&self) -> u32
        ensures { result ≡ miss_denominator self.now }
    {
        self.d
    }

    /// Whether a broken test with this miss rate fails more often than a sound one does at the
    /// flake rate, so that a failing run speaks for a culprit.
    pub fn fits(&self, rate: &Rate) -> bool
        ensures { IsTrue result ↔ FitsRate self.now rate.now }
    {
        self.c * rate.b() + rate.a() * self.d < rate.b() * self.d
    }
}

/// Two numbers that are no miss rate, as they were given.
#[derive(Clone, Copy, Debug)]
pub struct MissFault {
    /// The numerator as given.
    pub c: u32,
    /// The denominator as given.
    pub d: u32,
}

impl fmt::Display for MissFault {
    fn fmt<W: fmt::Write>(&self, f: &mut fmt::Formatter<W>) -> fmt::Result {
        let MissFault { c, d } = *self;
        write!(
            f,
            "the miss rate {c}/{d} is outside its limits: 0 <= c < d <= {}",
            Miss::MAX_DENOMINATOR
        )
    }
}

impl Error for MissFault {}
