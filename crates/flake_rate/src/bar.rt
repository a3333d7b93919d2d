//! The bar that a hypothesis has to reach.

ghost use Rattle.std.specs.Prelude.{◌≡◌, ◌↔◌, IsOk, IfOk, IfErr};
ghost use Rattle.flake_rate.specs.Limits.{IsBar};

use std::error::Error;
use std::fmt;

/// The share `t/u` of the whole belief that a hypothesis has to reach before a search acts on it,
/// strictly between 1/2 and 1, with a denominator of at most [`Bar::MAX_DENOMINATOR`].
///
/// Above one half at most one hypothesis reaches it. The numbers are kept as given.
#[derive(Clone, Copy, PartialEq, Eq)]
pub struct Bar {
    t: u32,
    u: u32,
    pub ghost in_limits: { IsBar t u },
}

impl Bar {
    ghost use Rattle.flake_rate.specs.Bar.{bar_numerator, bar_denominator};

    /// The greatest denominator of a bar.
    pub const MAX_DENOMINATOR: u32 = 10_000;

    /// The bar `t/u`, with its numbers as given.
    ///
    /// # Errors
    ///
    /// [`BarFault`] exactly where not `u <= 10000`, `u < 2t` and `t < u`.
    pub fn of(t: u32, u: u32) -> Result<Bar, BarFault>
        ensures within { IsOk result ↔ IsBar t u }
        ensures as_given { IfOk result (λ bar. (bar_numerator bar ≡ t) × (bar_denominator bar ≡ u)) }
        ensures fault { IfErr result (λ e. e ≡ record { t = t; u = u }) }
    {
        if u > Self::MAX_DENOMINATOR || t >= u || u >= 2 * t {
            return Err(BarFault { t, u });
        }
        Ok(Bar { t, u })
    }

    /// The numerator as given, above half of the denominator.
    pub fn t(&self) -> u32
        ensures { result ≡ bar_numerator self.now }
    {
        self.t
    }

    /// The denominator as given, at most [`Bar::MAX_DENOMINATOR`].
    pub fn u(&self) -> u32
        ensures { result ≡ bar_denominator self.now }
    {
        self.u
    }
}

/// Two numbers that are no bar, as they were given.
#[derive(Clone, Copy, Debug)]
pub struct BarFault {
    /// The numerator as given.
    pub t: u32,
    /// The denominator as given.
    pub u: u32,
}

impl fmt::Display for BarFault {
    fn fmt<W: fmt::Write>(&self, f: &mut fmt::Formatter<W>) -> fmt::Result {
        let BarFault { t, u } = *self;
        write!(
            f,
            "the bar {t}/{u} is outside its limits: 1/2 < t/u < 1 and u <= {}",
            Bar::MAX_DENOMINATOR
        )
    }
}

impl Error for BarFault {}
