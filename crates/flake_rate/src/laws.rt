//! Laws of this crate's definitions. Each function does nothing: its contract is the law.

ghost use Rattle.std.specs.Prelude.{◌≡◌, ◌↔◌, ℕ, IsTrue};
ghost use Rattle.std.specs.Int.{IsGcd};
ghost use Rattle.flake_rate.specs.Divisor.{gcd};
ghost use Rattle.flake_rate.specs.Bar.{bar_denominator, bar_numerator};
ghost use Rattle.flake_rate.specs.Limits.{IsBar, IsMiss, IsRate};
ghost use Rattle.flake_rate.specs.Miss.{miss_denominator, miss_numerator, FitsRate};
ghost use Rattle.flake_rate.specs.Rate.{rate_denominator, rate_numerator};
ghost use Rattle.flake_rate.specs.Tests.{fits_rate, is_bar, is_miss, is_rate};
ghost use Rattle.flake_rate.specs.declared.bar.Bar.{Bar};
ghost use Rattle.flake_rate.specs.declared.miss.Miss.{Miss};
ghost use Rattle.flake_rate.specs.declared.rate.Rate.{Rate};

/// What Euclid's algorithm gives divides both numbers, and each number that divides both divides
/// it.
pub fn gcd_divides()
    ensures { (a b : ℕ) → IsGcd a b (gcd a b) }
{}

/// A test that always fails once it is broken may be searched for at every flake rate.
pub fn zero_miss_fits()
    ensures { (miss : Miss) (rate : Rate) → miss_numerator miss ≡ 0 → FitsRate miss rate }
{}

/// The tests of the limits tell exactly the numbers within them, and the miss rates that fit a flake rate.
pub fn tests_tell()
    ensures rate { (a b : ℕ) → IsTrue (is_rate a b) ↔ IsRate a b }
    ensures miss { (c d : ℕ) → IsTrue (is_miss c d) ↔ IsMiss c d }
    ensures bar { (t u : ℕ) → IsTrue (is_bar t u) ↔ IsBar t u }
    ensures fits { (miss : Miss) (rate : Rate) → IsTrue (fits_rate miss rate) ↔ FitsRate miss rate }
{}

/// Fractions with the same two numbers are equal.
pub fn equal_by_numbers()
    ensures rates { (a b : Rate) → rate_numerator a ≡ rate_numerator b
        → rate_denominator a ≡ rate_denominator b → a ≡ b }
    ensures misses { (a b : Miss) → miss_numerator a ≡ miss_numerator b
        → miss_denominator a ≡ miss_denominator b → a ≡ b }
    ensures bars { (a b : Bar) → bar_numerator a ≡ bar_numerator b
        → bar_denominator a ≡ bar_denominator b → a ≡ b }
{}
