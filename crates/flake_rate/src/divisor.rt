//! The greatest common divisor.

ghost use Rattle.std.specs.Prelude.{◌≡◌, ◌*◌, ◌/◌, ◌<◌, ◌≤◌};
ghost use Rattle.std.specs.Int.{IsGcd};
ghost use Rattle.flake_rate.specs.Divisor.{gcd};

/// The greatest common divisor of `a` and `b`, by Euclid's algorithm. It is 0 where both are 0.
pub fn gcd(a: u32, b: u32) -> u32
    ensures { result ≡ gcd a b }
{
    let mut larger = a;
    let mut smaller = b;
    while smaller != 0 {
        let rest = larger % smaller;
        larger = smaller;
        smaller = rest;
    }
    larger
}

/// The numerator and the denominator of the fraction `a/b` in lowest terms.
pub(crate) fn in_lowest_terms(a: u32, b: u32) -> (u32, u32)
    requires { 0 < b }
    ensures numerator { result.0 ≡ a / gcd a b }
    ensures denominator { result.1 ≡ b / gcd a b }
    ensures same_fraction { result.0 * b ≡ a * result.1 }
    ensures lowest { IsGcd result.0 result.1 1 }
    ensures lowest_terms { gcd result.0 result.1 ≡ 1 }

    // What keeps a fraction within its limits.
    ensures positive { 0 < a → 0 < result.0 }
    ensures below { a < b → result.0 < result.1 }
    ensures no_greater { result.1 ≤ b }
{
    let common = gcd(a, b);
    (a / common, b / common)
}
