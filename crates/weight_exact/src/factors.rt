//! The likelihood of one run, as four whole numbers.

ghost use Rattle.std.specs.Prelude.{◌≡◌, ◌<◌, ◌≤◌, ◌↔◌, true, false};
ghost use Rattle.flake_rate.specs.Miss.{miss_numerator};
ghost use Rattle.weight_exact.specs.Factors.{factors_of, greatest_factor, in_lowest_terms, verdict_factor};

use crate::run::Verdict;
use flake_rate::{Miss, Rate, gcd};

/// The greatest likelihood number that rates within their limits have.
pub const MAX_FACTOR: u32 = Rate::MAX_DENOMINATOR * Miss::MAX_DENOMINATOR;

/// The four likelihood numbers of a flake rate and a miss rate: what a run multiplies the weight of a hypothesis by,
/// for a fail and for a pass, where the hypothesis' culprit is in the tree that was run (`in`) and where it is out
/// (`out`). They are Bayes' likelihoods, each verdict's pair over one common denominator and in lowest terms.
#[derive(Clone, Copy)]
pub struct Factors {
    /// For a fail with the culprit in.
    pub fail_in: u32,
    /// For a fail with the culprit out.
    pub fail_out: u32,
    /// For a pass with the culprit in.
    pub pass_in: u32,
    /// For a pass with the culprit out.
    pub pass_out: u32,
}

impl Factors {
    /// The numbers of these two rates, each at most [`MAX_FACTOR`]. Only `pass_in` may be 0: it is where the miss rate
    /// is.
    pub fn of(rate: Rate, miss: Miss) -> Factors
        ensures value { result ≡ factors_of rate miss }
        ensures at_most { greatest_factor result ≤ MAX_FACTOR }
        ensures fail_in { 0 < result.fail_in }
        ensures fail_out { 0 < result.fail_out }
        ensures pass_in { (result.pass_in ≡ 0) ↔ (miss_numerator miss ≡ 0) }
        ensures pass_out { 0 < result.pass_out }
    {
        let (a, b) = (rate.a(), rate.b());
        let (c, d) = (miss.c(), miss.d());
        let (fail_in, fail_out) = in_lowest_terms((d - c) * b, a * d);
        let (pass_in, pass_out) = in_lowest_terms(c * b, (b - a) * d);
        Factors {
            fail_in,
            fail_out,
            pass_in,
            pass_out,
        }
    }

    /// The two numbers of a run with this verdict: where the culprit is in the tree, and where it is out.
    pub fn of_verdict(self, verdict: Verdict) -> (u32, u32)
        ensures inside { result.0 ≡ verdict_factor self verdict true }
        ensures outside { result.1 ≡ verdict_factor self verdict false }
    {
        match verdict {
            Verdict::Fail => (self.fail_in, self.fail_out),
            Verdict::Pass => (self.pass_in, self.pass_out),
        }
    }

    /// The greatest of the four numbers.
    pub fn greatest(self) -> u32
        ensures { result ≡ greatest_factor self }
    {
        self.fail_in
            .max(self.fail_out)
            .max(self.pass_in.max(self.pass_out))
    }
}

/// Two numbers over their greatest common divisor.
fn in_lowest_terms(x: u32, y: u32) -> (u32, u32)
    requires { 0 < y }
    ensures { result ≡ in_lowest_terms x y }
{
    let divisor = gcd(x, y);
    (x / divisor, y / divisor)
}
