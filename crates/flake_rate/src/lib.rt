//! The three fractions that a search for a culprit is given, as values that always lie within
//! their limits: the flake rate (how often a sound test fails), the miss rate (how often a broken
//! test passes) and the bar (the share of the belief that names a culprit), and the greatest
//! common divisor, by which the two rates are kept in lowest terms. It stands on no crate but
//! `std`. The layer above makes the values by `of`, reads them by their readers, may use of any
//! value that it lies within its limits and in lowest terms, and cites the definitions of
//! `specs/` and the lemmas of `proofs/Divisors` (the greatest common divisor), `proofs/Limits` (what
//! the tests of the limits tell) and `proofs/Values` (what a value keeps).
#![tactic(auto)]

mod bar;
mod divisor;
pub mod laws;
mod miss;
mod rate;

pub use bar::{Bar, BarFault};
pub use divisor::gcd;
pub use miss::{Miss, MissFault};
pub use rate::{Rate, RateFault};
