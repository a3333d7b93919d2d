//! What comes of a test.

use weight_exact::Verdict;

/// What is said of a tree once its test was to be run.
#[derive(Clone, Copy)]
pub enum Tested {
    /// The test ran to its end, and passed or failed.
    Verdict(Verdict),
    /// The tree can't be tested: it doesn't build, or doesn't have the test.
    Untestable,
}
