//! One run of a test, and what it said.

ghost use Rattle.std.specs.Prelude.{◌≡◌};

/// What a run of the test said.
#[derive(Clone, Copy, PartialEq, Eq)]
pub enum Verdict {
    Pass,
    Fail,
}

impl Verdict {
    ghost use Rattle.weight_exact.specs.Load.{is_fail};

    /// Whether the run failed.
    pub fn is_fail(self) -> bool
        ensures { result ≡ is_fail self }
    {
        match self {
            Verdict::Pass => false,
            Verdict::Fail => true,
        }
    }
}

/// A run of the test with suspects 1 to `position` applied, where 0 is the base.
#[derive(Clone, Copy)]
pub struct Run {
    pub position: u16,
    pub verdict: Verdict,
}
