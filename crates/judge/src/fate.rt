//! What becomes of a run line.

ghost use Rattle.std.specs.Prelude.{Some};

use std::fmt;

/// What becomes of a run line.
#[derive(Clone, Copy)]
pub enum JudgeFate {
    /// It changes the weights.
    Counted,
    /// The search had ended before.
    Late,
    /// With it the load would pass the budget, so the search ends here.
    Over,
    /// A run with this number stood before.
    Repeat,
}

impl fmt::Display for JudgeFate {
    ghost use Rattle.judge.specs.Answer.{fate_word};

    ghost output = { λ fate. Some (fate_word fate) };

    fn fmt<W: fmt::Write>(&self, f: &mut fmt::Formatter<W>) -> fmt::Result {
        match self {
            JudgeFate::Counted => write!(f, "counted"),
            JudgeFate::Late => write!(f, "late"),
            JudgeFate::Over => write!(f, "over"),
            JudgeFate::Repeat => write!(f, "repeat"),
        }
    }
}
