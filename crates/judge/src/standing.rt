//! Where a search stands.

ghost use Rattle.std.specs.Prelude.{Some};

use std::fmt;

/// Where a search stands.
#[derive(Clone, Copy)]
pub enum JudgeStanding {
    /// No hypothesis reaches the bar.
    Searching,
    /// The suspect at this position reaches the bar.
    Named(u16),
    /// The hypothesis that there is no culprit reaches the bar.
    NoCulprit,
    /// With a run the load would have passed the budget, while the search went on.
    Inconclusive,
}

impl JudgeStanding {
    ghost use Rattle.std.specs.Prelude.{◌≡◌};
    ghost use Rattle.judge.specs.Fates.{is_searching};

    /// Whether the search goes on.
    pub fn is_searching(self) -> bool
        ensures { result ≡ is_searching self }
    {
        matches!(self, JudgeStanding::Searching)
    }
}

impl fmt::Display for JudgeStanding {
    ghost use Rattle.judge.specs.Answer.{standing_word};

    ghost output = { λ standing. Some (standing_word standing) };

    fn fmt<W: fmt::Write>(&self, f: &mut fmt::Formatter<W>) -> fmt::Result {
        match self {
            JudgeStanding::Searching => write!(f, "searching"),
            JudgeStanding::Named(position) => write!(f, "named {position}"),
            JudgeStanding::NoCulprit => write!(f, "no culprit"),
            JudgeStanding::Inconclusive => write!(f, "inconclusive"),
        }
    }
}
