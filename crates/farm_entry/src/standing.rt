use std::fmt;

/// Where a search stands. A culprit is named by its position, which is from 1 on. All but the first two are ends.
#[derive(Clone, Copy, Debug)]
pub enum Standing {
    /// No hypothesis has reached the bar yet.
    Searching,
    /// The suspect at this position has reached the bar, and reruns are to show whether it is the culprit.
    Verifying(u16),
    /// The suspect at this position is the culprit: the reruns failed at it and passed just below it.
    Confirmed(u16),
    /// The suspect at this position isn't the culprit: a rerun passed at it or failed just below it.
    Vindicated(u16),
    /// That there is no culprit has reached the bar.
    NoCulprit,
    /// The budget was used up before any hypothesis reached the bar, or positions whose trees can't be tested leave
    /// nothing that could tell the hypotheses apart, or confirm the suspect at the bar.
    Inconclusive,
    /// The search was cancelled.
    Cancelled,
}

impl fmt::Display for Standing {
    fn fmt<W: fmt::Write>(&self, f: &mut fmt::Formatter<W>) -> fmt::Result {
        match *self {
            Standing::Searching => write!(f, "searching"),
            Standing::Verifying(culprit) => write!(f, "verifying suspect {culprit}"),
            Standing::Confirmed(culprit) => write!(f, "suspect {culprit} is confirmed"),
            Standing::Vindicated(culprit) => write!(f, "suspect {culprit} is vindicated"),
            Standing::NoCulprit => write!(f, "no culprit"),
            Standing::Inconclusive => write!(f, "inconclusive"),
            Standing::Cancelled => write!(f, "cancelled"),
        }
    }
}
