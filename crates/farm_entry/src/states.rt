//! What a standing, a fate or a run that was handed out is.

ghost use Rattle.std.specs.Prelude.{◌≡◌};
ghost use Rattle.farm_entry.specs.Decision.{run_with};
ghost use Rattle.farm_entry.specs.History.{is_counted, is_over, is_taken, same_stage};
ghost use Rattle.farm_entry.specs.Pages.{is_ended_otherwise};
ghost use Rattle.farm_entry.specs.Standing.{is_active, is_confirmed, is_searching, is_verifying};

use crate::{Fate, LeasedRun, SkipFate, Standing};
use farm_types::Stage;
use weight_exact::{Run, Verdict};

impl Standing {
    /// Whether the search is looking for its culprit.
    pub fn is_searching(self) -> bool
        ensures { result ≡ is_searching self }
    {
        match self {
            Standing::Searching => true,
            _ => false,
        }
    }

    /// Whether the search verifies its culprit.
    pub fn is_verifying(self) -> bool
        ensures { result ≡ is_verifying self }
    {
        match self {
            Standing::Verifying(_) => true,
            _ => false,
        }
    }

    /// Whether the culprit of the search is confirmed.
    pub fn is_confirmed(self) -> bool
        ensures { result ≡ is_confirmed self }
    {
        match self {
            Standing::Confirmed(_) => true,
            _ => false,
        }
    }

    /// Whether the search goes on.
    pub fn is_active(self) -> bool
        ensures { result ≡ is_active self }
    {
        match self {
            Standing::Searching | Standing::Verifying(_) => true,
            _ => false,
        }
    }

    /// Whether the search has ended in another way than with a confirmed culprit.
    pub fn is_ended_otherwise(self) -> bool
        ensures { result ≡ is_ended_otherwise self }
    {
        !self.is_active() && !self.is_confirmed()
    }
}

impl Fate {
    /// Whether the report counts.
    pub fn is_counted(self) -> bool
        ensures { result ≡ is_counted self }
    {
        match self {
            Fate::Counted => true,
            _ => false,
        }
    }

    /// Whether the report took its search past its budget.
    pub fn is_over(self) -> bool
        ensures { result ≡ is_over self }
    {
        match self {
            Fate::Over => true,
            _ => false,
        }
    }
}

impl SkipFate {
    /// Whether the report closes the run's position.
    pub fn is_taken(self) -> bool
        ensures { result ≡ is_taken self }
    {
        match self {
            SkipFate::Taken => true,
            SkipFate::Late => false,
        }
    }
}

impl LeasedRun {
    /// Whether the run is for this stage.
    pub fn is_at(self, stage: Stage) -> bool
        ensures { result ≡ same_stage self.stage stage }
    {
        match (self.stage, stage) {
            (Stage::Search, Stage::Search) | (Stage::Verify, Stage::Verify) => true,
            _ => false,
        }
    }

    /// The run with its verdict.
    pub fn run_with(self, verdict: Verdict) -> Run
        ensures { result ≡ run_with self verdict }
    {
        Run {
            position: self.position,
            verdict,
        }
    }
}
