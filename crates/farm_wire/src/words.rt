//! What a run was for and what came of it, in the words of replies.

ghost use Rattle.std.specs.Prelude.{◌≡◌};
ghost use Rattle.farm_wire.specs.Forms.{skip_word};
ghost use Rattle.farm_wire.specs.Replies.{fate_word, outcome_fate, outcome_verdict, skip_fate_word, stage_word};
ghost use Rattle.farm_wire.specs.Replies.{verdict_word};

use farm_entry::{Fate, RunOutcome, SkipFate};
use farm_types::Stage;
use weight_exact::Verdict;

/// The word for what a run is for.
pub(crate) fn stage_word(stage: Stage) -> &'static str
    ensures { result.now ≡ stage_word stage }
{
    match stage {
        Stage::Search => "search",
        Stage::Verify => "verify",
    }
}

/// The word for what a test said.
pub(crate) fn verdict_word(verdict: Verdict) -> &'static str
    ensures { result.now ≡ verdict_word verdict }
{
    match verdict {
        Verdict::Pass => "pass",
        Verdict::Fail => "fail",
    }
}

/// The word for what a verdict did to its search.
pub(crate) fn fate_word(fate: Fate) -> &'static str
    ensures { result.now ≡ fate_word fate }
{
    match fate {
        Fate::Counted => "counted",
        Fate::Late => "late",
        Fate::Over => "over",
    }
}

/// What stands for a verdict where a tree can't be tested.
pub(crate) fn skip_word<'w>() -> &'w str
    ensures { result.now ≡ skip_word }
{
    "skip"
}

/// The word for what the report of a tree that can't be tested did.
pub(crate) fn skip_fate_word(fate: SkipFate) -> &'static str
    ensures { result.now ≡ skip_fate_word fate }
{
    match fate {
        SkipFate::Taken => "skipped",
        SkipFate::Late => "late",
    }
}

/// The word for the verdict of a run.
pub(crate) fn outcome_verdict(outcome: RunOutcome) -> &'static str
    ensures { result.now ≡ outcome_verdict outcome }
{
    match outcome {
        RunOutcome::Tested(verdict, _) => verdict_word(verdict),
        RunOutcome::Untestable(_) => skip_word(),
    }
}

/// The word for what the report of a run did.
pub(crate) fn outcome_fate(outcome: RunOutcome) -> &'static str
    ensures { result.now ≡ outcome_fate outcome }
{
    match outcome {
        RunOutcome::Tested(_, fate) => fate_word(fate),
        RunOutcome::Untestable(fate) => skip_fate_word(fate),
    }
}
