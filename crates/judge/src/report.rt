//! The lines of an answer.

ghost use Rattle.std.specs.Prelude.{◌≡◌, ◌+◌, ◌^◌, ◌<◌, ◌++◌, ℕ, List, OnOk, string_bytes};
ghost use Rattle.judge.specs.Answer.{budget_text, fate_text, shares_text, standing_text};
ghost use Rattle.posterior.specs.StandsFor.{StandsFor};
ghost use Rattle.weight_exact.specs.Weights.{hypotheses as hypotheses_of};
ghost use Rattle.weight_exact.specs.declared.run.Run.{Run};

use crate::fate::JudgeFate;
use crate::standing::JudgeStanding;
use posterior::Belief;
use std::alloc::AllocError;

/// Appends the line with the budget of a search.
pub fn write_budget(output: &mut String, belief: &Belief) -> Result<(), AllocError>
    ensures { OnOk result (
        string_bytes output.new ≡ string_bytes output.old ++ budget_text belief.now.setup) }
{
    let budget = belief.budget();
    writeln!(output, "budget {budget}")
}

/// Appends the line of a run: its number and what became of it.
pub fn write_fate(output: &mut String, number: u32, fate: JudgeFate) -> Result<(), AllocError>
    ensures { OnOk result (string_bytes output.new ≡ string_bytes output.old ++ fate_text number fate) }
{
    writeln!(output, "run {number} {fate}")
}

/// Appends the line with the share of each hypothesis, in basis points.
pub fn write_shares(output: &mut String, belief: &Belief, hypotheses: u16) -> Result<(), AllocError>
    requires { hypotheses ≡ hypotheses_of belief.now.setup }
    ensures { (runs : List Run) → StandsFor belief.now runs → OnOk result (
        string_bytes output.new ≡ string_bytes output.old ++ shares_text belief.now.setup runs) }
{
    write!(output, "shares")?;
    for before in 0..hypotheses {
        let points = belief.basis_points(before + 1);
        write!(output, " {points}")?;
    }
    writeln!(output)
}

/// Appends the line with the standing of a search.
pub fn write_standing(output: &mut String, standing: JudgeStanding) -> Result<(), AllocError>
    ensures { OnOk result (string_bytes output.new ≡ string_bytes output.old ++ standing_text standing) }
{
    writeln!(output, "standing {standing}")
}
