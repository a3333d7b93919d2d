//! The answer to an input.

ghost use Rattle.std.specs.Prelude.{◌≡◌, ◌+◌, ◌++◌, Some, None, Ok, Err, ℕ, List, IfOk, OnOk, IsErrOf, string_bytes};
ghost use Rattle.judge.specs.Answer.{judged, fate_text};
ghost use Rattle.judge.specs.Fates.{JudgeProgress, fate, after};
ghost use Rattle.judge.specs.Form.{run_line};
ghost use Rattle.judge.specs.Trial.{IsAt, setup_in};
ghost use Rattle.judge.specs.declared.run_line.RunLine.{RunLine};
ghost use Rattle.weight_exact.specs.Weights.{suspects};

use crate::fault::JudgeFault;
use crate::lines::{Line, Lines};
use crate::opening::read_search;
use crate::report::write_fate;
use crate::run_line::RunLine;
use crate::trial::Trial;
use std::alloc::Global;

/// Answers one search: what becomes of each of its runs, the shares of its hypotheses and where it
/// stands.
///
/// The input is `search A B T U CALM WEIGHT ..` (the flake rate A/B, the bar T/U, the prior weight of
/// "no culprit" and those of the suspects), where a line `miss C D` (the miss rate C/D) may stand
/// before it, and then a line `run R K pass` or `run R K fail` for each run.
///
/// # Errors
///
/// [`JudgeFault::BadInput`] with the number of the first line outside the form, exactly where there
/// is one, and [`JudgeFault::Memory`] for running out of memory alone.
pub fn judge(alloc: Global, input: &[u8]) -> Result<String, JudgeFault>
    ensures answer { IfOk result (λ text. judged input.now ≡ Ok (string_bytes text)) }
    ensures bad_input { (line : ℕ) → IsErrOf result (JudgeFault.BadInput line) →
        judged input.now ≡ Err line }
{
    let mut lines = Lines::of(input);
    let search = read_search(alloc, &mut lines)?;
    let mut trial = Trial::start(alloc, &search)?;
    let mut output = String::new(alloc);
    trial.write_budget(&mut output)?;
    for line in lines {
        judge_line(&mut trial, line, &mut output)?;
    }
    trial.write_ending(&mut output)?;
    Ok(output)
}

/// Judges one run line, and appends what becomes of it.
fn judge_line(trial: &mut Trial, line: Line, output: &mut String) -> Result<(), JudgeFault>
    ensures setup { setup_in trial.new ≡ setup_in trial.old }
    ensures ok { (progress : JudgeProgress) → IsAt trial.old progress → OnOk result ((run : RunLine)
        × (run_line (suspects (setup_in trial.old)) progress.greatest line.entry.text.now ≡ Some run)
        × IsAt trial.new (after (setup_in trial.old) progress run)
        × (string_bytes output.new
        ≡ string_bytes output.old ++ fate_text run.number (fate (setup_in trial.old) progress run))) }
    ensures bad_input { (progress : JudgeProgress) → IsAt trial.old progress → (number : ℕ) →
        IsErrOf result (JudgeFault.BadInput number) →
        (run_line (suspects (setup_in trial.old)) progress.greatest line.entry.text.now ≡ None)
        × (number ≡ line.entry.number) }
{
    let outside = JudgeFault::BadInput(line.number);
    let run = RunLine::parse(trial.suspects(), trial.greatest(), line.text).ok_or(outside)?;
    let fate = trial.judge(run);
    write_fate(output, run.number, fate)?;
    Ok(())
}
