//! A search that is judged run line by run line.

ghost use Rattle.std.specs.Prelude.{◌≡◌, ◌+◌, ◌≤◌, ◌<◌, ◌++◌, ℕ, List, IfOk, OnOk, string_bytes};
ghost use Rattle.judge.specs.Answer.{budget_text, ending};
ghost use Rattle.judge.specs.Fates.{JudgeProgress, standing_by, at_start, fate, after};
ghost use Rattle.judge.specs.Setup.{setup_of};
ghost use Rattle.posterior.specs.StandsFor.{StandsFor};
ghost use Rattle.weight_exact.specs.Share.{reached};
ghost use Rattle.weight_exact.specs.Weights.{hypotheses as hypotheses_of};
ghost use Rattle.weight_exact.specs.declared.run.Run.{Run};

use crate::fate::JudgeFate;
use crate::report::{write_budget, write_shares, write_standing};
use crate::run_line::RunLine;
use crate::search::{Search, Terms};
use crate::standing::JudgeStanding;
use posterior::{Belief, Noted};
use std::alloc::{AllocError, Global};
use weight_exact::Memory;

/// How far a search has come: what it believes, and what decides the fate of the next run line.
#[derive(Drop)]
pub struct Trial {
    belief: Belief,
    /// How many hypotheses there are. The last one is that there is no culprit.
    hypotheses: u16,
    /// The greatest run number so far, or 0.
    greatest: u32,
    /// Where the search stands, which is asked of the belief only where that has changed.
    standing: JudgeStanding,
    ghost all: { hypotheses ≡ hypotheses_of belief.setup },
    ghost some: { 2 ≤ hypotheses },
}

impl Trial {
    ghost use Rattle.judge.specs.Trial.{IsAt, setup_in};

    /// The search with no run yet.
    pub fn start(alloc: Global, search: &Search) -> Result<Trial, Memory>
        ensures setup { IfOk result (λ trial. setup_in trial ≡ setup_of search.now) }
        ensures at_start { IfOk result (λ trial. IsAt trial at_start) }
    {
        let Terms {
            rate,
            miss,
            bar,
            calm,
        } = search.terms;
        let belief = Belief::start(alloc, &search.weights, calm, rate, miss, bar)?;
        let hypotheses = search.weights.len() as u16 + 1;
        let standing = standing(&belief, hypotheses);
        Ok(Trial {
            belief,
            hypotheses,
            greatest: 0,
            standing,
        })
    }

    /// How many suspects the search has.
    pub fn suspects(&self) -> u16
        ensures { result + 1 ≡ hypotheses_of (setup_in self.now) }
    {
        self.hypotheses - 1
    }

    /// The greatest run number so far, or 0.
    pub fn greatest(&self) -> u32
        ensures { (progress : JudgeProgress) → IsAt self.now progress → result ≡ progress.greatest }
    {
        self.greatest
    }

    /// Judges one more run line, and counts its run where that is its fate.
    pub fn judge(&mut self, line: RunLine) -> JudgeFate
        requires first { 1 ≤ line.run.position }
        requires last { line.run.position < hypotheses_of (setup_in self.old) }
        ensures setup { setup_in self.new ≡ setup_in self.old }
        ensures fate { (progress : JudgeProgress) → IsAt self.old progress →
            result ≡ fate (setup_in self.old) progress line }
        ensures after { (progress : JudgeProgress) → IsAt self.old progress →
            IsAt self.new (after (setup_in self.old) progress line) }
    {
        if line.number <= self.greatest {
            return JudgeFate::Repeat;
        }
        self.greatest = line.number;
        if !self.standing.is_searching() {
            return JudgeFate::Late;
        }
        match self
            .belief
            .note_uncounted(line.run.position, line.run.verdict)
        {
            Noted::Counted => {
                self.standing = standing(&self.belief, self.hypotheses);
                JudgeFate::Counted
            }
            Noted::Over => {
                self.standing = JudgeStanding::Inconclusive;
                JudgeFate::Over
            }
        }
    }

    /// Appends the line with the budget to an answer.
    pub fn write_budget(&self, output: &mut String) -> Result<(), AllocError>
        ensures { OnOk result (
            string_bytes output.new ≡ string_bytes output.old ++ budget_text (setup_in self.now)) }
    {
        write_budget(output, &self.belief)
    }

    /// Appends the lines that end an answer: the shares and the standing.
    pub fn write_ending(&self, output: &mut String) -> Result<(), AllocError>
        ensures { (progress : JudgeProgress) → IsAt self.now progress → OnOk result (
            string_bytes output.new ≡ string_bytes output.old ++ ending (setup_in self.now) progress) }
    {
        write_shares(output, &self.belief, self.hypotheses)?;
        write_standing(output, self.standing)
    }
}

/// Where a search stands by what it believes.
fn standing(belief: &Belief, hypotheses: u16) -> JudgeStanding
    ensures { (runs : List Run) → StandsFor belief.now runs →
        result ≡ standing_by hypotheses (reached belief.now.setup runs) }
{
    match belief.reached() {
        None => JudgeStanding::Searching,
        Some(hypothesis) if hypothesis == hypotheses => JudgeStanding::NoCulprit,
        Some(position) => JudgeStanding::Named(position),
    }
}
