//! A run line of an input.

ghost use Rattle.std.specs.Prelude.{◌≡◌};
ghost use Rattle.judge.specs.Form.{is_run, verdict_word};

use crate::words::Words;
use common_types::number;
use weight_exact::{Run, Verdict};

/// `run R K pass` or `run R K fail`: a run's number R, from 1, where it was and what it said.
#[derive(Clone, Copy)]
pub struct RunLine {
    /// R.
    pub number: u32,
    /// Where the run was, K, and what it said.
    pub run: Run,
}

impl RunLine {
    ghost use Rattle.judge.specs.Form.{run_line};

    /// What a line says of a run, in a search with so many suspects and after lines whose
    /// greatest run number is `greatest`, or 0.
    ///
    /// `None` where the line is outside the form, also where its run number is more than one
    /// above the greatest so far, and where its position is no suspect's.
    pub fn parse(suspects: u16, greatest: u32, line: &[u8]) -> Option<RunLine>
        ensures { result ≡ run_line suspects greatest line.now }
    {
        let mut words = Words::after(b"run", line)?;
        let run = words.next_number()?;
        let position = words.next_number()?;
        let verdict = verdict(words.next()?)?;
        if words.next().is_some() || !is_run(suspects, greatest, run, position) {
            return None;
        }
        Some(RunLine {
            number: run,
            run: Run {
                position: position as u16,
                verdict,
            },
        })
    }
}

/// Whether a run line may have these numbers.
fn is_run(suspects: u16, greatest: u32, run: u32, position: u32) -> bool
    ensures { result ≡ is_run suspects greatest run position }
{
    let follows = run >= 1 && run - 1 <= greatest;
    let is_suspect = position >= 1 && position <= u32::from(suspects);
    follows && is_suspect
}

/// The verdict that a word names.
fn verdict(word: &[u8]) -> Option<Verdict>
    ensures { result ≡ verdict_word word.now }
{
    match word {
        b"pass" => Some(Verdict::Pass),
        b"fail" => Some(Verdict::Fail),
        _ => None,
    }
}
