//! What the book keeps of one search.

ghost use Rattle.std.specs.Prelude.{◌≡◌, ◌+◌, ◌<◌, ◌^◌, length, OnOk, OnErr};
ghost use Rattle.weight_exact.specs.declared.run.Run.{Run};
ghost use Rattle.rates_report.specs.Noted.{AreFew, Noted, noted_at, started, told_below, told_in, told_in_all, with_run};

use crate::telling::{count_below, count_failed, count_failed_below};
use farm_entry::Standing;
use farm_types::{Memory, Name, Stage};
use std::alloc::Global;
use std::marker::Model;
use weight_exact::Run;

/// One search: its test, where it stands, and its runs and reruns that counted, each in the order of their reports.
#[derive(Drop)]
pub(crate) struct SearchNotes {
    test: Name,
    standing: Standing,
    runs: Vec<Run>,
    reruns: Vec<Run>,
}

impl Model for SearchNotes {
    ghost use Rattle.rates_report.specs.Noted.{Noted};

    ghost Value = { Noted };

    ghost view = { λ s. record { test = s.test; standing = s.standing; runs = s.runs.items; reruns = s.reruns.items } };
}

impl SearchNotes {
    /// A search that was just opened.
    pub(crate) fn start(alloc: Global, test: Name, standing: Standing) -> SearchNotes
        ensures { result ≡ started test standing }
    {
        SearchNotes {
            test,
            standing,
            runs: Vec::new(alloc),
            reruns: Vec::new(alloc),
        }
    }

    /// Its test.
    pub(crate) fn test(&self) -> &Name
        ensures { result.now ≡ self.now.test }
    {
        &self.test
    }

    /// Adds a run that counts at a stage.
    ///
    /// # Errors
    ///
    /// [`Memory`]. The search stays.
    pub(crate) fn add(&mut self, stage: Stage, run: Run) -> Result<(), Memory>
        ensures added { OnOk result (self.new ≡ with_run self.old stage run) }
        ensures kept { OnErr result (self.new ≡ self.old) }
    {
        match stage {
            Stage::Search => self.runs.push(run)?,
            Stage::Verify => self.reruns.push(run)?,
        }
        Ok(())
    }

    /// Takes away the run that was added last at a stage.
    pub(crate) fn take(&mut self, stage: Stage)
        ensures { (s : Noted) (r : Run) → self.old ≡ with_run s stage r → self.new ≡ s }
    {
        match stage {
            Stage::Search => {
                let _last = self.runs.pop();
            }
            Stage::Verify => {
                let _last = self.reruns.pop();
            }
        }
    }

    /// Says where it stands from now on.
    pub(crate) fn stand(&mut self, standing: Standing)
        ensures { self.new ≡ noted_at standing self.old }
    {
        self.standing = standing;
    }

    /// How often it failed, and how many runs it had, at trees that are sound, if its test is this one; else nothing.
    pub(crate) fn told_of(&self, test: &Name) -> (u64, u64)
        requires { length self.now.runs + length self.now.reruns < 2 ^ 32 }
        ensures { result ≡ told_in test.now self.now }
    {
        if &self.test != test {
            return (0, 0);
        }
        match self.standing {
            Standing::NoCulprit => (count_failed(&self.runs) as u64, self.runs.len() as u64),
            Standing::Confirmed(culprit) => self.told_below(culprit),
            _ => (0, 0),
        }
    }

    /// How many of its runs and reruns failed below a position, and how many were made there.
    fn told_below(&self, position: u16) -> (u64, u64)
        requires { length self.now.runs + length self.now.reruns < 2 ^ 32 }
        ensures { result ≡ told_below position self.now }
    {
        let failed = count_failed_below(&self.runs, position)
            + count_failed_below(&self.reruns, position);
        let runs = count_below(&self.runs, position) + count_below(&self.reruns, position);
        (failed as u64, runs as u64)
    }
}

/// How often searches failed, and how many runs they had, at trees that are sound, those of this test alone.
pub(crate) fn told_of_all(searches: &[SearchNotes], test: &Name) -> (u64, u64)
    requires few { AreFew searches.now }
    requires small { (told_in_all test.now searches.now).1 < 2 ^ 48 }
    ensures { result ≡ told_in_all test.now searches.now }
{
    let mut fails = 0;
    let mut runs = 0;
    for search in searches {
        let (failed, ran) = search.told_of(test);
        fails += failed;
        runs += ran;
    }
    (fails, runs)
}
