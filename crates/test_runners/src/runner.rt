//! The runner that a worker is told to use.
ghost use Rattle.std.specs.Prelude.{◌≡◌, ◌≤◌, None};
ghost use Rattle.common_types.specs.Counts.{Rose};
ghost use Rattle.worker_core.specs.Runs.{OnRunFailed};
ghost use Rattle.test_runners.specs.Runners.{Asks, by_host, by_nothing, by_table, origin_of, ran_by, runner_faults};

use crate::host::ask_host;
use crate::table::Table;
use farm_types::{CommitId, Name};
use link_io::Network;
use worker_core::{Ran, Runner, Tested};

/// Who says what comes of a test.
#[derive(Drop)]
enum Origin<N: Network + Drop> {
    Nothing,
    Table(Table),
    Host(N),
}

/// A runner that says of a test what a table says, or a test host, or nothing. A run of which nothing is said fails. It
/// tells nothing of its answers.
#[derive(Drop)]
pub struct TestRunner<N: Network + Drop> {
    origin: Origin<N>,
    faults: u64,
}

impl<N: Network + Drop> TestRunner<N> {
    /// A runner whose every run fails.
    pub fn nothing() -> TestRunner<N>
        ensures origin { origin_of result ≡ by_nothing }
        ensures faults { runner_faults result ≡ 0 }
    {
        TestRunner {
            origin: Origin::Nothing,
            faults: 0,
        }
    }

    /// A runner that says what a table does. A test at a commit of which there is no row fails to run.
    pub fn table(table: Table) -> TestRunner<N>
        ensures origin { origin_of result ≡ by_table table }
        ensures faults { runner_faults result ≡ 0 }
    {
        TestRunner {
            origin: Origin::Table(table),
            faults: 0,
        }
    }

    /// A runner that asks the test host behind a network, over a connection of its own for each run: it puts the line
    /// of the commit's id in digits, a space and the test's name, and takes the line `pass`, `fail` or
    /// `skip`. Any other answer, and none, fails.
    pub fn host(network: N) -> TestRunner<N>
        ensures origin { origin_of result ≡ by_host network }
        ensures faults { runner_faults result ≡ 0 }
    {
        TestRunner {
            origin: Origin::Host(network),
            faults: 0,
        }
    }

    /// What is said of a test at a commit, if anything is.
    fn tested(&mut self, test: &Name, commit: &CommitId) -> Option<Tested>
        ensures asks { Asks N.told test.now commit.now (origin_of self.old) (origin_of self.new) (ran_by result) }
        ensures faults { runner_faults self.new ≡ runner_faults self.old }
    {
        match &mut self.origin {
            Origin::Nothing => None,
            Origin::Table(table) => table.tested(test, commit),
            Origin::Host(network) => ask_host(network, test, commit),
        }
    }
}

impl<N: Network + Drop> Runner for TestRunner<N> {
    ghost told = { λ _. None };

    ghost count = { runner_faults };

    fn faults(&self) -> u64 {
        self.faults
    }

    fn run(&mut self, test: &Name, commit: &CommitId) -> Ran
        ensures asks { Asks N.told test.now commit.now (origin_of self.old) (origin_of self.new) result }
        ensures rises { OnRunFailed result (Rose (runner_faults self.old) (runner_faults self.new)) }
        ensures never_falls { runner_faults self.old ≤ runner_faults self.new }
    {
        match self.tested(test, commit) {
            Some(tested) => Ran::Tested(tested),
            None => {
                self.faults = self.faults.saturating_add(1);
                Ran::Failed
            }
        }
    }
}
