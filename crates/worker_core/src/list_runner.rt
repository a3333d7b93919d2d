//! A runner in memory.
ghost use Rattle.std.specs.Prelude.{◌≡◌, ◌↔◌, ◌⊎◌, ◌∷◌, [], Some};
ghost use Rattle.common_types.specs.Counts.{Rose, next_count};
ghost use Rattle.link_io.specs.FaultPlan.{fresh_plan, NextFails, plan_after_success, plan_after_fault};
ghost use Rattle.worker_core.specs.Runs.{asked, IfTested, OnRunFailed};

use crate::{Ran, Runner, Tested};
use common_types::ToldList;
use farm_types::{CommitId, Name};
use link_io::FaultPlan;
use std::marker::Model;
use std::snapshot::Snapshot;

/// What was asked and answered.
#[derive(Drop)]
struct Told {
    test: Snapshot<Name>,
    commit: Snapshot<CommitId>,
    ran: Ran,
}

impl Told {
    ghost use Rattle.worker_core.specs.Lists.{asked_of};

    fn of(test: &Name, commit: &CommitId, ran: Ran) -> Told
        ensures { asked_of result ≡ asked test.now commit.now ran }
    {
        Told {
            test: Snapshot::of(test),
            commit: Snapshot::of(commit),
            ran,
        }
    }
}

/// A runner that answers by a list, whatever it is asked, and tells all that it did. It fails at the calls that are
/// listed, and at each call past the end of its list.
///
/// Contracts see it as what it will say of tests, the plan of the calls that are to fail, its count of faults, and
/// what it told.
#[derive(Drop)]
pub struct ListRunner {
    tested: Vec<Tested>,
    plan: FaultPlan,
    faults: u64,
    past: ToldList<Told>,
}

impl Model for ListRunner {
    ghost use Rattle.std.specs.Prelude.{map};
    ghost use Rattle.worker_core.specs.Lists.{RunnerInMemory, asked_of};

    ghost Value = { RunnerInMemory };

    ghost view = { λ r. record {
      tested = r.tested.items;
      plan = r.plan;
      count = r.faults;
      told = map asked_of r.past;
    } };
}

impl ListRunner {
    /// A runner that says these of tests, in their order. The calls whose numbers are in `fails` will fail, counted
    /// from 1; they use up none of them.
    pub fn of(tested: Vec<Tested>, fails: Vec<u64>) -> ListRunner
        ensures { result ≡ record {
          tested = tested.items;
          plan = fresh_plan fails.items;
          count = 0;
          told = [];
        } }
    {
        ListRunner {
            tested,
            plan: FaultPlan::of(fails),
            faults: 0,
            past: ToldList::new(),
        }
    }
}

impl Runner for ListRunner {
    ghost told = { λ r. Some r.told };

    ghost count = { λ r. r.count };

    fn faults(&self) -> u64 {
        self.faults
    }

    fn run(&mut self, test: &Name, commit: &CommitId) -> Ran
        // A run says the next one, where the plan lets it and there is one.
        ensures tested { IfTested result (λ t. self.old.tested ≡ t ∷ self.new.tested) }
        ensures passes { IfTested result (λ _. self.new ≡ record self.old {
          tested = self.new.tested;
          plan = plan_after_success self.old.plan;
          told = self.new.told;
        }) }

        // Any other fails, and then it uses up none.
        ensures fails { (result ≡ Ran.Failed) ↔ (NextFails self.old.plan ⊎ (self.old.tested ≡ [])) }
        ensures failed { OnRunFailed result (self.new ≡ record self.old {
          plan = self.new.plan;
          count = next_count self.old.count;
          told = self.new.told;
        }) }
        ensures listed { NextFails self.old.plan → self.new.plan ≡ plan_after_fault self.old.plan }
        ensures unlisted { (NextFails self.old.plan → ⊥) → self.new.plan ≡ plan_after_success self.old.plan }
        ensures rises { OnRunFailed result (Rose self.old.count self.new.count) }

        // Either is told.
        ensures told { self.new.told ≡ asked test.now commit.now result ∷ self.old.told }
    {
        let fails = self.plan.next_fails();
        if fails || self.tested.is_empty() {
            self.faults = self.faults.saturating_add(1);
            self.past.tell(&Told::of(test, commit, Ran::Failed));
            return Ran::Failed;
        }
        let ran = Ran::Tested(self.tested.remove(0));
        self.past.tell(&Told::of(test, commit, ran));
        ran
    }
}
