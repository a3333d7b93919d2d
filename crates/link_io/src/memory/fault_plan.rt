//! Fault injection: which calls of an object in memory are to fail.
ghost use Rattle.std.specs.Prelude.{◌≡◌, ◌↔◌, IsTrue, MatchBool};
ghost use Rattle.common_types.specs.Counts.{Rose};
ghost use Rattle.link_io.specs.FaultPlan.{fresh_plan, NextFails, plan_after_success, plan_after_fault};

use std::marker::Model;

/// The calls of one object that are to fail, counted from 1, and how many were made and failed. Each count stands
/// still at `u64::MAX`.
#[derive(Drop)]
pub struct FaultPlan {
    fails: Vec<u64>,
    calls: u64,
    faults: u64,
}

impl Model for FaultPlan {
    ghost use Rattle.link_io.specs.FaultPlan.{PlannedFaults};

    ghost Value = { PlannedFaults };

    ghost view = { λ p. record { fails = p.fails.items; calls = p.calls; faults = p.faults } };
}

impl FaultPlan {
    /// A plan of which no call was made yet.
    pub fn of(fails: Vec<u64>) -> FaultPlan
        ensures { result ≡ fresh_plan fails.items }
    {
        FaultPlan {
            fails,
            calls: 0,
            faults: 0,
        }
    }

    /// The plan as it was before the first call.
    pub fn afresh(self) -> FaultPlan
        ensures { result ≡ fresh_plan self.fails }
    {
        FaultPlan::of(self.fails)
    }

    /// How many calls were made.
    pub fn calls(&self) -> u64
        ensures { result ≡ self.now.calls }
    {
        self.calls
    }

    /// How many calls failed.
    pub fn faults(&self) -> u64
        ensures { result ≡ self.now.faults }
    {
        self.faults
    }

    /// Counts the next call, and says whether it is to fail.
    pub fn next_fails(&mut self) -> bool
        ensures listed { IsTrue result ↔ NextFails self.old }
        ensures counted { MatchBool result
            (self.new ≡ plan_after_fault self.old) (self.new ≡ plan_after_success self.old) }
        ensures rises { IsTrue result → Rose self.old.faults self.new.faults }
    {
        self.calls = self.calls.saturating_add(1);
        let fails = self.fails.contains(&self.calls);
        if fails {
            self.faults = self.faults.saturating_add(1);
        }
        fails
    }
}
