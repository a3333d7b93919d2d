//! Fault injection: which calls of a disk in memory are to fail.
ghost use Rattle.std.specs.Prelude.{◌≡◌, ◌≤◌, OnSome};
ghost use Rattle.common_types.specs.Counts.{Rose};
ghost use Rattle.farm_disk.specs.DiskFault.{kept_at, kept_next, plan_after};

use std::marker::Model;

/// A call of a disk that is to fail.
#[derive(Clone, Copy)]
pub struct DiskFail {
    /// Its number, counted from 1 since the disk was made, all kinds of call together but for `faults`.
    pub call: u64,
    /// How many bytes of it go through where it is a write. Where it has fewer, all of them do, and it fails all the
    /// same.
    pub kept: u32,
}

/// The calls of one disk that are to fail, and how many were made and were to fail. Each count stands still at
/// `u64::MAX`.
#[derive(Drop)]
pub(super) struct FaultPlan {
    fails: Vec<DiskFail>,
    calls: u64,
    faults: u64,
}

impl Model for FaultPlan {
    ghost use Rattle.farm_disk.specs.DiskFault.{PlannedFaults};

    ghost Value = { PlannedFaults };

    ghost view = { λ p. record { fails = p.fails.items; calls = p.calls; faults = p.faults } };
}

impl FaultPlan {
    /// A plan of which no call was made yet.
    pub(super) fn of(fails: Vec<DiskFail>) -> FaultPlan
        ensures { result ≡ record { fails = fails.items; calls = 0; faults = 0 } }
    {
        FaultPlan {
            fails,
            calls: 0,
            faults: 0,
        }
    }

    /// How many calls were to fail.
    pub(super) fn faults(&self) -> u64
        ensures { result ≡ self.now.faults }
    {
        self.faults
    }

    /// Counts the next call. Where it is to fail, answers how many bytes go through.
    pub(super) fn next(&mut self) -> Option<u32>
        ensures planned { result ≡ kept_next self.old }
        ensures counted { self.new ≡ plan_after (kept_next self.old) self.old }
        ensures never_falls { self.old.faults ≤ self.new.faults }
        ensures rises { OnSome result (Rose self.old.faults self.new.faults) }
    {
        self.calls = self.calls.saturating_add(1);
        let kept = find_kept(&self.fails, self.calls);
        if kept.is_some() {
            self.faults = self.faults.saturating_add(1);
        }
        kept
    }
}

// How many bytes go through at the call of this number, where it is to fail.
fn find_kept(fails: &[DiskFail], call: u64) -> Option<u32>
    ensures { result ≡ kept_at fails.now call }
{
    for fail in fails {
        if fail.call == call {
            return Some(fail.kept);
        }
    }
    None
}
