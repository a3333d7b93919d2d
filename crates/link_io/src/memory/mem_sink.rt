//! A sink in memory.
ghost use Rattle.std.specs.Prelude.{◌≡◌, ◌↔◌, ◌++◌, [], Some, length};
ghost use Rattle.common_types.specs.Counts.{Rose};
ghost use Rattle.link_io.specs.Intake.{no_intake};
ghost use Rattle.link_io.specs.Put.{IfPut, OnPutFailed};
ghost use Rattle.link_io.specs.FaultPlan.{fresh_plan, NextFails, plan_after_success, plan_after_fault};

use super::fault_plan::FaultPlan;
use crate::{Put, Sink};
use std::alloc::Global;
use std::marker::Model;

/// A sink that keeps its bytes in memory, and tells them. It fails at the calls that are listed, and takes every piece
/// whole otherwise, unless memory runs out.
///
/// Contracts see it as the bytes put, and the plan of the calls that are to fail.
#[derive(Drop)]
pub struct MemSink {
    bytes: Vec<u8>,
    plan: FaultPlan,
}

impl Model for MemSink {
    ghost use Rattle.link_io.specs.MemSink.{SinkInMemory};

    ghost Value = { SinkInMemory };

    ghost view = { λ s. record { bytes = s.bytes.items; plan = s.plan } };
}

impl MemSink {
    /// An empty sink. The puts whose numbers are in `fails` will fail, where the first put is number 1.
    pub fn of(alloc: Global, fails: Vec<u64>) -> MemSink
        ensures { result ≡ record { bytes = []; plan = fresh_plan fails.items } }
    {
        MemSink {
            bytes: Vec::new(alloc),
            plan: FaultPlan::of(fails),
        }
    }

    /// The bytes that were put.
    pub fn bytes(&self) -> &[u8]
        ensures { result.now ≡ self.now.bytes }
    {
        &self.bytes
    }
}

impl Sink for MemSink {
    ghost written = { λ s. Some s.bytes };

    ghost aside = { λ _. no_intake };

    ghost count = { λ s. s.plan.faults };

    fn faults(&self) -> u64 {
        self.plan.faults()
    }

    fn put(&mut self, bytes: &[u8]) -> Put
        // A put fails exactly where the plan says so, and then it only counts.
        ensures fails { (result ≡ Put.Failed) ↔ NextFails self.old.plan }
        ensures failed { OnPutFailed result
            (self.new ≡ record self.old { plan = plan_after_fault self.old.plan }) }
        ensures rises { OnPutFailed result (Rose self.old.plan.faults self.new.plan.faults) }

        // Any other takes the whole piece, unless memory runs out.
        ensures size { IfPut result (λ n. n ≡ length bytes.now) }
        ensures put { IfPut result (λ _. self.new
            ≡ record { bytes = self.old.bytes ++ bytes.now; plan = plan_after_success self.old.plan }) }
        ensures memory { result ≡ Put.Memory
            → self.new ≡ record self.old { plan = plan_after_success self.old.plan } }
    {
        if self.plan.next_fails() {
            return Put::Failed;
        }
        match self.bytes.extend_from_slice(bytes) {
            Ok(()) => Put::Put(bytes.len()),
            Err(_) => Put::Memory,
        }
    }
}
