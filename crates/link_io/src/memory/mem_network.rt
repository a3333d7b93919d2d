//! A network in memory.
ghost use Rattle.std.specs.Prelude.{◌≡◌, ◌≤◌, ◌↔◌, ◌⊎◌, ◌∷◌, [], List, Some};
ghost use Rattle.common_types.specs.Counts.{Rose, next_count, count_with};
ghost use Rattle.link_io.specs.FaultPlan.{fresh_plan, NextFails, plan_after_success, plan_after_fault};
ghost use Rattle.link_io.specs.MemLink.{LinkInMemory, afresh};
ghost use Rattle.link_io.specs.Answers.{IfAccepted, OnEnd, OnAcceptFailed, IfConnected, OnConnectFailed};
ghost use Rattle.link_io.specs.Events.{
  accepted,
  accept_ended,
  accept_failed,
  connected,
  connect_failed,
  returned,
};
ghost use Rattle.link_io.specs.MemNetwork.{mem_link_state};

use crate::{Accepted, Connected, FaultPlan, MemLink, Network, Source};
use common_types::{Passed, ToldList};
use std::marker::Model;
use std::snapshot::Snapshot;

/// What the network did.
#[derive(Drop)]
enum Happened {
    Accepted,
    AcceptEnded,
    AcceptFailed,
    Connected,
    ConnectFailed,
    Returned(Snapshot<MemLink>),
}

/// A network that gives links in memory, in their order, and tells all that it did. It fails at the calls that are
/// listed.
///
/// Contracts see it as the links that it will give, the plan of the calls that are to fail, its count of faults, and
/// what it did.
#[derive(Drop)]
pub struct MemNetwork {
    accepts: Vec<MemLink>,
    connects: Vec<MemLink>,
    plan: FaultPlan,
    faults: u64,
    past: ToldList<Happened>,
}

impl Model for MemNetwork {
    ghost use Rattle.std.specs.Prelude.{map};
    ghost use Rattle.link_io.specs.MemNetwork.{NetworkInMemory, event_of};

    ghost Value = { NetworkInMemory };

    ghost view = { λ n. record {
      accepts = n.accepts.items;
      connects = n.connects.items;
      plan = n.plan;
      count = n.faults;
      told = map event_of n.past;
    } };
}

impl MemNetwork {
    /// A network that gives the links of `accepts` to accepts and those of `connects` to connects, each as it was
    /// before its first call. The calls whose numbers are in `fails` will fail, accepts and connects counted together
    /// from 1; they use up no link. An accept past the last link answers that no more will come, and a connect past it
    /// fails.
    pub fn of(accepts: Vec<MemLink>, connects: Vec<MemLink>, fails: Vec<u64>) -> MemNetwork
        ensures { result ≡ record {
          accepts = accepts.items;
          connects = connects.items;
          plan = fresh_plan fails.items;
          count = 0;
          told = [];
        } }
    {
        MemNetwork {
            accepts,
            connects,
            plan: FaultPlan::of(fails),
            faults: 0,
            past: ToldList::new(),
        }
    }
}

impl Network for MemNetwork {
    type Over = Passed;

    type End = MemLink;

    ghost told = { λ n. Some n.told };

    ghost count = { λ n. n.count };

    fn faults(&self) -> u64 {
        self.faults
    }

    fn accept(&mut self) -> Accepted<MemLink>
        // An accept fails exactly where the plan says so, and then it gives no link.
        ensures fails { (result ≡ Accepted.Failed) ↔ NextFails self.old.plan }
        ensures failed { OnAcceptFailed result (self.new ≡ record self.old {
          plan = plan_after_fault self.old.plan;
          count = next_count self.old.count;
          told = accept_failed ∷ self.old.told;
        }) }
        ensures rises { OnAcceptFailed result (Rose self.old.count self.new.count) }

        // Any other gives the next link, as it was before its first call, while there is one.
        ensures linked { IfAccepted result (λ link. (next : LinkInMemory) × (rest : List LinkInMemory)
            × (self.old.accepts ≡ next ∷ rest) × (link ≡ afresh next) × (self.new ≡ record self.old {
              accepts = rest;
              plan = plan_after_success self.old.plan;
              told = accepted ∷ self.old.told;
            })) }
        ensures ended { OnEnd result ((self.old.accepts ≡ []) × (self.new ≡ record self.old {
          plan = plan_after_success self.old.plan;
          told = accept_ended ∷ self.old.told;
        })) }
    {
        if self.plan.next_fails() {
            self.faults = self.faults.saturating_add(1);
            self.past.tell(&Happened::AcceptFailed);
            return Accepted::Failed;
        }
        if self.accepts.is_empty() {
            self.past.tell(&Happened::AcceptEnded);
            return Accepted::End;
        }
        let link = self.accepts.remove(0);
        self.past.tell(&Happened::Accepted);
        Accepted::Linked(link.afresh())
    }

    fn stop_accepting(&mut self) {}

    fn connect(&mut self) -> Connected<MemLink>
        // A connect gives the next link, as it was before its first call, where the plan lets it and there is one.
        ensures linked { IfConnected result (λ link. (next : LinkInMemory) × (rest : List LinkInMemory)
            × (self.old.connects ≡ next ∷ rest) × (link ≡ afresh next) × (self.new ≡ record self.old {
              connects = rest;
              plan = plan_after_success self.old.plan;
              told = connected ∷ self.old.told;
            })) }

        // Any other fails, and then it gives no link.
        ensures fails { (result ≡ Connected.Failed) ↔ (NextFails self.old.plan ⊎ (self.old.connects ≡ [])) }
        ensures failed { OnConnectFailed result (self.new ≡ record self.old {
          plan = self.new.plan;
          count = next_count self.old.count;
          told = connect_failed ∷ self.old.told;
        }) }
        ensures listed { NextFails self.old.plan → self.new.plan ≡ plan_after_fault self.old.plan }
        ensures unlisted { (NextFails self.old.plan → ⊥) → self.new.plan ≡ plan_after_success self.old.plan }
        ensures rises { OnConnectFailed result (Rose self.old.count self.new.count) }
    {
        let fails = self.plan.next_fails();
        if fails || self.connects.is_empty() {
            self.faults = self.faults.saturating_add(1);
            self.past.tell(&Happened::ConnectFailed);
            return Connected::Failed;
        }
        let link = self.connects.remove(0);
        self.past.tell(&Happened::Connected);
        Connected::Linked(link.afresh())
    }

    fn finish(_link: &mut MemLink) {}

    fn done(&mut self, link: MemLink)
        ensures returned { self.new ≡ record self.old {
          count = count_with self.old.count link.plan.faults;
          told = returned (mem_link_state link) ∷ self.old.told;
        } }
        ensures never_falls { self.old.count ≤ self.new.count }
    {
        self.faults = self.faults.saturating_add(link.faults());
        self.past.tell(&Happened::Returned(Snapshot::of(&link)));
    }
}
