//! A worker between its steps.
ghost use Rattle.std.specs.Prelude.{◌≡◌, ◌≤◌, true, false, ℕ, List, Option, Some, OnOk, IsErrOf};
ghost use Rattle.farm_types.specs.declared.key.Key.{Key};
ghost use Rattle.common_types.specs.Counts.{Rose};
ghost use Rattle.link_io.specs.Telling.{add_told};
ghost use Rattle.link_io.specs.Events.{NetworkEvent};
ghost use Rattle.worker_core.specs.Core.{IsCore};
ghost use Rattle.worker_core.specs.Runs.{Asked, OnRunFailed};
ghost use Rattle.worker_agent.specs.Agent.{AsksLease, AsksRunner, Finishes, IsActive, IsOther, IsTest, StepSays};
ghost use Rattle.worker_agent.specs.Steps.{agent_after, agent_start};

use crate::reply::{is_network, lease_reply, lost_status, report_event};
use crate::{LeaseAnswer, WorkFault, Worked, lease_request, report_request};
use farm_types::{Key, Name};
use http_exchange::{Sent, send_once};
use link_io::Network;
use std::alloc::Global;
use std::marker::Model;
use worker_core::{Action, End, Event, KeySource, Ran, Runner, Tested, WorkerCore};

/// A worker that has begun: its core with the action that is to be done, the lease that it had last, and whether its
/// last request met a fault of the network.
#[derive(Drop)]
pub(crate) struct Agent {
    core: WorkerCore,
    action: Action,
    lease: Option<LeaseAnswer>,
    faulted: bool,
}

impl Model for Agent {
    ghost use Rattle.worker_agent.specs.Agent.{IsAgent};
    ghost use Rattle.worker_agent.specs.Steps.{AgentState};

    ghost Value = { AgentState };

    ghost view = { λ a. record { core = a.core; lease = a.lease; faulted = a.faulted } };

    ghost invariant = { λ a. IsAgent a.core.last a.action a.lease };
}

impl Agent {
    /// A worker that is to take so many leases.
    pub(crate) fn start(runs: u32) -> Agent
        requires { 1 ≤ runs }
        ensures { result ≡ agent_start runs }
    {
        let mut core = WorkerCore::start(runs);
        let action = core.step(Event::Begin);
        Agent {
            core,
            action,
            lease: None,
            faulted: false,
        }
    }

    /// What is to be done.
    pub(crate) fn action(&self) -> Action
        ensures action { self.now.core.last ≡ Some result }
        ensures core { IsCore self.now.core.left self.now.core.lost self.now.core.last }
    {
        let _left = self.core.left();
        self.action
    }

    /// Does what is to be done.
    pub(crate) fn step<N: Network, R: Runner, Q: KeySource>(
        &mut self,
        alloc: Global,
        network: &mut N,
        runner: &mut R,
        keys: &mut Q,
        worker: &Name,
    ) -> Result<(), WorkFault>
        requires { IsActive self.old.core.last }
        ensures says { StepSays worker.now self.old self.new
            (record { network = N.told network.old; runner = R.told runner.old; keys = Q.told keys.old })
            (record { network = N.told network.new; runner = R.told runner.new; keys = Q.told keys.new }) result }
        ensures rises { OnOk result (self.new.faulted ≡ true → Rose (N.count network.old) (N.count network.new)) }
        ensures gives_up { IsErrOf result WorkFault.NetFault → ⊥ }
        ensures failed { IsErrOf result WorkFault.RunnerFault → Rose (R.count runner.old) (R.count runner.new) }
        ensures network_count { N.count network.old ≤ N.count network.new }
        ensures runner_count { R.count runner.old ≤ R.count runner.new }
    {
        match self.action {
            Action::Draw => {
                self.draw(keys);
                Ok(())
            }
            Action::AskLease(key) => self.ask_lease(alloc, network, key, worker),
            Action::RunTest(_) => self.run_test(runner),
            Action::SendReport(run, tested) => self.report(alloc, network, run, tested),
            Action::Stop(_) => Ok(()),
        }
    }

    fn draw<Q: KeySource>(&mut self, keys: &mut Q)
        requires { self.old.core.last ≡ Some Action.Draw }
        ensures drew { (key : Key) × (Q.told keys.new ≡ add_told key (Q.told keys.old))
            × (self.new ≡ agent_after self.old self.old.lease (Event.Drew key) false) }
    {
        self.note(Event::Drew(keys.next()), false);
    }

    fn ask_lease<N: Network>(
        &mut self,
        alloc: Global,
        network: &mut N,
        key: Key,
        worker: &Name,
    ) -> Result<(), WorkFault>
        requires { self.old.core.last ≡ Some (Action.AskLease key) }
        ensures says { (runner : Option (List Asked)) (keys : Option (List Key)) → StepSays worker.now self.old self.new
            (record { network = N.told network.old; runner = runner; keys = keys })
            (record { network = N.told network.new; runner = runner; keys = keys }) result }
        ensures rises { OnOk result (self.new.faulted ≡ true → Rose (N.count network.old) (N.count network.new)) }
        ensures unfailed { IsErrOf result WorkFault.RunnerFault → ⊥ }
        ensures never_falls { N.count network.old ≤ N.count network.new }
    {
        let request = lease_request(alloc, key, worker)?;
        let sent = send_once(alloc, network, &request)?;
        let faulted = is_network(&sent);
        match sent {
            Sent::Answered(response) => match lease_reply(alloc, &response)? {
                Some(lease) => {
                    self.hold(lease);
                    Ok(())
                }
                None => {
                    self.note(Event::Nothing, false);
                    Ok(())
                }
            },
            Sent::Lost(lost) => {
                self.note(Event::Lost(lost_status(lost)), faulted);
                Ok(())
            }
        }
    }

    fn report<N: Network>(
        &mut self,
        alloc: Global,
        network: &mut N,
        run: u32,
        tested: Tested,
    ) -> Result<(), WorkFault>
        requires { self.old.core.last ≡ Some (Action.SendReport run tested) }
        ensures says { (worker : List ℕ) (runner : Option (List Asked)) (keys : Option (List Key)) → StepSays worker self.old self.new
            (record { network = N.told network.old; runner = runner; keys = keys })
            (record { network = N.told network.new; runner = runner; keys = keys }) result }
        ensures rises { OnOk result (self.new.faulted ≡ true → Rose (N.count network.old) (N.count network.new)) }
        ensures unfailed { IsErrOf result WorkFault.RunnerFault → ⊥ }
        ensures never_falls { N.count network.old ≤ N.count network.new }
    {
        let request = report_request(alloc, run, tested)?;
        let sent = send_once(alloc, network, &request)?;
        let event = report_event(alloc, &sent)?;
        self.note(event, is_network(&sent));
        Ok(())
    }

    fn run_test<R: Runner>(&mut self, runner: &mut R) -> Result<(), WorkFault>
        requires { IsTest self.old.core.last }
        ensures says { (worker : List ℕ) (network : Option (List NetworkEvent)) (keys : Option (List Key)) → StepSays worker self.old self.new
            (record { network = network; runner = R.told runner.old; keys = keys })
            (record { network = network; runner = R.told runner.new; keys = keys }) result }
        ensures unfaulted { OnOk result (self.new.faulted ≡ false) }
        ensures failed { IsErrOf result WorkFault.RunnerFault → Rose (R.count runner.old) (R.count runner.new) }
        ensures never_falls { R.count runner.old ≤ R.count runner.new }
    {
        match self.ask_runner(runner) {
            Ran::Tested(tested) => {
                self.note(Event::Ran(tested), false);
                Ok(())
            }
            Ran::Failed => Err(WorkFault::RunnerFault),
        }
    }

    /// Has the test of its lease run.
    fn ask_runner<R: Runner>(&self, runner: &mut R) -> Ran
        requires { IsTest self.now.core.last }
        ensures asked { AsksRunner self.now.core.last self.now.lease (R.told runner.old) (R.told runner.new) result }
        ensures rises { OnRunFailed result (Rose (R.count runner.old) (R.count runner.new)) }
        ensures never_falls { R.count runner.old ≤ R.count runner.new }
    {
        match &self.lease {
            Some(lease) => runner.run(&lease.test, &lease.commit),
            None => unreachable!(),
        }
    }

    /// Goes on by what came of the action, which brings no lease.
    fn note(&mut self, event: Event, faulted: bool)
        requires { IsOther event }
        ensures { self.new ≡ agent_after self.old self.old.lease event faulted }
    {
        self.action = self.core.step(event);
        self.faulted = faulted;
    }

    /// Keeps the lease that was asked for, and goes on by it.
    fn hold(&mut self, lease: LeaseAnswer)
        requires { AsksLease self.old.core.last }
        ensures { self.new ≡ agent_after self.old (Some lease) (Event.Leased lease.run) false }
    {
        let run = lease.run;
        self.lease = Some(lease);
        self.action = self.core.step(Event::Leased(run));
        self.faulted = false;
    }

    /// What a worker that has stopped so answers, which was to take so many leases.
    pub(crate) fn finish(&self, end: End, runs: u32) -> Result<Worked, WorkFault>
        requires stopped { self.now.core.last ≡ Some (Action.Stop end) }
        requires few { self.now.core.left ≤ runs }
        ensures { Finishes self.now runs result }
    {
        let leased = runs - self.core.left();
        match end {
            End::Idle => Ok(worked(leased, true)),
            End::Limit => Ok(worked(leased, false)),
            End::Peer(_) if self.faulted => Err(WorkFault::NetFault),
            End::Peer(status) => Err(WorkFault::Peer(status)),
        }
    }
}

/// A worker that stops but for a lost request has reported each lease that it took.
fn worked(leased: u32, idle: bool) -> Worked
    ensures { result ≡ record { leased = leased; reported = leased; idle = idle } }
{
    Worked {
        leased,
        reported: leased,
        idle,
    }
}
