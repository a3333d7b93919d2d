//! The state of a worker.

ghost use Rattle.std.specs.Prelude.{◌≡◌, ◌-◌, ◌==◌, ◌≤◌, if◌then◌else◌, Some};
ghost use Rattle.worker_core.specs.Core.{HasLeases, IsCore};
ghost use Rattle.worker_core.specs.Steps.{act, core_start, core_step, lose};

use crate::{Action, End, Event};
use std::marker::Model;

/// How often a request is sent before the worker gives up.
pub const MAX_TRIES: u8 = 3;

/// A worker between two actions.
#[derive(Drop)]
pub struct WorkerCore {
    left: u32,
    lost: u8,
    last: Option<Action>,
}

impl Model for WorkerCore {
    ghost use Rattle.worker_core.specs.Core.{Core, IsCore};

    ghost Value = { Core };

    ghost view = { λ w. record { left = w.left; lost = w.lost; last = w.last } };

    ghost invariant = { λ w. IsCore w.left w.lost w.last };
}

impl WorkerCore {
    /// A worker that did nothing yet, and is to take so many leases.
    pub fn start(runs: u32) -> WorkerCore
        requires { 1 ≤ runs }
        ensures { result ≡ core_start runs }
    {
        WorkerCore {
            left: runs,
            lost: 0,
            last: None,
        }
    }

    /// How many leases it may still take.
    pub fn left(&self) -> u32
        ensures left { result ≡ self.now.left }
        ensures core { IsCore self.now.left self.now.lost self.now.last }
    {
        self.left
    }

    /// What the worker does after an event. The first action is to draw a key, whatever the event. After that, an
    /// event that doesn't fit the last action gives that action again and changes nothing. A lost request is sent
    /// again as it was, [`MAX_TRIES`] times in all.
    pub fn step(&mut self, event: Event) -> Action
        ensures action { result ≡ (core_step self.old event).action }
        ensures state { self.new ≡ (core_step self.old event).core }
    {
        match (self.last, event) {
            (None, _) => self.act(Action::Draw),
            (Some(Action::Draw), Event::Drew(key)) => self.act(Action::AskLease(key)),
            (Some(Action::AskLease(_)), Event::Leased(run)) => self.take_lease(run),
            (Some(Action::AskLease(_)), Event::Nothing) => self.act(Action::Stop(End::Idle)),
            (Some(Action::AskLease(key)), Event::Lost(status)) => {
                self.retry(Action::AskLease(key), status)
            }
            (Some(Action::RunTest(run)), Event::Ran(tested)) => {
                self.act(Action::SendReport(run, tested))
            }
            (Some(Action::SendReport(_, _)), Event::Noted) => self.go_on(),
            (Some(Action::SendReport(run, tested)), Event::Lost(status)) => {
                self.retry(Action::SendReport(run, tested), status)
            }
            (Some(last), _) => last,
        }
    }

    /// Does this next.
    fn act(&mut self, action: Action) -> Action
        requires { HasLeases self.old.left (Some action) }
        ensures action { result ≡ action }
        ensures state { self.new ≡ (act self.old.left action).core }
    {
        self.lost = 0;
        self.last = Some(action);
        action
    }

    /// Takes one lease, and runs its test next.
    fn take_lease(&mut self, run: u32) -> Action
        requires { 1 ≤ self.old.left }
        ensures action { result ≡ Action.RunTest run }
        ensures state { self.new ≡ (act (self.old.left - 1) (Action.RunTest run)).core }
    {
        self.left -= 1;
        self.lost = 0;
        self.last = Some(Action::RunTest(run));
        Action::RunTest(run)
    }

    /// Sends a lost request again, or stops if this was its last try.
    fn retry(&mut self, request: Action, status: u16) -> Action
        requires { HasLeases self.old.left (Some request) }
        ensures action { result ≡ (lose self.old.left self.old.lost request status).action }
        ensures state { self.new ≡ (lose self.old.left self.old.lost request status).core }
    {
        if self.lost + 1 < MAX_TRIES {
            self.lost += 1;
            self.last = Some(request);
            request
        } else {
            self.act(Action::Stop(End::Peer(status)))
        }
    }

    /// Begins the next lease, if one is left.
    fn go_on(&mut self) -> Action
        ensures action { result ≡ (if self.old.left == 0 then Action.Stop End.Limit else Action.Draw) }
        ensures state { self.new ≡ (act self.old.left result).core }
    {
        if self.left == 0 {
            self.act(Action::Stop(End::Limit))
        } else {
            self.act(Action::Draw)
        }
    }
}
