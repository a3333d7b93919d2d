//! A worker of a drill.
ghost use Rattle.std.specs.Prelude.{◌≡◌, Ok, Some, None, List, IfOk, IfSome};
ghost use Rattle.farm_entry.specs.declared.entry.Entry.{Entry as FarmEntry};
ghost use Rattle.turn_lock.specs.Known.{IsReady};
ghost use Rattle.drill_plan.specs.Plan.{planned_verdict};
ghost use Rattle.farm_drill.specs.Passes.{IsByPlan, KeepsPlan};
ghost use Rattle.farm_drill.specs.Planned.{AsksByPlan};
ghost use Rattle.farm_drill.specs.Work.{ActsByPlan, CameByPlan, IsLease, IsRun, IsTestedByPlan, TakesLease};

use crate::farm::DrillFarm;
use crate::names::{drill_moment, worker_name};
use drill_plan::planned_verdict;
use farm_entry::{Command, LeasedRun, MAX_ENTRIES, Refusal};
use farm_store::CallFault;
use farm_types::{Key, Memory};
use shared_farm::Pass;
use std::alloc::Global;
use std::sync::Wait;
use worker_core::{Action, Event, Tested, WorkerCore};

/// How a worker came to its end.
#[derive(Clone, Copy)]
pub(crate) enum Ended {
    /// No run was due, or the farm refused what it didn't refuse to a worker before.
    Done,
    /// Out of memory.
    Memory,
}

impl Ended {
    /// How two workers came to their end: out of memory where one of them did.
    pub(crate) fn and(self, other: Ended) -> Ended {
        match self {
            Ended::Done => other,
            Ended::Memory => Ended::Memory,
        }
    }
}

impl From<CallFault> for Ended {
    ghost from_gives = { λ _ _. Unit {0} };

    fn from(fault: CallFault) -> Ended {
        match fault {
            CallFault::Memory => Ended::Memory,
            _ => Ended::Done,
        }
    }
}

/// The run that a worker leased last: its search, and its position there.
#[derive(Clone, Copy)]
pub(crate) struct Held {
    pub(crate) search: u32,
    pub(crate) position: u16,
}

/// A worker: its number, how it leases, how many keys it has drawn, and the run that it leased last.
#[derive(Drop)]
pub(crate) struct Worker {
    number: u32,
    /// The command by which it leases, under the key that it drew last.
    request: Command,
    core: WorkerCore,
    drawn: u64,
    held: Option<Held>,
}

impl Worker {
    /// A worker that did nothing yet, and leases as many runs as a farm may hand out.
    fn start(alloc: Global, number: u32) -> Result<Worker, Memory>
        ensures last { IfOk result (λ worker. worker.core.last ≡ None) }
        ensures asks { IfOk result (λ worker. IsLease worker.request) }
    {
        Ok(Worker {
            number,
            request: Command::Lease {
                key: Key(0),
                worker: worker_name(alloc, number)?,
            },
            core: WorkerCore::start(MAX_ENTRIES as u32),
            drawn: 0,
            held: None,
        })
    }

    /// Leases, runs and reports until no run is due. What it reports of a run is what the plan says of it.
    fn run<R: Wait>(&mut self, rt: &R, alloc: Global, farm: &DrillFarm, pass: &mut Pass) -> Ended
        requires ready { IsReady farm.now pass.old }
        requires by_plan { IsByPlan pass.old }
        requires last { self.old.core.last ≡ None }
        requires asks { IsLease self.old.request }
        ensures ready { IsReady farm.entry.now pass.new }
        ensures keeps { KeepsPlan pass.old pass.new }
    {
        let mut event = Event::Begin;
        for _ in rt.forever() {
            let action = self.core.step(event);
            match self.act(rt, alloc, farm, pass, action) {
                Ok(next) => event = next,
                Err(ended) => return ended,
            }
        }
        unreachable!()
    }

    /// Does what is next, and says what came of it.
    fn act<R: Wait>(
        &mut self,
        rt: &R,
        alloc: Global,
        farm: &DrillFarm,
        pass: &mut Pass,
        action: Action,
    ) -> Result<Event, Ended>
        requires ready { IsReady farm.now pass.old }
        requires by_plan { IsByPlan pass.old }
        requires acts { ActsByPlan pass.old.seen self.old.held (Some action) }
        requires asks { IsLease self.old.request }
        ensures ready { IsReady farm.entry.now pass.new }
        ensures keeps { KeepsPlan pass.old pass.new }
        ensures core { self.new.core ≡ self.old.core }
        ensures asks { IsLease self.new.request }
        ensures acts { ActsByPlan pass.new.seen self.new.held (Some action) }
        ensures came { IfOk result (CameByPlan pass.new.seen self.new.held (Some action)) }
    {
        match action {
            Action::Draw => Ok(Event::Drew(self.draw())),
            Action::AskLease(key) => self.lease(rt, alloc, farm, pass, key),
            Action::RunTest(_) => self.test(),
            Action::SendReport(run, tested) => report(rt, alloc, farm, pass, run, tested),
            Action::Stop(_) => Err(Ended::Done),
        }
    }

    /// The next key: the worker's number in the high half, and the number of the key in the low one.
    fn draw(&mut self) -> Key
        ensures core { self.new.core ≡ self.old.core }
        ensures held { self.new.held ≡ self.old.held }
        ensures request { self.new.request ≡ self.old.request }
    {
        self.drawn = self.drawn.saturating_add(1);
        Key((u128::from(self.number) << 64) | u128::from(self.drawn))
    }

    /// Puts a key into the command by which it leases.
    fn put_key(&mut self, key: Key)
        requires { IsLease self.old.request }
        ensures asks { IsLease self.new.request }
        ensures core { self.new.core ≡ self.old.core }
    {
        if let Command::Lease { key: last, .. } = &mut self.request {
            *last = key;
        }
    }

    /// Asks for a run.
    fn lease<R: Wait>(
        &mut self,
        rt: &R,
        alloc: Global,
        farm: &DrillFarm,
        pass: &mut Pass,
        key: Key,
    ) -> Result<Event, Ended>
        requires ready { IsReady farm.now pass.old }
        requires by_plan { IsByPlan pass.old }
        requires asks { IsLease self.old.request }
        ensures ready { IsReady farm.entry.now pass.new }
        ensures keeps { KeepsPlan pass.old pass.new }
        ensures core { self.new.core ≡ self.old.core }
        ensures asks { IsLease self.new.request }
        ensures came { IfOk result (CameByPlan pass.new.seen self.new.held (Some (Action.AskLease key))) }
    {
        self.put_key(key);
        match farm.enter(rt, alloc, pass, &self.request, drill_moment()) {
            Ok(run) => self.take(run),
            Err(CallFault::Refused(Refusal::NoRun)) => Ok(Event::Nothing),
            Err(fault) => Err(Ended::from(fault)),
        }
    }

    /// Takes the run that was handed out, if one was.
    fn take(&mut self, run: Option<LeasedRun>) -> Result<Event, Ended>
        ensures takes { TakesLease run result self.new.held }
        ensures core { self.new.core ≡ self.old.core }
        ensures request { self.new.request ≡ self.old.request }
    {
        match run {
            Some(lease) => {
                self.held = Some(Held {
                    search: lease.search,
                    position: lease.position,
                });
                Ok(Event::Leased(lease.run))
            }
            None => Err(Ended::Done),
        }
    }

    /// Runs the test of the run that was leased last.
    fn test(&self) -> Result<Event, Ended>
        ensures some { IfSome self.now.held
            (λ held. result ≡ Ok (Event.Ran (Tested.Verdict (planned_verdict held.search held.position)))) }
        ensures run { IfOk result (IsRun self.now.held) }
    {
        match self.held {
            Some(held) => {
                let verdict = planned_verdict(held.search, held.position);
                Ok(Event::Ran(Tested::Verdict(verdict)))
            }
            None => Err(Ended::Done),
        }
    }
}

/// The command that reports what a test came to.
fn report_of(run: u32, tested: Tested) -> Command
    ensures { (H : List FarmEntry) → IsTestedByPlan H run tested → AsksByPlan H result }
{
    match tested {
        Tested::Verdict(verdict) => Command::Report { run, verdict },
        Tested::Untestable => Command::Skip { run },
    }
}

/// Reports what a test came to, which is what the plan says of the run.
fn report<R: Wait>(
    rt: &R,
    alloc: Global,
    farm: &DrillFarm,
    pass: &mut Pass,
    run: u32,
    tested: Tested,
) -> Result<Event, Ended>
    requires ready { IsReady farm.now pass.old }
    requires by_plan { IsByPlan pass.old }
    requires tested { IsTestedByPlan pass.old.seen run tested }
    ensures ready { IsReady farm.entry.now pass.new }
    ensures keeps { KeepsPlan pass.old pass.new }
{
    let command = report_of(run, tested);
    match farm.enter(rt, alloc, pass, &command, drill_moment()) {
        Ok(_) => Ok(Event::Noted),
        Err(fault) => Err(Ended::from(fault)),
    }
}

/// The work of the worker with a number. It gives its pass back, and says how it came to its end.
pub(crate) fn work<R: Wait>(
    rt: &R,
    alloc: Global,
    farm: &DrillFarm,
    pass: Pass,
    number: u32,
) -> (Pass, Ended)
    requires ready { IsReady farm.now pass }
    requires by_plan { IsByPlan pass }
    ensures ready { IsReady farm.entry.now result.0 }
    ensures keeps { KeepsPlan pass result.0 }
{
    let Ok(mut worker) = Worker::start(alloc, number) else {
        return (pass, Ended::Memory);
    };
    let mut pass = pass;
    let ended = worker.run(rt, alloc, farm, &mut pass);
    (pass, ended)
}
