//! The workers of a drill, each in a thread of its own.
ghost use Rattle.std.specs.Prelude.{◌≡◌, ◌<◌, ◌++◌, [], IfOk};
ghost use Rattle.common_types.specs.Prefix.{IsPrefix};
ghost use Rattle.shared_farm.specs.Rests.{IsByCommands};
ghost use Rattle.turn_lock.specs.Known.{IsReady};
ghost use Rattle.farm_drill.specs.Passes.{IsByPlan, KeepsPlan};
ghost use Rattle.farm_drill.specs.Planned.{GoesByPlan};

use crate::farm::DrillFarm;
use crate::worker::{Ended, work};
use farm_disk::CalmDisk;
use farm_store::Store;
use farm_types::Memory;
use shared_farm::Pass;
use std::alloc::Global;
use std::snapshot::Snapshot;
use std::sync::Wait;
use std::thread;
use std::thread::{Promise, Scope, Threads};

/// A worker gives back a pass of the lock of this one, which holds no turn, and keeps of it what a worker does.
#[derive(Drop)]
struct SameLock(Snapshot<Pass>);

impl Promise<(Pass, Ended)> for SameLock {
    ghost use Rattle.turn_lock.specs.Known.{IsReady};
    ghost use Rattle.farm_drill.specs.Passes.{KeepsPlan};

    ghost kept_by = { λ p given. IsReady p.0.value.lock given.0 × KeepsPlan p.0.value given.0 };
}

/// Shares the farm of a store among so many workers, and closes it when all have ended.
pub(crate) fn run_workers<R: Threads + Wait + Sync>(
    rt: &R,
    alloc: Global,
    store: Store<CalmDisk>,
    workers: u32,
) -> Result<Store<CalmDisk>, Memory>
    requires by_commands { IsByCommands (store.history ++ store.pending) }
    requires decided { store.pending ≡ [] }
    requires planned { GoesByPlan store.history }
    ensures decided { IfOk result (λ left. left.pending ≡ []) }
    ensures planned { IfOk result (λ left. GoesByPlan left.history) }
    ensures longer { IfOk result (λ left. IsPrefix store.history left.history) }
    ensures by_commands { IfOk result (λ left. IsByCommands left.history) }
{
    let Ok((farm, pass)) = DrillFarm::of(alloc, store) else {
        return Err(Memory);
    };
    let (pass, ended) = run_all(rt, alloc, &farm, pass, workers);
    let left = farm.close(rt, pass);
    match ended {
        Ended::Done => Ok(left),
        Ended::Memory => Err(Memory),
    }
}

/// Runs so many workers, and takes in their passes.
fn run_all<R: Threads + Wait + Sync>(
    rt: &R,
    alloc: Global,
    farm: &DrillFarm,
    pass: Pass,
    workers: u32,
) -> (Pass, Ended)
    requires ready { IsReady farm.now pass }
    requires parts { workers < pass.stake.parts }
    requires by_plan { IsByPlan pass }
    ensures ready { IsReady farm.entry.now result.0 }
    ensures keeps { KeepsPlan pass result.0 }
{
    thread::scope(
        thread::scope_env(),
        rt,
        |scope| -> (Pass, Ended)
            requires { IsReady farm.now pass × (workers < pass.stake.parts) × IsByPlan pass }
            ensures { IsReady farm.entry.now result.0 × KeepsPlan pass result.0 }
        { start_all(scope, rt, alloc, farm, pass, workers) },
    )
}

/// Starts so many workers, and waits for them. A worker whose start is refused works in this thread, after the others
/// were started.
fn start_all<'s, E, R: Threads + Wait + Sync>(
    scope: &Scope<'s, E>,
    rt: &'s R,
    alloc: Global,
    farm: &'s DrillFarm,
    pass: Pass,
    workers: u32,
) -> (Pass, Ended)
    requires ready { IsReady farm.now pass }
    requires parts { workers < pass.stake.parts }
    requires by_plan { IsByPlan pass }
    ensures ready { IsReady farm.entry.now result.0 }
    ensures keeps { KeepsPlan pass result.0 }
{
    let mut pass = pass;
    if workers == 0 {
        return (pass, Ended::Done);
    }
    let mine = farm.split(&mut pass);
    let promise = SameLock(Snapshot::of(&mine));
    match scope.spawn_with(promise, move || work(rt, alloc, farm, mine, workers)) {
        Ok(started) => {
            let (mut rest, others) = start_all(scope, rt, alloc, farm, pass, workers - 1);
            let (given, ended) = started.join(rt);
            farm.join(&mut rest, given);
            (rest, others.and(ended))
        }
        Err(refused) => {
            let (mut rest, others) = start_all(scope, rt, alloc, farm, pass, workers - 1);
            let (given, ended) = (refused.value)();
            farm.join(&mut rest, given);
            (rest, others.and(ended))
        }
    }
}
