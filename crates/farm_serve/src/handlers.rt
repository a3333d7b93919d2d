//! Handlers: threads that take links from the network under its lock, and serve them outside of it.
ghost use Rattle.std.specs.Prelude.{◌≡◌, ◌<◌, ◌+◌};
ghost use Rattle.connection_laws.specs.Moments.{MayGive};
ghost use Rattle.farm_types.specs.declared.moment.Moment.{Moment};

use crate::gate::Gate;
use crate::link::serve_one;
use crate::naming::Naming;
use crate::standing::NextLink;
use farm_disk::DatedDisk;
use farm_http::{Caller, Service};
use link_io::{Clock, Network};
use shared_farm::{Beginning, SharedFarm};
use std::alloc::Global;
use std::sync::ledger::{Ledger, Share};
use std::sync::{Mutex, Wait};
use std::thread;
use std::thread::{Promise, Scope, Threads};

/// What is said on standard error of a handler that can't be started.
const NOT_STARTED: &str = "a handler could not be started";

/// A handler gives back a share of no link.
#[derive(Drop)]
struct NoneOut;

impl<L: Ledger> Promise<Share<L>> for NoneOut {
    ghost kept_by = { λ _ r. (r.parts ≡ 1) × (r.amount ≡ 0) };
}

/// Runs so many handlers, until all have ended. This thread is one of them.
pub fn run_all<
    D: DatedDisk + Drop + Send,
    B: Beginning + Send,
    N: Network<Over = D::Over> + Drop + Send,
    C: Clock + Sync,
    J: Naming + Send + Sync,
    R: Threads + Wait + Eprint + Sync,
>(
    rt: &R,
    alloc: Global,
    gate: &Mutex<Gate<N, B, J>>,
    farm: &SharedFarm<D, B>,
    clock: &C,
    all: Share<J>,
    handlers: u8,
) -> Share<J>
where
    N::End: Send,
    requires farm { farm.now ≡ J.entry.lock }
    requires gives { (at : Moment) → MayGive C.Clock clock.now at → J.gives at }
    requires parts { all.parts ≡ handlers }
    requires some { 0 < handlers }
    requires none { all.amount ≡ 0 }
    ensures parts { result.parts ≡ handlers }
    ensures amount { result.amount ≡ 0 }
{
    thread::scope(
        thread::scope_env(),
        rt,
        |scope| -> Share<J>
            requires { (all.parts ≡ handlers) × (0 < handlers) × (all.amount ≡ 0) × (farm.now ≡ J.entry.lock)
                × ((at : Moment) → MayGive C.Clock clock.now at → J.gives at) }
            ensures { (result.parts ≡ handlers) × (result.amount ≡ 0) }
        { start_all(scope, rt, alloc, gate, farm, clock, all, handlers - 1) },
    )
}

/// Starts so many handlers and serves beside them, until all have ended. A handler whose start is refused runs in this
/// thread, after the others were started, and is told of in a line on standard error.
fn start_all<
    's,
    E,
    D: DatedDisk + Drop + Send,
    B: Beginning + Send,
    N: Network<Over = D::Over> + Drop + Send,
    C: Clock + Sync,
    J: Naming + Send + Sync,
    R: Threads + Wait + Eprint + Sync,
>(
    scope: &Scope<'s, E>,
    rt: &'s R,
    alloc: Global,
    gate: &'s Mutex<Gate<N, B, J>>,
    farm: &'s SharedFarm<D, B>,
    clock: &'s C,
    all: Share<J>,
    others: u8,
) -> Share<J>
where
    N::End: Send,
    requires farm { farm.now ≡ J.entry.lock }
    requires gives { (at : Moment) → MayGive C.Clock clock.now at → J.gives at }
    requires parts { all.parts ≡ others + 1 }
    requires none { all.amount ≡ 0 }
    ensures parts { result.parts ≡ others + 1 }
    ensures amount { result.amount ≡ 0 }
{
    let mut all = all;
    if others == 0 {
        return handle(rt, alloc, gate, farm, clock, all);
    }
    let mine = all.split_off(1, 0);
    match scope.spawn_with(
        NoneOut,
        move || -> Share<J>
            requires { (farm.now ≡ J.entry.lock) × ((at : Moment) → MayGive C.Clock clock.now at → J.gives at)
                × (mine.parts ≡ 1) × (mine.amount ≡ 0) }
            ensures { (result.parts ≡ 1) × (result.amount ≡ 0) }
        { handle(rt, alloc, gate, farm, clock, mine) },
    ) {
        Ok(started) => {
            let mut rest = start_all(scope, rt, alloc, gate, farm, clock, all, others - 1);
            rest.merge(started.join(rt));
            rest
        }
        Err(refused) => {
            let _told = rt.eprintln(NOT_STARTED);
            let mut rest = start_all(scope, rt, alloc, gate, farm, clock, all, others - 1);
            rest.merge((refused.value)());
            rest
        }
    }
}

/// Takes links and serves them, one after the other, until no accept is left or one answers that no more will come. It
/// has one table of paths for all its links, and one reader, which was made before.
fn handle<
    's,
    D: DatedDisk,
    B: Beginning,
    N: Network<Over = D::Over> + Drop,
    C: Clock,
    J: Naming,
    R: Wait,
>(
    rt: &'s R,
    alloc: Global,
    gate: &'s Mutex<Gate<N, B, J>>,
    farm: &'s SharedFarm<D, B>,
    clock: &'s C,
    share: Share<J>,
) -> Share<J>
    requires farm { farm.now ≡ J.entry.lock }
    requires gives { (at : Moment) → MayGive C.Clock clock.now at → J.gives at }
    requires parts { share.parts ≡ 1 }
    requires amount { share.amount ≡ 0 }
    ensures parts { result.parts ≡ 1 }
    ensures amount { result.amount ≡ 0 }
{
    let mut share = share;
    let Some(early) = gate.lock(rt).take_reader() else {
        return share;
    };
    let mut reader = early.into_reader();
    let Ok(pages) = gate.lock(rt).pages(alloc) else {
        return share;
    };
    let service = Service {
        rt,
        alloc,
        pages: &pages,
        farm,
        clock,
    };
    for _ in rt.forever() {
        let next = gate.lock(rt).next(farm, &mut share);
        match next {
            NextLink::Closed => return share,
            NextLink::Nothing => {}
            NextLink::Link(link, pass) => {
                let mut link = link;
                let mut caller = Caller { pass, reader };
                let served = serve_one::<D, B, N, C, J, R>(&service, &mut caller, &mut link);
                let Caller { pass, reader: back } = caller;
                reader = back;
                gate.lock(rt)
                    .back(farm, link, pass, &mut reader, served, &mut share);
            }
        }
    }
    unreachable!()
}
