//! The service.
ghost use Rattle.std.specs.Prelude.{[], ◌≡◌, ◌<◌, ◌≤◌, IfSome, IsSome};
ghost use Rattle.connection_laws.specs.Marks.{mark_with};
ghost use Rattle.connection_laws.specs.Moments.{MayGive};
ghost use Rattle.farm_entry.specs.Legal.{IsLegal};
ghost use Rattle.shared_farm.specs.Posted.{IsPicked};
ghost use Rattle.shared_farm.specs.Rests.{CameBy, begun_of};
ghost use Rattle.turn_lock.specs.Known.{IsReady, first_stake};
ghost use Rattle.farm_serve.specs.Acknowledged.{acknowledged_by};
ghost use Rattle.farm_serve.specs.LastLine.{EndSays, farm_line};
ghost use Rattle.farm_serve.specs.Links.{GiveAlike};
ghost use Rattle.outside_seen.specs.Outside.{outside, network_seen, output_seen, disk_seen};
ghost use Rattle.farm_serve.specs.ServeEnds.{ServeCompletes, ServeEnds};
ghost use Rattle.farm_serve.specs.Serving.{ComesTo, store_mark};

use crate::ending::Ending;
use crate::gate::{Gate, serve_rest};
use crate::handlers::run_all;
use crate::last_line::put_farm_line;
use crate::naming::Naming;
use crate::standing::ServeState;
use farm_disk::{DatedDisk, Disk};
use farm_store::Store;
use link_io::{Clock, Network, Sink};
use shared_farm::{Beginning, Pass, PostedStore, SharedFarm, TotalsMark};
use std::alloc::Global;
use std::marker::Brand;
use std::sync::ledger::Blank;
use std::sync::{Mutex, Wait};
use std::thread::Threads;

/// What a farm is served with.
#[derive(Drop)]
struct Surroundings<'s, R, C> {
    /// The runtime of its threads.
    rt: &'s R,
    /// The memory.
    alloc: Global,
    /// The clock that gives the moment of a command.
    clock: &'s C,
    /// So many handlers.
    handlers: u8,
    /// So many accepts at most.
    links: u64,
}

/// Serves the farm whose journal is on a disk: opens the journal, answers the requests of the network's links by so
/// many handlers, until so many accepts were made or one answered that no more will come, and puts the farm's line.
/// The disk and the network are given back.
///
/// A link that fails, or for which memory runs out, ends alone, and a failed accept is one of those that are made.
/// After a fault of the disk a command gets its answer that the store failed, and the next one tries again.
pub fn serve<
    D: DatedDisk + Drop + Send,
    N: Network<Over = D::Over> + Drop + Send,
    K: Sink,
    C: Clock + Sync,
    R: Threads + Wait + Eprint + Sync,
>(
    rt: &R,
    alloc: Global,
    disk: D,
    network: N,
    output: &mut K,
    clock: &C,
    handlers: u8,
    links: u64,
) -> (Ending, D, N)
where
    N::End: Send,
    requires { 0 < handlers }
    ensures ends { ServeEnds links (MayGive C.Clock clock.now) result.0
        (outside (network_seen (N.told network) (N.count network)) (output_seen K.Sink output.old)
        (disk_seen D.Disk disk))
        (outside (network_seen (N.told result.2) (N.count result.2)) (output_seen K.Sink output.new)
        (disk_seen D.Disk result.1)) }
    ensures completes { ServeCompletes result.0
        (outside (network_seen (N.told network) (N.count network)) (output_seen K.Sink output.old)
        (disk_seen D.Disk disk))
        (outside (network_seen (N.told result.2) (N.count result.2)) (output_seen K.Sink output.new)
        (disk_seen D.Disk result.1)) }
    ensures tells { D.tells result.1 ≡ D.tells disk }
    ensures disk_never_falls { D.count disk ≤ D.count result.1 }
    ensures network_never_falls { N.count network ≤ N.count result.2 }
{
    let before = disk.faults();
    match Store::open_on(alloc, disk) {
        Ok(store) => {
            let with = Surroundings {
                rt,
                alloc,
                clock,
                handlers,
                links,
            };
            let (store, network, standing) = serve_opened(&with, store, before, network);
            let ending = end(alloc, &store, standing, output);
            (ending, store.into_disk(), network)
        }
        Err((disk, fault)) => (Ending::NotOpened(fault), disk, network),
    }
}

/// Puts the farm's line, and says how the service ends.
fn end<D: Disk, K: Sink>(
    alloc: Global,
    store: &Store<D>,
    standing: ServeState,
    output: &mut K,
) -> Ending
    ensures says { EndSays standing (farm_line store.now.history) result
        (output_seen K.Sink output.old) (output_seen K.Sink output.new) }
    ensures legal { IsLegal store.now.history }
{
    let _ = store.history();
    Ending::of(standing, put_farm_line(alloc, store, output))
}

/// Serves the farm of a store that was just opened, where this was its disk's count of faults before. Without memory
/// for the board of its totals no accept is made.
fn serve_opened<
    D: DatedDisk + Drop + Send,
    N: Network<Over = D::Over> + Drop + Send,
    C: Clock + Sync,
    R: Threads + Wait + Eprint + Sync,
>(with: &Surroundings<R, C>, store: Store<D>, before: u64, network: N) -> (Store<D>, N, ServeState)
where
    N::End: Send,
    requires before { before ≤ D.count store.disk }
    requires decided { store.pending ≡ [] }
    requires some { 0 < with.now.handlers }
    ensures comes { ComesTo (mark_with store.history before) (store_mark D.count result.0)
        (MayGive C.Clock with.now.clock.now) (acknowledged_by (D.tells result.0.disk) (D.told result.0.disk))
        with.now.links result.2 (network_seen (N.told network) (N.count network))
        (network_seen (N.told result.1) (N.count result.1)) }
    ensures came { CameBy D.Disk (begun_of D.Disk store) result.0 }
{
    match PostedStore::of(with.alloc, store) {
        Ok(posted) => serve_store::<D, Brand, N, C, R>(with, posted, before, network),
        Err(store) => (store, network, ServeState::without_memory(with.links)),
    }
}

/// Serves the farm of a store whose totals are posted, where this was its disk's count of faults before it was opened.
/// Without memory to share the farm no accept is made.
fn serve_store<
    D: DatedDisk + Drop + Send,
    B: Beginning + Send,
    N: Network<Over = D::Over> + Drop + Send,
    C: Clock + Sync,
    R: Threads + Wait + Eprint + Sync,
>(
    with: &Surroundings<R, C>,
    posted: PostedStore<D>,
    before: u64,
    network: N,
) -> (Store<D>, N, ServeState)
where
    N::End: Send,
    requires came { IfSome B.begun (λ begun. CameBy D.Disk begun posted.store) }
    requires board { IsPicked B.board posted.board }
    requires picked { IsSome B.board }
    requires before { before ≤ D.count posted.store.disk }
    requires decided { posted.store.pending ≡ [] }
    requires some { 0 < with.now.handlers }
    ensures comes { ComesTo (mark_with posted.store.history before) (store_mark D.count result.0)
        (MayGive C.Clock with.now.clock.now) (acknowledged_by (D.tells result.0.disk) (D.told result.0.disk))
        with.now.links result.2 (network_seen (N.told network) (N.count network))
        (network_seen (N.told result.1) (N.count result.1)) }
    ensures came { IfSome B.begun (λ begun. CameBy D.Disk begun result.0) }
{
    match SharedFarm::<D, B>::share(with.alloc, posted) {
        Ok((farm, pass, read)) => {
            let blank = Blank::new(u64::from(with.handlers));
            serve_farm::<D, B, N, C, Brand, R>(with, farm, pass, read, before, network, blank)
        }
        Err(store) => (store, network, ServeState::without_memory(with.links)),
    }
}

fn serve_farm<
    D: DatedDisk + Drop + Send,
    B: Beginning + Send,
    N: Network<Over = D::Over> + Drop + Send,
    C: Clock + Sync,
    J: Naming + Send + Sync,
    R: Threads + Wait + Eprint + Sync,
>(
    with: &Surroundings<R, C>,
    farm: SharedFarm<D, B>,
    pass: Pass,
    read: TotalsMark<B>,
    before: u64,
    network: N,
    blank: Blank,
) -> (Store<D>, N, ServeState)
where
    N::End: Send,
    requires name { blank.name ≡ J.name }
    requires parts { (blank.parts ≡ J.parts) × (J.parts ≡ with.now.handlers) × (0 < with.now.handlers) }
    requires ready { IsReady farm pass }
    requires read { read ≡ pass.seen }
    requires picked { IsSome B.board }
    requires stake { pass.stake ≡ first_stake J.entry.first [] }
    requires mine { pass.mine ≡ [] }
    requires before { before ≤ pass.faults }
    requires entry { J.entry ≡ record {
      lock = farm;
      first = pass.seen;
      faults = before;
      told = N.told network;
      count = N.count network;
      links = with.now.links;
    } }
    requires gives { GiveAlike J.gives (MayGive C.Clock with.now.clock.now) }
    ensures comes { ComesTo (mark_with pass.seen before) (store_mark D.count result.0)
        (MayGive C.Clock with.now.clock.now) (acknowledged_by (D.tells result.0.disk) (D.told result.0.disk))
        with.now.links result.2 (network_seen (N.told network) (N.count network))
        (network_seen (N.told result.1) (N.count result.1)) }
    ensures came { IfSome B.begun (λ begun. CameBy D.Disk begun result.0) }
{
    let (out, all) = blank.open::<J>();
    let mut gate = Gate::new(with.alloc, network, pass, read, out, with.links);
    gate.add_readers(with.rt, &farm, with.handlers);
    let gate = Mutex::new(gate);
    let mut all = run_all(
        with.rt,
        with.alloc,
        &gate,
        &farm,
        with.clock,
        all,
        with.handlers,
    );
    let mut gate = gate.into_inner();
    serve_rest(&mut gate, with.rt, with.alloc, &farm, with.clock, &mut all);
    let (network, held, read, standing) = gate.finish(all);
    let mut held = held;
    farm.meet(with.rt, &mut held, read);
    let store = farm.close(with.rt, held);
    (store, network, standing)
}
