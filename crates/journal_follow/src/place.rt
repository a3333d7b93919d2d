//! Where a follower keeps its history.

ghost use Rattle.std.specs.Prelude.{◌≡◌, ◌≢◌, ◌≤◌, ◌↔◌, [], true, length, IsTrue};
ghost use Rattle.entry_codec.specs.Spelling.{spelling};
ghost use Rattle.farm_disk.specs.Answers.{rested};
ghost use Rattle.farm_disk.specs.Model.{IsSound};
ghost use Rattle.farm_store.specs.declared.asking.TheConstants.{MAX_RECORD_BYTES};
ghost use Rattle.journal_follow.specs.Inside.{IsPlace, IsUnbornDisk, Mends, Puts, on_disk, place_state};

use crate::FollowFault;
use crate::answer::Page;
use farm_core::Farm;
use farm_disk::Disk;
use farm_entry::Entry;
use farm_journal::FIRST_GATE;
use farm_store::{CreateFault, JournalFault, OpeningFault, Store, copies, farm_by};
use std::alloc::Global;

/// Where a follower keeps its history.
#[derive(Drop)]
pub(crate) enum Place<D: Disk> {
    /// Nothing was created on the disk yet.
    Unborn(D),
    /// The disk failed as the store was created.
    Begun(Begun<D>),
    /// The store is there.
    Open(Store<D>),
}

/// A disk that failed as a store was created, and the entries that were to be stored.
#[derive(Drop)]
pub(crate) struct Begun<D: Disk> {
    pub disk: D,
    pub entries: Page,
}

/// A place, and what came of the call that left it.
pub(crate) type Left<D> = (Place<D>, Result<(), FollowFault>);

impl<D: Disk> Place<D> {
    /// Finds out whether what is pending was kept. Where nothing is pending, nothing is done.
    pub(crate) fn repaired(self, alloc: Global, before: u64) -> Left<D>
        requires { IsPlace D.tells D.told D.count self }
        ensures place { IsPlace D.tells D.told D.count result.0 }
        ensures mends { Mends before result.1 (place_state D.tells D.told D.count self)
            (place_state D.tells D.told D.count result.0) }
    {
        match self {
            Place::Unborn(disk) => (Place::Unborn(disk), Ok(())),
            Place::Begun(begun) => reopen(alloc, begun, before),
            Place::Open(store) => mend(store, before),
        }
    }

    /// Stores entries behind those held, while nothing is pending. The first of them has this place.
    pub(crate) fn stored(self, alloc: Global, place: u32, entries: &[Entry], before: u64) -> Left<D>
        requires holds { IsPlace D.tells D.told D.count self }
        requires decided { (place_state D.tells D.told D.count self).held.pending ≡ [] }
        requires some { entries.now ≢ [] }
        requires fits { length (spelling entries.now) ≤ MAX_RECORD_BYTES }
        requires place { place ≡ length (place_state D.tells D.told D.count self).held.history }
        ensures place { IsPlace D.tells D.told D.count result.0 }
        ensures puts { Puts before place entries.now result.1 (place_state D.tells D.told D.count self)
            (place_state D.tells D.told D.count result.0) }
    {
        match self {
            Place::Unborn(disk) => begin(alloc, disk, entries, before),
            Place::Begun(_) => unreachable!(),
            Place::Open(store) => go_on(alloc, store, place, entries, before),
        }
    }
}

/// Finds out whether what is pending in a store was kept.
fn mend<D: Disk>(store: Store<D>, before: u64) -> Left<D>
    requires { IsPlace D.tells D.told D.count (Place.Open store) }
    ensures place { IsPlace D.tells D.told D.count result.0 }
    ensures mends { Mends before result.1 (place_state D.tells D.told D.count (Place.Open store))
        (place_state D.tells D.told D.count result.0) }
{
    let mut store = store;
    match store.repair() {
        Ok(()) => (Place::Open(store), Ok(())),
        Err(JournalFault::StoreFault { after, .. }) => (
            Place::Open(store),
            Err(FollowFault::StoreFault { before, after }),
        ),
        Err(JournalFault::Memory) => unreachable!(),
    }
}

/// Opens the disk again on which the store was created, in place of a repair.
fn reopen<D: Disk>(alloc: Global, begun: Begun<D>, before: u64) -> Left<D>
    requires { IsPlace D.tells D.told D.count (Place.Begun begun) }
    ensures place { IsPlace D.tells D.told D.count result.0 }
    ensures mends { Mends before result.1 (place_state D.tells D.told D.count (Place.Begun begun))
        (place_state D.tells D.told D.count result.0) }
{
    let Begun { disk, entries } = begun;
    match Store::open_on(alloc, disk) {
        Ok(store) => {
            if is_history(&entries, store.history()) {
                return (Place::Open(store), Ok(()));
            }
            let disk = store.into_disk();
            (
                Place::Begun(Begun { disk, entries }),
                Err(FollowFault::Damaged(FIRST_GATE)),
            )
        }
        Err((disk, fault)) => match fault {
            OpeningFault::Unborn => (Place::Unborn(disk), Ok(())),
            OpeningFault::StoreFault { after, .. } => (
                Place::Begun(Begun { disk, entries }),
                Err(FollowFault::StoreFault { before, after }),
            ),
            OpeningFault::Damaged(at) => (
                Place::Begun(Begun { disk, entries }),
                Err(FollowFault::Damaged(at)),
            ),
            OpeningFault::Memory => (
                Place::Begun(Begun { disk, entries }),
                Err(FollowFault::Memory),
            ),
        },
    }
}

/// Whether these entries are all of a history.
fn is_history(entries: &Page, history: &[Entry]) -> bool
    ensures { IsTrue result ↔ (history.now ≡ entries.now) }
{
    history == entries.as_slice()
}

/// Stores entries behind the history of a store, those at places from this one on.
fn go_on<D: Disk>(
    alloc: Global,
    store: Store<D>,
    place: u32,
    entries: &[Entry],
    before: u64,
) -> Left<D>
    requires holds { IsPlace D.tells D.told D.count (Place.Open store) }
    requires decided { store.pending ≡ [] }
    requires fits { length (spelling entries.now) ≤ MAX_RECORD_BYTES }
    requires place { place ≡ length store.history }
    ensures place { IsPlace D.tells D.told D.count result.0 }
    ensures puts { Puts before place entries.now result.1 (place_state D.tells D.told D.count (Place.Open store))
        (place_state D.tells D.told D.count result.0) }
{
    let mut store = store;
    match store.admit_all(alloc, entries) {
        Ok(Ok(())) => (Place::Open(store), Ok(())),
        Ok(Err(index)) => (
            Place::Open(store),
            Err(FollowFault::Foreign(place + index as u32)),
        ),
        Err(JournalFault::StoreFault { after, .. }) => (
            Place::Open(store),
            Err(FollowFault::StoreFault { before, after }),
        ),
        Err(JournalFault::Memory) => (Place::Open(store), Err(FollowFault::Memory)),
    }
}

/// Creates the store of these entries, the first of a history.
fn begin<D: Disk>(alloc: Global, disk: D, entries: &[Entry], before: u64) -> Left<D>
    requires unborn { D.tells disk ≡ true → IsUnbornDisk (D.told disk) }
    requires some { entries.now ≢ [] }
    requires fits { length (spelling entries.now) ≤ MAX_RECORD_BYTES }
    ensures place { IsPlace D.tells D.told D.count result.0 }
    ensures puts { Puts before 0 entries.now result.1 (on_disk D.tells D.told D.count disk [] [])
        (place_state D.tells D.told D.count result.0) }
{
    let Ok(made) = copies(alloc, entries) else {
        return (Place::Unborn(disk), Err(FollowFault::Memory));
    };
    match farm_by(alloc, entries) {
        Ok(Ok(farm)) => create(alloc, disk, farm, Page::of(made), before),
        Ok(Err(index)) => (Place::Unborn(disk), Err(FollowFault::Foreign(index as u32))),
        Err(_) => (Place::Unborn(disk), Err(FollowFault::Memory)),
    }
}

/// Creates the store of a farm of these entries.
fn create<D: Disk>(alloc: Global, disk: D, farm: Farm, entries: Page, before: u64) -> Left<D>
    requires unborn { D.tells disk ≡ true → IsUnbornDisk (D.told disk) }
    requires history { farm.history ≡ entries }
    requires fits { length (spelling entries) ≤ MAX_RECORD_BYTES }
    ensures place { IsPlace D.tells D.told D.count result.0 }
    ensures puts { Puts before 0 entries result.1 (on_disk D.tells D.told D.count disk [] [])
        (place_state D.tells D.told D.count result.0) }
{
    match Store::create(alloc, disk, farm) {
        Ok(store) => (Place::Open(store), Ok(())),
        Err((disk, fault)) => match fault {
            CreateFault::AlreadyBorn => (Place::Unborn(disk), Err(FollowFault::Damaged(0))),
            CreateFault::StoreFault { .. } => {
                let (disk, after) = looked_at(disk);
                (
                    Place::Begun(Begun { disk, entries }),
                    Err(FollowFault::StoreFault { before, after }),
                )
            }
            CreateFault::Memory => {
                let (disk, _) = looked_at(disk);
                (Place::Unborn(disk), Err(FollowFault::Memory))
            }
        },
    }
}

/// A disk that was asked for its size, whatever it answered: what a read gives is what a crash may leave. And how
/// often it has failed then.
fn looked_at<D: Disk>(disk: D) -> (D, u64)
    ensures same { D.tells result.0 ≡ D.tells disk }
    ensures sound { D.tells disk ≡ true → IsSound (D.told disk) }
    ensures still { D.tells disk ≡ true → D.told result.0 ≡ rested (D.told disk) }
    ensures count { result.1 ≡ D.count result.0 }
    ensures never_falls { D.count disk ≤ D.count result.0 }
{
    let mut disk = disk;
    let _ = disk.size();
    let count = disk.faults();
    (disk, count)
}
