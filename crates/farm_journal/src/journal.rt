//! A journal over a disk.
ghost use Rattle.std.specs.Prelude.{
  ◌≡◌,
  ◌≤◌,
  ◌<◌,
  ◌+◌,
  ◌++◌,
  ◌∷◌,
  [],
  ◌↔◌,
  ◌≢◌,
  ◌⊎◌,
  ℕ,
  List,
  true,
  false,
  IsTrue,
  All,
  IsSome,
  OnOk,
  IfOk,
  IfErr,
  None,
  Some,
  length,
  slice_index,
};
ghost use Rattle.farm_disk.specs.Images.{EachImage, IsSettled, LeavesOnly, LeavesSinceSync, moment};
ghost use Rattle.farm_journal.specs.Created.{
  disk_created,
  Creates,
  CreatingCause,
  IsUnborn,
  IsUnbornOrFirst,
  OnCreatingMemory,
};
ghost use Rattle.farm_journal.specs.Faults.{OnStoreFault, OnMemory, HasCause};
ghost use Rattle.farm_journal.specs.Layout.{IsPayload, IsVersion, gate_of, holds, is_unborn, opens, version_of};
ghost use Rattle.farm_journal.specs.Opened.{disk_after, Answers, OnRead, OpeningCause};
ghost use Rattle.farm_journal.specs.ReadsOnly.{ReadsOnly};
ghost use Rattle.farm_journal.specs.Mended.{Reads, payloads_after, version_after};
ghost use Rattle.farm_journal.specs.State.{IsBeforeOrAfter, IsHeld, IsPending};
ghost use Rattle.farm_journal.specs.declared.layout.TheConstants.{GATE_LIMIT};

use crate::creating::found;
use crate::disk_calls::DiskFault;
use crate::fault::{CreateFault, JournalFault, OpeningFault};
use crate::layout::{FIRST_GATE, VERSION_1};
use crate::mending::{Repaired, mend};
use crate::opening::read_whole;
use crate::payload::Payload;
use crate::payloads::Payloads;
use crate::reading::{Found, Missed, find};
use crate::storing::store;
use common_types::{Past, ToldList};
use farm_disk::{DatedDisk, Disk};
use std::alloc::Global;
use std::marker::Model;
use std::mem;

/// A journal: payloads on a disk, each of which stays once it was acknowledged, wherever a crash comes.
///
/// A payload is pending where its append failed and no repair has said yet whether it was kept.
#[derive(Drop)]
pub struct Journal<D: Disk> {
    disk: D,
    gate: u64,
    version: u8,
    pending: Option<Payload>,
    past: ToldList<Payload>,
    /// The room in which records are put together, kept from one to the next.
    piece: Vec<u8>,
    /// The payload that was appended last, or is being appended, by which it becomes the pending one. Its room is kept.
    last: Payload,
}

impl<D: Disk> Model for Journal<D> {
    ghost use Rattle.std.specs.Prelude.{◌≡◌, List, ℕ};
    ghost use Rattle.farm_journal.specs.State.{JournalState, IsKept};
    ghost use Rattle.farm_journal.specs.Found.{in_order};

    ghost Value = { JournalState D };

    ghost view = { λ a. record { payloads = in_order a.past; pending = a.pending; version = a.version; disk = a.disk } };

    ghost invariant = { λ a. IsKept D.tells D.told (in_order a.past) a.pending a.gate a.version a.disk };
}

impl<D: Disk> Journal<D> {
    /// Creates a journal of one payload, of 1 to `MAX_PAYLOAD` bytes, on a disk that is unborn: of at most one byte, or
    /// with a birth byte of 0. A disk that isn't keeps its bytes. An error hands the disk back.
    pub fn create(alloc: Global, disk: D, payload: Vec<u8>) -> Result<Journal<D>, (D, CreateFault)>
        requires { IsPayload payload.items }

        ensures same { D.tells (disk_created result) ≡ D.tells disk }
        ensures answers { D.tells disk ≡ true → Creates (D.told disk).bytes result }
        ensures payload { IfOk result (λ journal. journal.payloads ≡ payload.items ∷ []) }
        ensures idle { IfOk result (λ journal. journal.pending ≡ None) }
        ensures version { IfOk result (λ journal. journal.version ≡ 2) }
        ensures held { IfOk result (λ journal. D.tells disk ≡ true
            → IsHeld (payload.items ∷ []) (D.told journal.disk)) }
        ensures new_version { IfOk result (λ journal. D.tells disk ≡ true
            → version_of (D.told journal.disk).bytes ≡ 2) }

        ensures born { D.tells disk ≡ true → is_unborn (D.told disk).bytes ≡ false
            → (D.told (disk_created result)).bytes ≡ (D.told disk).bytes }

        // A crash since the first sync that was done leaves an unborn file, or the journal of the one payload. Where
        // each image was unborn before the call, this holds from its start.
        ensures since_sync { D.tells disk ≡ true → is_unborn (D.told disk).bytes ≡ true
            → LeavesSinceSync (D.told disk) (D.told (disk_created result)) (IsUnbornOrFirst payload.items) }
        ensures any_moment { D.tells disk ≡ true → is_unborn (D.told disk).bytes ≡ true
            → EachImage (D.told disk).steps IsUnborn
            → LeavesOnly (D.told disk) (D.told (disk_created result)) (IsUnbornOrFirst payload.items) }
        ensures memory { IfErr result (λ missed. OnCreatingMemory missed.1 (D.tells disk ≡ true
            → is_unborn (D.told disk).bytes ≡ true → EachImage (D.told disk).steps IsUnborn
            → EachImage (D.told missed.0).steps IsUnborn)) }
        // Out of memory, a crash at any moment of the call leaves an unborn file.
        ensures memory_moment { IfErr result (λ missed. OnCreatingMemory missed.1 (D.tells disk ≡ true
            → is_unborn (D.told disk).bytes ≡ true → EachImage (D.told disk).steps IsUnborn
            → LeavesOnly (D.told disk) (D.told missed.0) IsUnborn)) }

        ensures cause { IfErr result (λ missed. CreatingCause missed.1 (D.count disk) (D.count missed.0)) }
        ensures never_falls { D.count disk ≤ D.count (disk_created result) }
    {
        let mut disk = disk;
        let payload = Payload::of(payload);
        let before = disk.faults();
        match found(alloc, &mut disk, payload.bytes()) {
            Ok(true) => {
                let mut past = ToldList::new();
                past.tell(&payload);
                Ok(Journal {
                    disk,
                    gate: FIRST_GATE + 5 + payload.bytes().len() as u64,
                    version: 2,
                    pending: None,
                    past,
                    piece: Vec::new(alloc),
                    last: Payload::of(Vec::new(alloc)),
                })
            }
            Ok(false) => Err((disk, CreateFault::AlreadyBorn)),
            Err(DiskFault::Memory) => Err((disk, CreateFault::Memory)),
            Err(DiskFault::Failed) => {
                let after = disk.faults();
                Err((disk, CreateFault::StoreFault { before, after }))
            }
        }
    }

    /// Opens the journal on a disk, and gives all its payloads. It syncs first, and changes nothing: that takes one
    /// sync, one look at the size and one read. An error hands the disk back.
    pub fn open_on(alloc: Global, disk: D) -> Result<(Journal<D>, Payloads), (D, OpeningFault)>
        ensures same { D.tells (disk_after result) ≡ D.tells disk }
        ensures answers { D.tells disk ≡ true → Answers (opens (D.told disk).bytes) result }
        ensures payloads { IfOk result (λ opened. opened.0.payloads ≡ opened.1) }
        ensures fit { IfOk result (λ opened. All IsPayload opened.1) }
        ensures idle { IfOk result (λ opened. opened.0.pending ≡ None) }
        ensures version { IfOk result (λ opened. D.tells disk ≡ true
            → opened.0.version ≡ version_of (D.told disk).bytes) }
        ensures one_or_two { IfOk result (λ opened. IsVersion opened.0.version) }
        ensures held { IfOk result (λ opened. D.tells disk ≡ true → IsHeld opened.1 (D.told opened.0.disk)) }
        ensures only { D.tells disk ≡ true → ReadsOnly (D.told disk) (D.told (disk_after result)) }
        // Where the bytes were read and are no journal, each crash from then on leaves just them.
        ensures settled { IfErr result (λ missed. OnRead missed.1 (D.tells disk ≡ true
            → IsSettled (D.told missed.0))) }
        ensures three_calls { IfOk result (λ opened. D.tells disk ≡ true
            → moment (D.told opened.0.disk) ≡ moment (D.told disk) + 3) }
        ensures cause { IfErr result (λ missed. OpeningCause missed.1 (D.count disk) (D.count missed.0)) }
        ensures never_falls { D.count disk ≤ D.count (disk_after result) }
    {
        let mut disk = disk;
        let before = disk.faults();
        let bytes = match read_whole(alloc, &mut disk) {
            Ok(bytes) => bytes,
            Err(DiskFault::Memory) => return Err((disk, OpeningFault::Memory)),
            Err(DiskFault::Failed) => {
                let after = disk.faults();
                return Err((disk, OpeningFault::StoreFault { before, after }));
            }
        };
        match find(alloc, &bytes) {
            Ok(found) => {
                let Found {
                    payloads,
                    past,
                    gate,
                } = found;
                let journal = Journal {
                    disk,
                    gate,
                    version: version_of_byte(&bytes),
                    pending: None,
                    past,
                    piece: Vec::new(alloc),
                    last: Payload::of(Vec::new(alloc)),
                };
                Ok((journal, payloads))
            }
            Err(Missed::Unborn) => Err((disk, OpeningFault::Unborn)),
            Err(Missed::Damaged(at)) => Err((disk, OpeningFault::Damaged(at))),
            Err(Missed::Memory) => Err((disk, OpeningFault::Memory)),
        }
    }

    /// Appends a payload of 1 to `MAX_PAYLOAD` bytes. At `Ok` it is acknowledged: from then on each crash leaves a file
    /// that has it. That takes one write and one sync, and then one byte and one sync; a journal of version 1 is first
    /// made one of version 2. After a `StoreFault` the payload is pending. After running out of memory the payloads
    /// are as before, and no crash in the call leaves anything else.
    pub fn append(&mut self, alloc: Global, payload: &[u8]) -> Result<(), JournalFault>
        requires idle { self.old.pending ≡ None }
        requires payload { IsPayload payload.now }
        requires fits { gate_of self.old.payloads < GATE_LIMIT }

        ensures same { D.tells self.new.disk ≡ D.tells self.old.disk }

        // A crash at any moment of the call leaves the payloads from before it, or these and the new one.
        ensures any_moment { D.tells self.old.disk ≡ true → LeavesOnly (D.told self.old.disk) (D.told self.new.disk)
            (IsBeforeOrAfter self.old.payloads payload.now) }

        ensures appended { OnOk result (self.new.payloads ≡ self.old.payloads ++ payload.now ∷ []) }
        ensures idle { OnOk result (self.new.pending ≡ None) }
        ensures version { OnOk result (self.new.version ≡ 2) }
        ensures acknowledged { OnOk result (D.tells self.old.disk ≡ true
            → IsHeld (self.old.payloads ++ payload.now ∷ []) (D.told self.new.disk)) }
        ensures new_version { OnOk result (D.tells self.old.disk ≡ true
            → version_of (D.told self.new.disk).bytes ≡ 2) }
        ensures four_calls { self.old.version ≡ 2 → OnOk result (D.tells self.old.disk ≡ true
            → moment (D.told self.new.disk) ≡ moment (D.told self.old.disk) + 4) }

        ensures kept { OnStoreFault result (self.new.payloads ≡ self.old.payloads) }
        ensures pending { OnStoreFault result (self.new.pending ≡ Some payload.now) }
        ensures waits { OnStoreFault result (D.tells self.old.disk ≡ true
            → IsPending self.old.payloads payload.now (D.told self.new.disk)) }

        ensures unchanged { OnMemory result (self.new.payloads ≡ self.old.payloads) }
        ensures still_idle { OnMemory result (self.new.pending ≡ None) }
        ensures still_held { OnMemory result (D.tells self.old.disk ≡ true
            → IsHeld self.old.payloads (D.told self.new.disk)) }
        ensures leaves_before { OnMemory result (D.tells self.old.disk ≡ true
            → LeavesOnly (D.told self.old.disk) (D.told self.new.disk) (λ c. opens c ≡ holds self.old.payloads)) }

        ensures upgrades { (self.new.version ≡ self.old.version) ⊎ (self.new.version ≡ 2) }
        // A crash at any moment of an append to a journal of version 2 leaves a file of version 2.
        ensures stays { self.old.version ≡ 2 → D.tells self.old.disk ≡ true
            → LeavesOnly (D.told self.old.disk) (D.told self.new.disk) (λ c. version_of c ≡ 2) }
        // An upgrade cuts off what stood behind the closed gate: nothing of it is left behind the next one.
        ensures cuts { self.new.version ≢ self.old.version → D.tells self.old.disk ≡ true
            → length (D.told self.new.disk).bytes ≤ gate_of (self.old.payloads ++ payload.now ∷ []) + 1 }

        ensures cause { HasCause result (D.count self.old.disk) (D.count self.new.disk) }
        ensures never_falls { D.count self.old.disk ≤ D.count self.new.disk }
    {
        let before = self.disk.faults();
        let Ok(()) = self.last.set(payload) else {
            return Err(JournalFault::Memory);
        };
        match store(
            &mut self.piece,
            &mut self.disk,
            &mut self.version,
            self.gate,
            payload,
        ) {
            Ok(()) => {
                self.past.tell(&self.last);
                self.gate += 5 + payload.len() as u64;
                Ok(())
            }
            Err(DiskFault::Memory) => Err(JournalFault::Memory),
            Err(DiskFault::Failed) => {
                let copy = mem::replace(&mut self.last, Payload::of(Vec::new(alloc)));
                self.pending = Some(copy);
                let after = self.disk.faults();
                Err(JournalFault::StoreFault { before, after })
            }
        }
    }

    /// Finds out whether the pending payload was kept: after a sync it was where the gate reads other than 0. That
    /// takes one sync and one read, and the bytes stay as they are, whatever it answers. After a `StoreFault` the
    /// payload is still pending, and the repair may be tried again. It takes no memory.
    pub fn repair(&mut self) -> Result<Repaired, JournalFault>
        requires { IsSome self.old.pending }

        ensures same { D.tells self.new.disk ≡ D.tells self.old.disk }

        // A crash at any moment of the call leaves the payloads without the pending one, or with it.
        ensures any_moment { D.tells self.old.disk ≡ true → (p : List ℕ) → self.old.pending ≡ Some p
            → LeavesOnly (D.told self.old.disk) (D.told self.new.disk) (IsBeforeOrAfter self.old.payloads p) }

        ensures named { (p : List ℕ) → self.old.pending ≡ Some p
            → IfOk result (λ found. self.new.payloads ≡ payloads_after found self.old.payloads p) }
        ensures idle { OnOk result (self.new.pending ≡ None) }
        ensures version { IfOk result (λ found. self.new.version ≡ version_after found self.old.version) }
        ensures held { OnOk result (D.tells self.old.disk ≡ true → IsHeld self.new.payloads (D.told self.new.disk)) }
        ensures by_the_gate { IfOk result (λ found. D.tells self.old.disk ≡ true
            → Reads found (slice_index (D.told self.new.disk).bytes (gate_of self.old.payloads))) }
        ensures new_version { IfOk result (λ found. found ≡ Repaired.Kept → D.tells self.old.disk ≡ true
            → version_of (D.told self.new.disk).bytes ≡ 2) }
        ensures only { D.tells self.old.disk ≡ true → ReadsOnly (D.told self.old.disk) (D.told self.new.disk) }
        ensures two_calls { OnOk result (D.tells self.old.disk ≡ true
            → moment (D.told self.new.disk) ≡ moment (D.told self.old.disk) + 2) }

        ensures unchanged { OnStoreFault result (self.new ≡ record self.old { disk = self.new.disk }) }
        ensures waits { OnStoreFault result (D.tells self.old.disk ≡ true → (p : List ℕ) → self.old.pending ≡ Some p
            → IsPending self.old.payloads p (D.told self.new.disk)) }

        ensures memory { OnMemory result ⊥ }
        ensures cause { HasCause result (D.count self.old.disk) (D.count self.new.disk) }
        ensures never_falls { D.count self.old.disk ≤ D.count self.new.disk }
    {
        let before = self.disk.faults();
        match mend(&mut self.disk, self.gate) {
            Ok(Repaired::Kept) => match self.pending.take() {
                Some(payload) => {
                    self.gate += 5 + payload.bytes().len() as u64;
                    self.version = 2;
                    self.past.tell(&payload);
                    Ok(Repaired::Kept)
                }
                None => unreachable!(),
            },
            Ok(Repaired::Dropped) => {
                self.pending = None;
                Ok(Repaired::Dropped)
            }
            Err(_) => {
                let after = self.disk.faults();
                Err(JournalFault::StoreFault { before, after })
            }
        }
    }

    /// How often the disk has failed so far.
    pub fn faults(&self) -> u64
        ensures { result ≡ D.count self.now.disk }
    {
        self.disk.faults()
    }

    /// Whether a payload is pending.
    pub fn pending(&self) -> bool
        ensures { IsTrue result ↔ IsSome self.now.pending }
    {
        self.pending.is_some()
    }

    /// The offset of the closed gate: 16, and for each payload 5 and its length more.
    pub fn gate(&self) -> u64
        ensures { result ≡ gate_of self.now.payloads }
    {
        self.gate
    }

    /// The version, 1 or 2. A journal of version 1 becomes one of version 2 at its first append.
    pub fn version(&self) -> u8
        ensures { result ≡ self.now.version }
    {
        self.version
    }

    /// The disk of the journal.
    pub fn into_disk(self) -> D
        ensures { result ≡ self.disk }
    {
        self.disk
    }
}

// The version of a file whose header is sound.
fn version_of_byte(bytes: &[u8]) -> u8
    ensures byte { result ≡ version_of bytes.now }
    ensures one_or_two { IsVersion result }
{
    match bytes.get(15) {
        Some(byte) if *byte == VERSION_1 => 1,
        _ => 2,
    }
}

impl<D: DatedDisk> Journal<D> {
    /// This moment of the disk, as one that is over. Nothing is done.
    pub fn passed(&self) -> D::Over
        ensures over { D.Over.at result ≡ D.dated self.now.disk }
        ensures moment { D.tells self.now.disk ≡ true → D.dated self.now.disk ≡ moment (D.told self.now.disk) }
    {
        self.disk.passed()
    }
}
