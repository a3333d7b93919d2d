//! A disk in memory that fails at the calls that it is told to, and that makes images.
ghost use Rattle.std.specs.Prelude.{
  ◌≡◌,
  ◌≤◌,
  ◌<◌,
  ◌+◌,
  ◌↔◌,
  ◌∷◌,
  [],
  ◌^◌,
  ℕ,
  true,
  false,
  IsTrue,
  IsSome,
  IsNone,
  IfOk,
  max,
  min,
  length,
  take,
  drop,
  slice_index,
  unwrap_or,
};
ghost use Rattle.common_types.specs.Counts.{Rose};
ghost use Rattle.farm_disk.specs.Images.{moment, sync, write, overwritten, IsImage};
ghost use Rattle.farm_disk.specs.DiskFault.{kept_next, plan_after};
ghost use Rattle.farm_disk.specs.Certain.{certain};
ghost use Rattle.farm_disk.specs.Model.{least, greatest, IsSound};
ghost use Rattle.farm_disk.specs.Answers.{
  rested,
  Writes,
  Cuts,
  Syncs,
  IfSize,
  OnSizeFailed,
  OnDid,
  OnFailed,
  OnWritten,
  OnWriteFailed,
  OnWriteMemory,
};

use super::call_log::CallLog;
use super::fault_plan::{DiskFail, FaultPlan};
use super::overwrite::overwrite;
use super::tracked::Tracked;
use crate::{Call, DatedDisk, Did, Disk, Memory, Size, Written};
use common_types::Passed;
use std::marker::Model;
use std::snapshot::Snapshot;

/// A disk in memory that fails at the calls that it is told to. It tells everything.
///
/// For `image` it keeps which bytes are certain. Where it found no memory for that, `image` answers so until the next
/// sync; no other call notices.
#[derive(Drop)]
pub struct MemDisk {
    bytes: Vec<u8>,
    past: CallLog,
    plan: FaultPlan,
    tracked: Tracked,
}

impl Model for MemDisk {
    ghost use Rattle.std.specs.Prelude.{map};
    ghost use Rattle.farm_disk.specs.InMemory.{DiskInMemory, step_of};

    ghost Value = { DiskInMemory };

    ghost view = { λ d. record { disk = record { bytes = d.bytes.items; steps = map step_of d.past }; plan = d.plan } };

    ghost use Rattle.farm_disk.specs.MemDiskKept.{IsKept};

    ghost invariant = { IsKept };
}

impl MemDisk {
    /// A disk with these bytes, which fails at these calls. A crash leaves these bytes.
    pub fn of(bytes: Vec<u8>, fails: Vec<DiskFail>) -> MemDisk
        ensures { result ≡ record {
          disk = record { bytes = bytes.items; steps = sync bytes.items ∷ [] };
          plan = record { fails = fails.items; calls = 0; faults = 0 };
        } }
    {
        let mut past = CallLog::new();
        past.tell(&Call::Sync(Snapshot::of(&bytes)));
        MemDisk {
            tracked: Tracked::synced(&bytes),
            bytes,
            past,
            plan: FaultPlan::of(fails),
        }
    }

    /// The bytes that a read gives.
    pub fn bytes(&self) -> &[u8]
        ensures { result.now ≡ self.now.disk.bytes }
    {
        &self.bytes
    }

    /// The image of a crash now that has this size, or the size nearest to it that an image may have, and this byte
    /// wherever any may stand.
    pub fn image(&self, size: u64, fill: u8) -> Result<Vec<u8>, Memory>
        ensures size { IfOk result (λ image. length image.items
            ≡ min (max size (least self.now.disk.steps)) (greatest self.now.disk.steps)) }
        ensures bytes { IfOk result (λ image. (i : ℕ) → i < length image.items
            → slice_index image.items i ≡ unwrap_or (certain self.now.disk.steps i) fill) }
        ensures image { IfOk result (λ image. IsImage self.now.disk.steps image.items) }
    {
        self.tracked.image(*self.bytes.allocator(), size, fill)
    }

    // Writes a piece of so many bytes that were to be written. Answers whether there was memory.
    fn put(&mut self, at: u64, piece: &[u8], n: u64) -> bool
        requires at { at ≤ length self.old.disk.bytes }
        requires piece { length piece.now ≤ n }
        requires fits { n < 2 ^ 63 }
        ensures plan { self.new.plan ≡ self.old.plan }
        ensures put { IsTrue result → self.new.disk ≡ record {
          bytes = overwritten at piece.now self.old.disk.bytes;
          steps = write at n ∷ self.old.disk.steps;
        } }
        ensures not_put { (result ≡ false) → self.new.disk ≡ rested self.old.disk }
        ensures within { at + length piece.now ≤ length self.old.disk.bytes → IsTrue result }
    {
        if overwrite(&mut self.bytes, at as usize, piece).is_err() {
            self.past.tell(&Call::Still);
            return false;
        }
        self.past.tell(&Call::Write(at, n));
        self.tracked.write(at, n);
        true
    }
}

impl Disk for MemDisk {
    ghost tells = { λ d. true };

    ghost told = { λ d. d.disk };

    ghost count = { λ d. d.plan.faults };

    fn faults(&self) -> u64 {
        self.plan.faults()
    }

    fn size(&mut self) -> Size
        ensures sound { IsSound self.old.disk }
        ensures fails { (result ≡ Size.Failed) ↔ IsSome (kept_next self.old.plan) }
        ensures counted { self.new.plan ≡ plan_after (kept_next self.old.plan) self.old.plan }
        ensures size { IfSize result (λ n. n ≡ length self.old.disk.bytes) }
        ensures still { self.new.disk ≡ rested self.old.disk }
        ensures cause { OnSizeFailed result (Rose self.old.plan.faults self.new.plan.faults) }
    {
        self.past.tell(&Call::Still);
        match self.plan.next() {
            Some(_) => Size::Failed,
            None => Size::Size(self.bytes.len() as u64),
        }
    }

    fn read(&mut self, at: u64, buf: &mut [u8]) -> Did
        requires { at + length buf.old ≤ length self.old.disk.bytes }
        ensures sound { IsSound self.old.disk }
        ensures fails { (result ≡ Did.Failed) ↔ IsSome (kept_next self.old.plan) }
        ensures counted { self.new.plan ≡ plan_after (kept_next self.old.plan) self.old.plan }
        ensures bytes { OnDid result (buf.new ≡ take (length buf.old) (drop at self.old.disk.bytes)) }
        ensures still { self.new.disk ≡ rested self.old.disk }
        ensures cause { OnFailed result (Rose self.old.plan.faults self.new.plan.faults) }
    {
        self.past.tell(&Call::Still);
        if self.plan.next().is_some() {
            return Did::Failed;
        }
        let start = at as usize;
        buf.copy_from_slice(&self.bytes[start..start + buf.len()]);
        Did::Did
    }

    // Where it is to fail, the bytes that go through may still want memory. Nothing is done then.
    fn write_at(&mut self, at: u64, bytes: &[u8]) -> Written
        requires { at ≤ length self.old.disk.bytes }
        ensures succeeds { IsNone (kept_next self.old.plan) → OnWriteFailed result ⊥ }
        ensures fails { IsSome (kept_next self.old.plan) → OnWritten result ⊥ }
        ensures counted { self.new.plan ≡ plan_after (kept_next self.old.plan) self.old.plan }
        ensures writes { Writes at bytes.now result self.old.disk self.new.disk }
        ensures kept { OnWriteFailed result (self.new.disk.bytes
            ≡ overwritten at (take (unwrap_or (kept_next self.old.plan) 0) bytes.now) self.old.disk.bytes) }
        ensures within { at + length bytes.now ≤ length self.old.disk.bytes → OnWriteMemory result ⊥ }
        ensures cause { OnWriteFailed result (Rose self.old.plan.faults self.new.plan.faults) }
        ensures never_falls { self.old.plan.faults ≤ self.new.plan.faults }
    {
        let n = bytes.len() as u64;
        match self.plan.next() {
            Some(kept) => {
                let through = bytes.len().min(kept as usize);
                if self.put(at, &bytes[..through], n) {
                    Written::Failed
                } else {
                    Written::Memory
                }
            }
            None => {
                if self.put(at, bytes, n) {
                    Written::Did
                } else {
                    Written::Memory
                }
            }
        }
    }

    fn cut(&mut self, size: u64) -> Did
        requires { size ≤ length self.old.disk.bytes }
        ensures fails { (result ≡ Did.Failed) ↔ IsSome (kept_next self.old.plan) }
        ensures counted { self.new.plan ≡ plan_after (kept_next self.old.plan) self.old.plan }
        ensures cuts { Cuts size result self.old.disk self.new.disk }
        ensures kept { OnFailed result (self.new.disk.bytes ≡ self.old.disk.bytes) }
        ensures cause { OnFailed result (Rose self.old.plan.faults self.new.plan.faults) }
    {
        self.past.tell(&Call::Cut(size));
        self.tracked.cut(size);
        if self.plan.next().is_some() {
            return Did::Failed;
        }
        self.bytes.truncate(size as usize);
        Did::Did
    }

    fn sync(&mut self) -> Did
        ensures fails { (result ≡ Did.Failed) ↔ IsSome (kept_next self.old.plan) }
        ensures counted { self.new.plan ≡ plan_after (kept_next self.old.plan) self.old.plan }
        ensures syncs { Syncs result self.old.disk self.new.disk }
        ensures cause { OnFailed result (Rose self.old.plan.faults self.new.plan.faults) }
    {
        if self.plan.next().is_some() {
            self.past.tell(&Call::Still);
            return Did::Failed;
        }
        self.past.tell(&Call::Sync(Snapshot::of(&self.bytes)));
        self.tracked = Tracked::synced(&self.bytes);
        Did::Did
    }
}

impl DatedDisk for MemDisk {
    type Over = Passed;

    ghost dated = { λ d. moment d.disk };

    fn passed(&self) -> Passed {
        self.past.passed()
    }
}
