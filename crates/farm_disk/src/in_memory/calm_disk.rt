//! A disk in memory that never fails.
ghost use Rattle.std.specs.Prelude.{◌≡◌, ◌≤◌, ◌+◌, ◌∷◌, [], true, length, take, drop};
ghost use Rattle.farm_disk.specs.Answers.{rested, after_cut, after_sync, Writes, OnWriteFailed, OnWriteMemory};
ghost use Rattle.farm_disk.specs.Images.{moment, sync};
ghost use Rattle.farm_disk.specs.Model.{IsSound};

use super::call_log::CallLog;
use super::overwrite::overwrite;
use crate::{Call, DatedDisk, Did, Disk, Size, Written};
use common_types::Passed;
use std::marker::Model;
use std::snapshot::Snapshot;

/// A disk in memory that never fails. It tells everything.
#[derive(Drop)]
pub struct CalmDisk {
    bytes: Vec<u8>,
    past: CallLog,
}

impl Model for CalmDisk {
    ghost use Rattle.std.specs.Prelude.{map};
    ghost use Rattle.farm_disk.specs.Images.{DiskState};
    ghost use Rattle.farm_disk.specs.InMemory.{step_of};

    ghost Value = { DiskState };

    ghost view = { λ d. record { bytes = d.bytes.items; steps = map step_of d.past } };

    ghost use Rattle.farm_disk.specs.CalmDiskKept.{IsKept};

    ghost invariant = { IsKept };
}

impl CalmDisk {
    /// A disk with these bytes. A crash leaves them.
    pub fn of(bytes: Vec<u8>) -> CalmDisk
        ensures { result ≡ record { bytes = bytes.items; steps = sync bytes.items ∷ [] } }
    {
        let mut past = CallLog::new();
        past.tell(&Call::Sync(Snapshot::of(&bytes)));
        CalmDisk { bytes, past }
    }

    /// The bytes that a read gives.
    pub fn bytes(&self) -> &[u8]
        ensures { result.now ≡ self.now.bytes }
    {
        &self.bytes
    }
}

impl Disk for CalmDisk {
    ghost tells = { λ d. true };

    ghost told = { λ d. d };

    ghost count = { λ d. 0 };

    fn faults(&self) -> u64 {
        0
    }

    fn size(&mut self) -> Size
        ensures sound { IsSound self.old }
        ensures size { result ≡ Size.Size (length self.old.bytes) }
        ensures still { self.new ≡ rested self.old }
    {
        self.past.tell(&Call::Still);
        Size::Size(self.bytes.len() as u64)
    }

    fn read(&mut self, at: u64, buf: &mut [u8]) -> Did
        requires { at + length buf.old ≤ length self.old.bytes }
        ensures sound { IsSound self.old }
        ensures done { result ≡ Did.Did }
        ensures bytes { buf.new ≡ take (length buf.old) (drop at self.old.bytes) }
        ensures still { self.new ≡ rested self.old }
    {
        self.past.tell(&Call::Still);
        let start = at as usize;
        buf.copy_from_slice(&self.bytes[start..start + buf.len()]);
        Did::Did
    }

    fn write_at(&mut self, at: u64, bytes: &[u8]) -> Written
        requires { at ≤ length self.old.bytes }
        ensures never_fails { OnWriteFailed result ⊥ }
        ensures writes { Writes at bytes.now result self.old self.new }
        ensures within { at + length bytes.now ≤ length self.old.bytes → OnWriteMemory result ⊥ }
    {
        match overwrite(&mut self.bytes, at as usize, bytes) {
            Ok(()) => {
                self.past.tell(&Call::Write(at, bytes.len() as u64));
                Written::Did
            }
            Err(_) => {
                self.past.tell(&Call::Still);
                Written::Memory
            }
        }
    }

    fn cut(&mut self, size: u64) -> Did
        requires { size ≤ length self.old.bytes }
        ensures done { result ≡ Did.Did }
        ensures cuts { self.new ≡ after_cut size self.old }
    {
        self.bytes.truncate(size as usize);
        self.past.tell(&Call::Cut(size));
        Did::Did
    }

    fn sync(&mut self) -> Did
        ensures done { result ≡ Did.Did }
        ensures syncs { self.new ≡ after_sync self.old }
    {
        self.past.tell(&Call::Sync(Snapshot::of(&self.bytes)));
        Did::Did
    }
}

impl DatedDisk for CalmDisk {
    type Over = Passed;

    ghost dated = { λ d. moment d };

    fn passed(&self) -> Passed {
        self.past.passed()
    }
}
