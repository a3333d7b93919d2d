//! The calls of a disk with a `Result`, so that they can be carried by `?`.
ghost use Rattle.std.specs.Prelude.{◌≡◌, ◌≤◌, ◌+◌, true, length, max, take, drop, IfOk, OnOk, IsErrOf};
ghost use Rattle.farm_journal.specs.declared.disk_calls.DiskFault.TheVariants.{Memory};
ghost use Rattle.common_types.specs.Counts.{Rose};
ghost use Rattle.farm_journal.specs.Outcome.{WriteEnds, CutEnds, SyncEnds};
ghost use Rattle.farm_disk.specs.Answers.{rested};

use farm_disk::{Did, Disk, Size, Written};
use std::alloc::{AllocError, AllocFailed};

/// Why a call on the disk wasn't done.
#[derive(Clone, Copy)]
pub(super) enum DiskFault {
    /// Out of memory.
    Memory,
    /// The disk failed, and its count of faults rose.
    Failed,
}

impl From<AllocError> for DiskFault {
    ghost from_gives = { λ _ e. e ≡ Memory };

    fn from(_: AllocError) -> Self {
        DiskFault::Memory
    }
}

impl<T: Drop> From<AllocFailed<T>> for DiskFault {
    ghost from_gives = { λ _ e. e ≡ Memory };

    fn from(_: AllocFailed<T>) -> Self {
        DiskFault::Memory
    }
}

pub(super) fn size<D: Disk>(disk: &mut D) -> Result<u64, DiskFault>
    ensures same { D.tells disk.new ≡ D.tells disk.old }
    ensures size { D.tells disk.old ≡ true → IfOk result (λ n. n ≡ length (D.told disk.old).bytes) }
    ensures still { D.tells disk.old ≡ true → D.told disk.new ≡ rested (D.told disk.old) }
    ensures memory { IsErrOf result DiskFault.Memory → ⊥ }
    ensures cause { IsErrOf result DiskFault.Failed → Rose (D.count disk.old) (D.count disk.new) }
    ensures never_falls { D.count disk.old ≤ D.count disk.new }
{
    match disk.size() {
        Size::Size(n) => Ok(n),
        Size::Failed => Err(DiskFault::Failed),
    }
}

pub(super) fn write<D: Disk>(disk: &mut D, at: u64, bytes: &[u8]) -> Result<(), DiskFault>
    requires { D.tells disk.old ≡ true → at ≤ length (D.told disk.old).bytes }
    ensures same { D.tells disk.new ≡ D.tells disk.old }
    ensures ends { D.tells disk.old ≡ true → WriteEnds at bytes.now result (D.told disk.old) (D.told disk.new) }
    ensures no_shorter { D.tells disk.old ≡ true → length (D.told disk.old).bytes ≤ length (D.told disk.new).bytes }
    ensures no_longer { D.tells disk.old ≡ true
        → length (D.told disk.new).bytes ≤ max (length (D.told disk.old).bytes) (at + length bytes.now) }
    ensures within { D.tells disk.old ≡ true → at + length bytes.now ≤ length (D.told disk.old).bytes
        → IsErrOf result DiskFault.Memory → ⊥ }
    ensures cause { IsErrOf result DiskFault.Failed → Rose (D.count disk.old) (D.count disk.new) }
    ensures never_falls { D.count disk.old ≤ D.count disk.new }
{
    match disk.write_at(at, bytes) {
        Written::Did => Ok(()),
        Written::Failed => Err(DiskFault::Failed),
        Written::Memory => Err(DiskFault::Memory),
    }
}

pub(super) fn sync<D: Disk>(disk: &mut D) -> Result<(), DiskFault>
    ensures same { D.tells disk.new ≡ D.tells disk.old }
    ensures ends { D.tells disk.old ≡ true → SyncEnds result (D.told disk.old) (D.told disk.new) }
    ensures memory { IsErrOf result DiskFault.Memory → ⊥ }
    ensures cause { IsErrOf result DiskFault.Failed → Rose (D.count disk.old) (D.count disk.new) }
    ensures never_falls { D.count disk.old ≤ D.count disk.new }
{
    match disk.sync() {
        Did::Did => Ok(()),
        Did::Failed => Err(DiskFault::Failed),
    }
}

pub(super) fn read<D: Disk>(disk: &mut D, at: u64, buf: &mut [u8]) -> Result<(), DiskFault>
    requires { D.tells disk.old ≡ true → at + length buf.old ≤ length (D.told disk.old).bytes }
    ensures same { D.tells disk.new ≡ D.tells disk.old }
    ensures bytes { D.tells disk.old ≡ true
        → OnOk result (buf.new ≡ take (length buf.old) (drop at (D.told disk.old).bytes)) }
    ensures still { D.tells disk.old ≡ true → D.told disk.new ≡ rested (D.told disk.old) }
    ensures memory { IsErrOf result DiskFault.Memory → ⊥ }
    ensures cause { IsErrOf result DiskFault.Failed → Rose (D.count disk.old) (D.count disk.new) }
    ensures never_falls { D.count disk.old ≤ D.count disk.new }
{
    match disk.read(at, buf) {
        Did::Did => Ok(()),
        Did::Failed => Err(DiskFault::Failed),
    }
}

pub(super) fn cut<D: Disk>(disk: &mut D, size: u64) -> Result<(), DiskFault>
    requires { D.tells disk.old ≡ true → size ≤ length (D.told disk.old).bytes }
    ensures same { D.tells disk.new ≡ D.tells disk.old }
    ensures ends { D.tells disk.old ≡ true → CutEnds size result (D.told disk.old) (D.told disk.new) }
    ensures memory { IsErrOf result DiskFault.Memory → ⊥ }
    ensures cause { IsErrOf result DiskFault.Failed → Rose (D.count disk.old) (D.count disk.new) }
    ensures never_falls { D.count disk.old ≤ D.count disk.new }
{
    match disk.cut(size) {
        Did::Did => Ok(()),
        Did::Failed => Err(DiskFault::Failed),
    }
}
