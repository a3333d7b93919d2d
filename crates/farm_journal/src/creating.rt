//! Creating a journal on a disk.
ghost use Rattle.std.specs.Prelude.{
  ◌≡◌,
  ◌≤◌,
  ◌<◌,
  ◌+◌,
  ◌++◌,
  ◌∷◌,
  [],
  true,
  false,
  Ok,
  length,
  slice_index,
  IfOk,
  OnOk,
  IsErrOf,
};
ghost use Rattle.common_types.specs.Counts.{Rose};
ghost use Rattle.farm_disk.specs.Images.{EachImage, IsSettled, LeavesOnly, LeavesSinceSync};
ghost use Rattle.farm_journal.specs.Layout.{framed, gate_of, is_unborn, IsPayload};
ghost use Rattle.farm_journal.specs.Gates.{Rests};
ghost use Rattle.farm_journal.specs.Created.{IsUnborn, IsUnbornOrFirst, IsReady};
ghost use Rattle.farm_journal.specs.declared.layout.TheConstants.{MAGIC, VERSION_2};

use crate::disk_calls::{DiskFault, read, size, sync, write};
use crate::layout::first_frame;
use farm_disk::Disk;
use std::alloc::Global;

// Writes the birth byte of a file of at most one byte, which is unborn still.
fn begin<D: Disk>(disk: &mut D) -> Result<(), DiskFault>
    requires { D.tells disk.old ≡ true → length (D.told disk.old).bytes ≤ 1 }
    ensures same { D.tells disk.new ≡ D.tells disk.old }
    ensures any_moment { D.tells disk.old ≡ true → IsSettled (D.told disk.old)
        → LeavesOnly (D.told disk.old) (D.told disk.new) IsUnborn }
    ensures done { OnOk result (D.tells disk.old ≡ true → IsReady (D.told disk.new)) }
    ensures cause { IsErrOf result DiskFault.Failed → Rose (D.count disk.old) (D.count disk.new) }
    ensures never_falls { D.count disk.old ≤ D.count disk.new }
{
    write(disk, 0, &[0])?;
    sync(disk)
}

// Writes all but the birth byte and syncs, and then the birth byte and syncs.
fn bear<D: Disk>(disk: &mut D, frame: &[u8], payload: &[u8]) -> Result<(), DiskFault>
    requires payload { IsPayload payload.now }
    requires frame { frame.now ≡ MAGIC ++ VERSION_2 ∷ 1 ∷ framed payload.now ++ 0 ∷ [] }
    requires ready { D.tells disk.old ≡ true → IsReady (D.told disk.old) }
    ensures same { D.tells disk.new ≡ D.tells disk.old }
    ensures any_moment { D.tells disk.old ≡ true
        → LeavesOnly (D.told disk.old) (D.told disk.new) (IsUnbornOrFirst payload.now) }
    ensures done { OnOk result (D.tells disk.old ≡ true
        → Rests 2 (payload.now ∷ []) (gate_of (payload.now ∷ [])) (D.told disk.new)) }
    ensures memory { IsErrOf result DiskFault.Memory → D.tells disk.old ≡ true
        → LeavesOnly (D.told disk.old) (D.told disk.new) IsUnborn }
    ensures cause { IsErrOf result DiskFault.Failed → Rose (D.count disk.old) (D.count disk.new) }
    ensures never_falls { D.count disk.old ≤ D.count disk.new }
{
    write(disk, 1, frame)?;
    sync(disk)?;
    write(disk, 0, &[1])?;
    sync(disk)
}

// The same on a disk that was synced. Answers whether it was unborn.
fn found_synced<D: Disk>(disk: &mut D, frame: &[u8], payload: &[u8]) -> Result<bool, DiskFault>
    requires payload { IsPayload payload.now }
    requires frame { frame.now ≡ MAGIC ++ VERSION_2 ∷ 1 ∷ framed payload.now ++ 0 ∷ [] }
    requires settled { D.tells disk.old ≡ true → IsSettled (D.told disk.old) }
    ensures same { D.tells disk.new ≡ D.tells disk.old }
    ensures any_moment { D.tells disk.old ≡ true → is_unborn (D.told disk.old).bytes ≡ true
        → LeavesOnly (D.told disk.old) (D.told disk.new) (IsUnbornOrFirst payload.now) }
    ensures born { D.tells disk.old ≡ true → is_unborn (D.told disk.old).bytes ≡ false
        → (D.told disk.new).bytes ≡ (D.told disk.old).bytes }
    ensures fresh { D.tells disk.old ≡ true → IfOk result (λ fresh. fresh ≡ is_unborn (D.told disk.old).bytes) }
    ensures done { result ≡ Ok true → D.tells disk.old ≡ true
        → Rests 2 (payload.now ∷ []) (gate_of (payload.now ∷ [])) (D.told disk.new) }
    ensures memory { IsErrOf result DiskFault.Memory → D.tells disk.old ≡ true
        → is_unborn (D.told disk.old).bytes ≡ true → LeavesOnly (D.told disk.old) (D.told disk.new) IsUnborn }
    ensures cause { IsErrOf result DiskFault.Failed → Rose (D.count disk.old) (D.count disk.new) }
    ensures never_falls { D.count disk.old ≤ D.count disk.new }
{
    if size(disk)? <= 1 {
        begin(disk)?;
        bear(disk, frame, payload)?;
        return Ok(true);
    }
    let mut byte = [0];
    read(disk, 0, &mut byte)?;
    if byte[0] != 0 {
        return Ok(false);
    }
    bear(disk, frame, payload)?;
    Ok(true)
}

/// Creates the journal of one payload where the disk is unborn. Answers whether it was.
pub(super) fn found<D: Disk>(alloc: Global, disk: &mut D, payload: &[u8]) -> Result<bool, DiskFault>
    requires { IsPayload payload.now }
    ensures same { D.tells disk.new ≡ D.tells disk.old }
    ensures since_sync { D.tells disk.old ≡ true → is_unborn (D.told disk.old).bytes ≡ true
        → LeavesSinceSync (D.told disk.old) (D.told disk.new) (IsUnbornOrFirst payload.now) }
    ensures any_moment { D.tells disk.old ≡ true → is_unborn (D.told disk.old).bytes ≡ true
        → EachImage (D.told disk.old).steps IsUnborn
        → LeavesOnly (D.told disk.old) (D.told disk.new) (IsUnbornOrFirst payload.now) }
    ensures born { D.tells disk.old ≡ true → is_unborn (D.told disk.old).bytes ≡ false
        → (D.told disk.new).bytes ≡ (D.told disk.old).bytes }
    ensures fresh { D.tells disk.old ≡ true → IfOk result (λ fresh. fresh ≡ is_unborn (D.told disk.old).bytes) }
    ensures done { result ≡ Ok true → D.tells disk.old ≡ true
        → Rests 2 (payload.now ∷ []) (gate_of (payload.now ∷ [])) (D.told disk.new) }
    ensures memory { IsErrOf result DiskFault.Memory → D.tells disk.old ≡ true
        → is_unborn (D.told disk.old).bytes ≡ true → EachImage (D.told disk.old).steps IsUnborn
        → LeavesOnly (D.told disk.old) (D.told disk.new) IsUnborn }
    ensures cause { IsErrOf result DiskFault.Failed → Rose (D.count disk.old) (D.count disk.new) }
    ensures never_falls { D.count disk.old ≤ D.count disk.new }
{
    let frame = first_frame(alloc, payload)?;
    sync(disk)?;
    found_synced(disk, &frame, payload)
}
