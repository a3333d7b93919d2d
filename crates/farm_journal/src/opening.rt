//! Reading a disk whole.
ghost use Rattle.std.specs.Prelude.{◌≡◌, ◌≤◌, ◌+◌, ℕ, true, length, vec_len, IfOk, OnOk, IsErrOf};
ghost use Rattle.common_types.specs.Counts.{Rose};
ghost use Rattle.farm_disk.specs.Images.{IsSettled, moment};
ghost use Rattle.farm_journal.specs.ReadsOnly.{ReadsOnly};

use crate::disk_calls::{DiskFault, read, size, sync};
use farm_disk::Disk;
use std::alloc::{AllocError, Global};

// So many bytes to read into.
fn room(alloc: Global, n: usize) -> Result<Vec<u8>, AllocError>
    ensures { IfOk result (λ bytes. vec_len bytes ≡ n) }
{
    vec![in alloc; 0; n]
}

/// Syncs the disk and reads all that it holds, in one call.
pub(super) fn read_whole<D: Disk>(alloc: Global, disk: &mut D) -> Result<Vec<u8>, DiskFault>
    ensures same { D.tells disk.new ≡ D.tells disk.old }
    ensures bytes { IfOk result (λ bytes. D.tells disk.old ≡ true → bytes.items ≡ (D.told disk.old).bytes) }
    ensures settled { OnOk result (D.tells disk.old ≡ true → IsSettled (D.told disk.new)) }
    ensures only { D.tells disk.old ≡ true → ReadsOnly (D.told disk.old) (D.told disk.new) }
    ensures three_calls { OnOk result (D.tells disk.old ≡ true
        → moment (D.told disk.new) ≡ moment (D.told disk.old) + 3) }
    ensures cause { IsErrOf result DiskFault.Failed → Rose (D.count disk.old) (D.count disk.new) }
    ensures never_falls { D.count disk.old ≤ D.count disk.new }
{
    sync(disk)?;
    let n = size(disk)?;
    let mut bytes = room(alloc, n as usize)?;
    read(disk, 0, bytes.as_mut_slice())?;
    Ok(bytes)
}
