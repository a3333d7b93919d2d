//! Making a file of version 1 one of version 2.
ghost use Rattle.std.specs.Prelude.{◌≡◌, ◌≤◌, ◌<◌, ◌+◌, ◌^◌, ℕ, List, true, length, OnOk, IsErr, IsErrOf};
ghost use Rattle.common_types.specs.Counts.{Rose};
ghost use Rattle.farm_disk.specs.Images.{LeavesOnly};
ghost use Rattle.farm_journal.specs.Gates.{Rests, Stands};
ghost use Rattle.farm_journal.specs.declared.layout.TheConstants.{FIRST_GATE};

use crate::disk_calls::{DiskFault, cut, sync, write};
use crate::layout::{FIRST_GATE, VERSION_2};
use farm_disk::Disk;

/// Cuts off what follows the closed gate and syncs, and then writes the new version byte and syncs. No older program
/// reads the file afterwards.
pub(super) fn upgrade<D: Disk>(disk: &mut D, gate: u64) -> Result<(), DiskFault>
    requires fits { gate < 2 ^ 63 }
    requires first { FIRST_GATE ≤ gate }
    requires gate { D.tells disk.old ≡ true → gate < length (D.told disk.old).bytes }

    ensures same { D.tells disk.new ≡ D.tells disk.old }

    // A crash at any moment of the call leaves the same payloads, in either version.
    ensures any_moment { D.tells disk.old ≡ true → (ps : List (List ℕ)) → Rests 1 ps gate (D.told disk.old)
        → LeavesOnly (D.told disk.old) (D.told disk.new) (Stands 1 ps gate) }

    ensures done { OnOk result (D.tells disk.old ≡ true → (ps : List (List ℕ)) → Rests 1 ps gate (D.told disk.old)
        → Rests 2 ps gate (D.told disk.new)) }
    // Nothing of what stood behind the closed gate is left.
    ensures cuts { OnOk result (D.tells disk.old ≡ true → length (D.told disk.new).bytes ≡ gate + 1) }
    ensures reads { D.tells disk.old ≡ true → (ps : List (List ℕ)) → Rests 1 ps gate (D.told disk.old)
        → Stands 1 ps gate (D.told disk.new).bytes }

    ensures memory { IsErrOf result DiskFault.Memory → D.tells disk.old ≡ true → ⊥ }
    ensures cause { IsErrOf result DiskFault.Failed → Rose (D.count disk.old) (D.count disk.new) }
    ensures never_falls { D.count disk.old ≤ D.count disk.new }
{
    cut(disk, gate + 1)?;
    sync(disk)?;
    write(disk, FIRST_GATE - 1, &[VERSION_2])?;
    sync(disk)
}
