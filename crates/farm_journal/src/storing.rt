//! Storing a payload on a disk of either version.
ghost use Rattle.std.specs.Prelude.{◌≡◌, ◌≤◌, ◌<◌, ◌+◌, ◌⊎◌, ◌++◌, ◌∷◌, [], ◌^◌, ℕ, List, true, length, OnOk, IsErrOf};
ghost use Rattle.common_types.specs.Counts.{Rose};
ghost use Rattle.farm_disk.specs.Images.{LeavesOnly, moment};
ghost use Rattle.farm_journal.specs.Layout.{IsPayload};
ghost use Rattle.farm_journal.specs.Gates.{Rests, Stands, Waits, IsEither};
ghost use Rattle.farm_journal.specs.declared.layout.TheConstants.{FIRST_GATE, GATE_LIMIT};

use crate::appending::append_record;
use crate::disk_calls::DiskFault;
use crate::upgrading::upgrade;
use farm_disk::Disk;

/// Appends a payload at a closed gate. A file that isn't known to be of version 2 is upgraded first.
pub(super) fn store<D: Disk>(
    piece: &mut Vec<u8>,
    disk: &mut D,
    version: &mut u8,
    gate: u64,
    payload: &[u8],
) -> Result<(), DiskFault>
    requires payload { IsPayload payload.now }
    requires fits { gate < GATE_LIMIT }
    requires first { FIRST_GATE ≤ gate }
    requires gate { D.tells disk.old ≡ true → gate < length (D.told disk.old).bytes }

    ensures same { D.tells disk.new ≡ D.tells disk.old }
    ensures any_moment { D.tells disk.old ≡ true → (ps : List (List ℕ)) → Rests version.old ps gate (D.told disk.old)
        → LeavesOnly (D.told disk.old) (D.told disk.new) (IsEither 1 ps gate payload.now) }

    // A file of version 2 is one at each moment of the call.
    ensures stays { version.old ≡ 2 → D.tells disk.old ≡ true → (ps : List (List ℕ))
        → Rests 2 ps gate (D.told disk.old)
        → LeavesOnly (D.told disk.old) (D.told disk.new) (IsEither 2 ps gate payload.now) }

    ensures new_version { OnOk result (version.new ≡ 2) }
    ensures upgrades { (version.new ≡ version.old) ⊎ (version.new ≡ 2) }
    // An upgrade leaves nothing of what stood behind the closed gate.
    ensures cuts { (version.new ≡ version.old)
        ⊎ (D.tells disk.old ≡ true → length (D.told disk.new).bytes ≤ gate + 6 + length payload.now) }
    ensures done { OnOk result (D.tells disk.old ≡ true → (ps : List (List ℕ))
        → Rests version.old ps gate (D.told disk.old)
        → Rests 2 (ps ++ payload.now ∷ []) (gate + 5 + length payload.now) (D.told disk.new)) }
    ensures four_calls { version.old ≡ 2 → OnOk result (D.tells disk.old ≡ true
        → moment (D.told disk.new) ≡ moment (D.told disk.old) + 4) }
    ensures failed { IsErrOf result DiskFault.Failed → D.tells disk.old ≡ true → (ps : List (List ℕ))
        → Rests version.old ps gate (D.told disk.old) → Waits version.new ps gate payload.now (D.told disk.new) }
    ensures memory { IsErrOf result DiskFault.Memory → D.tells disk.old ≡ true → (ps : List (List ℕ))
        → Rests version.old ps gate (D.told disk.old) → Rests version.new ps gate (D.told disk.new) }
    // Where memory ran out, no crash leaves the new one.
    ensures leaves_before { IsErrOf result DiskFault.Memory → D.tells disk.old ≡ true → (ps : List (List ℕ))
        → Rests version.old ps gate (D.told disk.old)
        → LeavesOnly (D.told disk.old) (D.told disk.new) (Stands 1 ps gate) }

    ensures cause { IsErrOf result DiskFault.Failed → Rose (D.count disk.old) (D.count disk.new) }
    ensures never_falls { D.count disk.old ≤ D.count disk.new }
{
    if *version == 2 {
        return append_record(piece, disk, gate, payload);
    }
    upgrade(disk, gate)?;
    *version = 2;
    append_record(piece, disk, gate, payload)
}
