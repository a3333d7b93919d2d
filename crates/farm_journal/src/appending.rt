//! Appending a record at the closed gate of a file of version 2.
ghost use Rattle.std.specs.Prelude.{◌≡◌, ◌≤◌, ◌<◌, ◌+◌, ◌++◌, ◌∷◌, [], ◌^◌, ℕ, List, true, length, max, OnOk, IsErrOf};
ghost use Rattle.common_types.specs.Counts.{Rose};
ghost use Rattle.farm_disk.specs.Images.{LeavesOnly, moment};
ghost use Rattle.farm_journal.specs.Layout.{IsPayload};
ghost use Rattle.farm_journal.specs.Gates.{Rests, Waits, IsEither};
ghost use Rattle.farm_journal.specs.Outcome.{IsUndone};

use crate::disk_calls::{DiskFault, sync, write};
use crate::layout::put_closed_frame;
use farm_disk::Disk;

/// Writes the record behind the closed gate and syncs, and then opens the gate and syncs. The record is put together in
/// the room of `piece`.
pub(super) fn append_record<D: Disk>(
    piece: &mut Vec<u8>,
    disk: &mut D,
    gate: u64,
    payload: &[u8],
) -> Result<(), DiskFault>
    requires payload { IsPayload payload.now }
    requires fits { gate < 2 ^ 63 }
    requires gate { D.tells disk.old ≡ true → gate < length (D.told disk.old).bytes }

    ensures same { D.tells disk.new ≡ D.tells disk.old }

    // A crash at any moment of the call leaves the payloads from before it, or these and the new one.
    ensures any_moment { D.tells disk.old ≡ true → (ps : List (List ℕ)) → Rests 2 ps gate (D.told disk.old)
        → LeavesOnly (D.told disk.old) (D.told disk.new) (IsEither 2 ps gate payload.now) }

    ensures done { OnOk result (D.tells disk.old ≡ true → (ps : List (List ℕ)) → Rests 2 ps gate (D.told disk.old)
        → Rests 2 (ps ++ payload.now ∷ []) (gate + 5 + length payload.now) (D.told disk.new)) }
    ensures four_calls { OnOk result (D.tells disk.old ≡ true
        → moment (D.told disk.new) ≡ moment (D.told disk.old) + 4) }
    ensures failed { IsErrOf result DiskFault.Failed → D.tells disk.old ≡ true → (ps : List (List ℕ))
        → Rests 2 ps gate (D.told disk.old) → Waits 2 ps gate payload.now (D.told disk.new) }
    ensures memory { IsErrOf result DiskFault.Memory → D.tells disk.old ≡ true → (ps : List (List ℕ))
        → Rests 2 ps gate (D.told disk.old) → Rests 2 ps gate (D.told disk.new) }
    ensures undone { IsErrOf result DiskFault.Memory → D.tells disk.old ≡ true
        → IsUndone (D.told disk.old) (D.told disk.new) }
    // Nothing is written past the new closed gate.
    ensures no_longer { D.tells disk.old ≡ true → length (D.told disk.new).bytes
        ≤ max (length (D.told disk.old).bytes) (gate + 6 + length payload.now) }

    ensures cause { IsErrOf result DiskFault.Failed → Rose (D.count disk.old) (D.count disk.new) }
    ensures never_falls { D.count disk.old ≤ D.count disk.new }
{
    put_closed_frame(piece, payload)?;
    write(disk, gate + 1, piece)?;
    sync(disk)?;
    write(disk, gate, &[1])?;
    sync(disk)
}
