//! What became of a record whose append failed.
ghost use Rattle.std.specs.Prelude.{◌≡◌, ◌≤◌, ◌<◌, ◌+◌, ℕ, List, true, length, IfOk, OnErr, OnOk};
ghost use Rattle.common_types.specs.Counts.{Rose};
ghost use Rattle.farm_disk.specs.Images.{LeavesOnly, moment};
ghost use Rattle.farm_journal.specs.Gates.{Waits, IsEither};
ghost use Rattle.farm_journal.specs.Mended.{Mends};
ghost use Rattle.farm_journal.specs.ReadsOnly.{ReadsOnly};

use crate::disk_calls::{DiskFault, read, sync};
use farm_disk::Disk;

/// What a repair found.
#[derive(Clone, Copy)]
pub enum Repaired {
    /// The payload was kept: it is one of the journal's.
    Kept,
    /// The payload was dropped: the journal's are those from before the append.
    Dropped,
}

/// Finds out by the gate whether a record was kept whose append failed there. It syncs and reads the gate, and writes
/// and cuts nothing.
pub(super) fn mend<D: Disk>(disk: &mut D, gate: u64) -> Result<Repaired, DiskFault>
    requires { D.tells disk.old ≡ true → gate < length (D.told disk.old).bytes }

    ensures same { D.tells disk.new ≡ D.tells disk.old }
    ensures any_moment { D.tells disk.old ≡ true → (known : ℕ) (ps : List (List ℕ)) (p : List ℕ)
        → Waits known ps gate p (D.told disk.old)
        → LeavesOnly (D.told disk.old) (D.told disk.new) (IsEither known ps gate p) }
    ensures named { D.tells disk.old ≡ true → (known : ℕ) (ps : List (List ℕ)) (p : List ℕ)
        → Waits known ps gate p (D.told disk.old)
        → IfOk result (λ found. Mends known ps gate p found (D.told disk.new)) }
    ensures waits { D.tells disk.old ≡ true → (known : ℕ) (ps : List (List ℕ)) (p : List ℕ)
        → Waits known ps gate p (D.told disk.old) → Waits known ps gate p (D.told disk.new) }
    ensures only { D.tells disk.old ≡ true → ReadsOnly (D.told disk.old) (D.told disk.new) }
    ensures two_calls { OnOk result (D.tells disk.old ≡ true
        → moment (D.told disk.new) ≡ moment (D.told disk.old) + 2) }

    ensures cause { OnErr result (Rose (D.count disk.old) (D.count disk.new)) }
    ensures never_falls { D.count disk.old ≤ D.count disk.new }
{
    sync(disk)?;
    let mut byte = [0];
    read(disk, gate, &mut byte)?;
    if byte[0] == 0 {
        Ok(Repaired::Dropped)
    } else {
        Ok(Repaired::Kept)
    }
}
