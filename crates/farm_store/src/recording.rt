//! Storing the entries by which the farm in memory is ahead of its journal.

ghost use Rattle.std.specs.Prelude.{◌≡◌, ◌≢◌, ◌≤◌, [], true, length, take, drop, None, OnOk, OnErr, All};
ghost use Rattle.farm_disk.specs.Images.{LeavesOnly};
ghost use Rattle.farm_journal.specs.Layout.{version_of};
ghost use Rattle.entry_codec.specs.Grammar.{AreSpelled, IsWithinLimits};
ghost use Rattle.entry_codec.specs.Spelling.{spelling};
ghost use Rattle.farm_journal.specs.Faults.{OnMemory, OnStoreFault};
ghost use Rattle.farm_store.specs.Faults.{HasCountFrom};
ghost use Rattle.farm_store.specs.Recorded.{IsOpen, LeavesNew, Wrote};
ghost use Rattle.farm_store.specs.StoreInside.{IsAhead, IsStore};
ghost use Rattle.farm_store.specs.declared.asking.TheConstants.{MAX_RECORD_BYTES};

use entry_codec::write_entries_into;
use farm_core::Farm;
use farm_disk::Disk;
use farm_entry::Entry;
use farm_journal::{Journal, JournalFault};
use std::alloc::Global;

/// Stores what stands in the farm's history from a place on, in one record, or takes it back. Where the disk failed, it
/// may be committed again once a repair has found that it was kept. Where nothing stands there, nothing is written. The
/// record's payload is put together in the room of `payload`.
pub fn record_from<D: Disk>(
    alloc: Global,
    payload: &mut Vec<u8>,
    farm: &mut Farm,
    journal: &mut Journal<D>,
    start: usize,
    before: u64,
) -> Result<(), JournalFault>
    requires ahead { IsAhead D.tells D.told start farm.old journal.old }

    ensures same { D.tells journal.new.disk ≡ D.tells journal.old.disk }
    ensures kept { IsStore D.tells D.told farm.new journal.new }
    ensures any_moment { D.tells journal.old.disk ≡ true
        → LeavesOnly (D.told journal.old.disk) (D.told journal.new.disk)
        (LeavesNew (take start farm.old.history) (drop start farm.old.history) result) }

    ensures stored { OnOk result (farm.new.history ≡ farm.old.history) }
    ensures decided { OnOk result (journal.new.pending ≡ None) }
    ensures taken_back { OnErr result (farm.new.history ≡ take start farm.old.history) }
    ensures undecided { OnStoreFault result (farm.new.ready ≡ drop start farm.old.history) }
    ensures pending { OnStoreFault result (journal.new.pending ≢ None) }
    ensures memory { OnMemory result (journal.new.pending ≡ None) }
    ensures nothing { drop start farm.old.history ≡ [] → OnOk result (journal.new ≡ journal.old) }
    ensures new_version { drop start farm.old.history ≢ [] → D.tells journal.old.disk ≡ true
        → OnOk result (version_of (D.told journal.new.disk).bytes ≡ 2) }

    ensures cause { HasCountFrom before result (D.count journal.old.disk) (D.count journal.new.disk) }
    ensures never_falls { D.count journal.old.disk ≤ D.count journal.new.disk }
{
    match write_new(alloc, payload, journal, &farm.history()[start..], before) {
        Ok(()) => Ok(()),
        Err(fault) => {
            farm.retract(farm.history().len() - start);
            Err(fault)
        }
    }
}

/// Writes entries as one record, where there are any.
fn write_new<D: Disk>(
    alloc: Global,
    payload: &mut Vec<u8>,
    journal: &mut Journal<D>,
    entries: &[Entry],
    before: u64,
) -> Result<(), JournalFault>
    requires open { IsOpen D.tells D.told journal.old }
    requires within { All (λ entry. IsWithinLimits entry.what) entries.now }
    requires fits { AreSpelled entries.now → length (spelling entries.now) ≤ MAX_RECORD_BYTES }

    ensures same { D.tells journal.new.disk ≡ D.tells journal.old.disk }
    ensures wrote { Wrote D.tells D.told entries.now result journal.old journal.new }
    ensures new_version { entries.now ≢ [] → D.tells journal.old.disk ≡ true
        → OnOk result (version_of (D.told journal.new.disk).bytes ≡ 2) }
    ensures cause { HasCountFrom before result (D.count journal.old.disk) (D.count journal.new.disk) }
    ensures never_falls { D.count journal.old.disk ≤ D.count journal.new.disk }
{
    if entries.is_empty() {
        return Ok(());
    }
    let Ok(()) = write_entries_into(payload, entries) else {
        return Err(JournalFault::Memory);
    };
    match journal.append(alloc, payload) {
        Ok(()) => Ok(()),
        Err(JournalFault::StoreFault { after, .. }) => Err(JournalFault::StoreFault {
            before,
            after,
        }),
        Err(JournalFault::Memory) => Err(JournalFault::Memory),
    }
}
