//! The subcommand `run JOURNAL`.

ghost use Rattle.std.specs.Prelude.{◌≡◌, ◌≤◌, [], Some};
ghost use Rattle.farm_script.specs.declared.run_end.RunEnd.TheVariants as script;
ghost use Rattle.outside_seen.specs.Outside.{disk_seen};
ghost use Rattle.finder_commands.specs.Disks.{HasStoreCause};
ghost use Rattle.finder_commands.specs.RunJournal.{IsStoreFaultOf, JournalRunEnds, StoreRan, journal_end};
ghost use Rattle.common_types.specs.Counts.{Rose};
ghost use Rattle.link_io.specs.Streams.{streams};

use crate::opening::status_of_opening;
use crate::status::Status;
use farm_disk::Disk;
use farm_script::{RunEnd, run_script};
use farm_store::Store;
use link_io::{Sink, Source};
use std::alloc::Global;

/// Opens the journal, and answers the script's lines from its farm, each as soon as it is whole. A reply line is put
/// after its entry was stored.
pub fn run_journal<S: Source, K: Sink, D: Disk>(
    alloc: Global,
    input: &mut S,
    output: &mut K,
    disk: D,
) -> (Status, D)
    ensures ends { let before = streams S.Source K.Sink input.old output.old in
        let after = streams S.Source K.Sink input.new output.new in
        JournalRunEnds result.0 before after (disk_seen D.Disk disk) (disk_seen D.Disk result.1) }
    ensures cause { HasStoreCause result.0 (disk_seen D.Disk disk) (disk_seen D.Disk result.1) }
    ensures tells { D.tells result.1 ≡ D.tells disk }
    ensures never_falls { D.count disk ≤ D.count result.1 }
{
    let before = disk.faults();
    match Store::open_on(alloc, disk) {
        Ok(store) => run_store(alloc, input, output, store, before),
        Err((disk, fault)) => (status_of_opening(fault), disk),
    }
}

/// Runs the script over a store, where this was the disk's count of faults before it was opened.
fn run_store<S: Source, K: Sink, D: Disk>(
    alloc: Global,
    input: &mut S,
    output: &mut K,
    store: Store<D>,
    before: u64,
) -> (Status, D)
    requires decided { store.pending ≡ [] }
    requires before { before ≤ D.count store.disk }
    ensures ran { let streams_before = streams S.Source K.Sink input.old output.old in
        let streams_after = streams S.Source K.Sink input.new output.new in
        (end : RunEnd) × (journal_end result.0 ≡ Some end)
        × StoreRan D.Disk end streams_before streams_after store result.1 }
    ensures cause { HasStoreCause result.0
        (record { tells = D.tells store.disk; told = D.told store.disk; faults = before }) (disk_seen D.Disk result.1) }
    ensures tells { D.tells result.1 ≡ D.tells store.disk }
    ensures never_falls { D.count store.disk ≤ D.count result.1 }
{
    let mut store = store;
    let end = run_script(alloc, &mut store, input, output);
    let after = store.faults();
    (status_of_end(end, before, after), store.into_disk())
}

/// The status that stands for the end of a script's run over a journal.
fn status_of_end(end: RunEnd, before: u64, after: u64) -> Status
    ensures stands { journal_end result ≡ Some end }
    ensures store_fault { IsStoreFaultOf result before after end }
{
    match end {
        RunEnd::Done => Status::Done,
        RunEnd::ReadFault => Status::ReadFault,
        RunEnd::WriteFault => Status::WriteFault,
        RunEnd::StoreFault => Status::StoreFault { before, after },
        RunEnd::Memory => Status::Memory,
        RunEnd::InputLimit => Status::InputLimit,
    }
}
