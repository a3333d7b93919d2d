//! The subcommand `close JOURNAL`.

ghost use Rattle.std.specs.Prelude.{◌≡◌, ◌≤◌};
ghost use Rattle.connection_laws.specs.Moments.{MayGive};
ghost use Rattle.farm_handover.specs.Handover.{handover_of};
ghost use Rattle.outside_seen.specs.Outside.{disk_seen, output_seen};
ghost use Rattle.finder_commands.specs.CloseCommand.{CloseEnds, status_of_unclosed};
ghost use Rattle.finder_commands.specs.Disks.{HasStoreCause};
ghost use Rattle.finder_commands.specs.TextPut.{TextPut};

use crate::opening::status_of_opening;
use crate::put_text::put_text;
use crate::status::Status;
use farm_disk::Disk;
use farm_entry::Entry;
use farm_handover::handover_text;
use farm_store::{CloseFault, Store};
use link_io::{Clock, Sink};
use std::alloc::Global;

/// Opens the journal, closes its farm at the clock's moment, unless it is closed already or busy, and writes what it
/// hands over.
pub fn close_command<K: Sink, D: Disk, C: Clock>(
    alloc: Global,
    output: &mut K,
    disk: D,
    clock: &C,
) -> (Status, D)
    ensures ends { CloseEnds (MayGive C.Clock clock.now) result.0
        (output_seen K.Sink output.old) (output_seen K.Sink output.new)
        (disk_seen D.Disk disk) (disk_seen D.Disk result.1) }
    ensures cause { HasStoreCause result.0 (disk_seen D.Disk disk) (disk_seen D.Disk result.1) }
    ensures tells { D.tells result.1 ≡ D.tells disk }
    ensures never_falls { D.count disk ≤ D.count result.1 }
{
    let before = disk.faults();
    let mut store = match Store::open_on(alloc, disk) {
        Ok(store) => store,
        Err((disk, fault)) => return (status_of_opening(fault), disk),
    };
    let at = clock.now();
    match store.close(alloc, at) {
        Ok(()) => {
            let status = put_handover(alloc, store.history(), output);
            (status, store.into_disk())
        }
        Err(fault) => (status_of_unclosed(fault, before), store.into_disk()),
    }
}

/// Writes what a farm hands over.
fn put_handover<K: Sink>(alloc: Global, history: &[Entry], output: &mut K) -> Status
    ensures { TextPut (handover_of history.now) result (output_seen K.Sink output.old) (output_seen K.Sink output.new) }
{
    match handover_text(alloc, history) {
        Ok(text) => put_text(output, text.as_str()),
        Err(_) => Status::Memory,
    }
}

/// How a call ends that closes no farm, where its disk had this count of faults at the start.
fn status_of_unclosed(fault: CloseFault, before: u64) -> Status
    ensures { result ≡ status_of_unclosed fault before }
{
    match fault {
        CloseFault::Busy => Status::Busy,
        CloseFault::StoreFault { after, .. } => Status::StoreFault { before, after },
        CloseFault::Memory => Status::Memory,
    }
}
