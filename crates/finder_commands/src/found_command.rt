//! The subcommand `found JOURNAL LEASE_MS DAILY ZONE`.

ghost use Rattle.std.specs.Prelude.{◌≡◌, ◌≤◌};
ghost use Rattle.connection_laws.specs.Moments.{MayGive};
ghost use Rattle.outside_seen.specs.Outside.{disk_seen, output_seen};
ghost use Rattle.finder_commands.specs.Disks.{HasStoreCause};
ghost use Rattle.finder_commands.specs.Found.{JournalFoundEnds, status_of_creating};

use crate::put_text::put_text;
use crate::status::Status;
use farm_disk::Disk;
use farm_entry::Settings;
use farm_store::{CreateFault, Store};
use link_io::{Clock, Sink};
use std::alloc::Global;

/// What is written where a journal was founded.
pub(crate) const FOUNDED: &str = "founded\n";

/// Founds a journal with these settings at the clock's moment, and says so.
pub fn found_command<K: Sink, D: Disk, C: Clock>(
    alloc: Global,
    settings: Settings,
    output: &mut K,
    disk: D,
    clock: &C,
) -> (Status, D)
    ensures ends { JournalFoundEnds (MayGive C.Clock clock.now) settings result.0
        (output_seen K.Sink output.old) (output_seen K.Sink output.new)
        (disk_seen D.Disk disk) (disk_seen D.Disk result.1) }
    ensures cause { HasStoreCause result.0 (disk_seen D.Disk disk) (disk_seen D.Disk result.1) }
    ensures tells { D.tells result.1 ≡ D.tells disk }
    ensures never_falls { D.count disk ≤ D.count result.1 }
{
    let at = clock.now();
    match Store::found(alloc, disk, settings, at) {
        Ok(store) => {
            let status = put_text(output, FOUNDED);
            (status, store.into_disk())
        }
        Err((disk, fault)) => (status_of_creating(fault), disk),
    }
}

/// How a call ends that founds no journal.
pub(crate) fn status_of_creating(fault: CreateFault) -> Status
    ensures { result ≡ status_of_creating fault }
{
    match fault {
        CreateFault::AlreadyBorn => Status::AlreadyBorn,
        CreateFault::StoreFault { before, after } => Status::StoreFault { before, after },
        CreateFault::Memory => Status::Memory,
    }
}
