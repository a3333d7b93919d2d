//! The subcommand `show JOURNAL`.

ghost use Rattle.std.specs.Prelude.{◌≡◌, ◌≤◌, []};
ghost use Rattle.farm_script.specs.Shown.{shown_text};
ghost use Rattle.outside_seen.specs.Outside.{disk_seen, output_seen};
ghost use Rattle.finder_commands.specs.Disks.{HasStoreCause};
ghost use Rattle.finder_commands.specs.Show.{ShowEnds};
ghost use Rattle.finder_commands.specs.TextPut.{TextPut};

use crate::opening::status_of_opening;
use crate::put_text::put_text;
use crate::status::Status;
use farm_disk::Disk;
use farm_script::shown_text;
use farm_store::Store;
use link_io::Sink;
use std::alloc::Global;

/// Opens the journal, and writes what its farm shows: its own reply line, and then that of each search.
pub fn show_command<K: Sink, D: Disk>(alloc: Global, output: &mut K, disk: D) -> (Status, D)
    ensures ends { ShowEnds result.0 (output_seen K.Sink output.old) (output_seen K.Sink output.new)
        (disk_seen D.Disk disk) (disk_seen D.Disk result.1) }
    ensures cause { HasStoreCause result.0 (disk_seen D.Disk disk) (disk_seen D.Disk result.1) }
    ensures tells { D.tells result.1 ≡ D.tells disk }
    ensures never_falls { D.count disk ≤ D.count result.1 }
{
    match Store::open_on(alloc, disk) {
        Ok(store) => {
            let mut store = store;
            let status = show_store(alloc, &mut store, output);
            (status, store.into_disk())
        }
        Err((disk, fault)) => (status_of_opening(fault), disk),
    }
}

/// Writes what the farm of a store shows while nothing is pending.
fn show_store<K: Sink, D: Disk>(alloc: Global, store: &mut Store<D>, output: &mut K) -> Status
    requires { store.old.pending ≡ [] }
    ensures text { TextPut (shown_text store.old.history) result
        (output_seen K.Sink output.old) (output_seen K.Sink output.new) }
    ensures kept { store.new ≡ store.old }
{
    match shown_text(alloc, store) {
        Ok(text) => put_text(output, text.as_str()),
        Err(_) => Status::Memory,
    }
}
