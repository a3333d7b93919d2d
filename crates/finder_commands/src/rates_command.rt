//! The subcommand `rates JOURNAL`.

ghost use Rattle.std.specs.Prelude.{◌≡◌, ◌≤◌};
ghost use Rattle.farm_entry.specs.Legal.{IsLegal};
ghost use Rattle.rates_report.specs.RateLines.{rates_text};
ghost use Rattle.outside_seen.specs.Outside.{disk_seen, output_seen};
ghost use Rattle.finder_commands.specs.Disks.{HasStoreCause};
ghost use Rattle.finder_commands.specs.RatesCommand.{RatesEnds};
ghost use Rattle.finder_commands.specs.TextPut.{TextPut};

use crate::opening::status_of_opening;
use crate::put_text::put_text;
use crate::status::Status;
use farm_disk::Disk;
use farm_entry::Entry;
use farm_store::Store;
use link_io::Sink;
use rates_report::rates_text;
use std::alloc::Global;

/// Opens the journal, and writes a line for each test whose flake rate its ended searches tell of.
pub fn rates_command<K: Sink, D: Disk>(alloc: Global, output: &mut K, disk: D) -> (Status, D)
    ensures ends { RatesEnds result.0 (output_seen K.Sink output.old) (output_seen K.Sink output.new)
        (disk_seen D.Disk disk) (disk_seen D.Disk result.1) }
    ensures cause { HasStoreCause result.0 (disk_seen D.Disk disk) (disk_seen D.Disk result.1) }
    ensures tells { D.tells result.1 ≡ D.tells disk }
    ensures never_falls { D.count disk ≤ D.count result.1 }
{
    match Store::open_on(alloc, disk) {
        Ok(store) => {
            let status = put_rates(alloc, store.history(), output);
            (status, store.into_disk())
        }
        Err((disk, fault)) => (status_of_opening(fault), disk),
    }
}

/// Writes what a history tells of the flake rates of its tests.
fn put_rates<K: Sink>(alloc: Global, history: &[Entry], output: &mut K) -> Status
    requires { IsLegal history.now }
    ensures { TextPut (rates_text history.now) result
        (output_seen K.Sink output.old) (output_seen K.Sink output.new) }
{
    match rates_text(alloc, history) {
        Ok(text) => put_text(output, text.as_str()),
        Err(_) => Status::Memory,
    }
}
