//! The subcommand `evidence JOURNAL SEARCH`.

ghost use Rattle.std.specs.Prelude.{◌≡◌, ◌≤◌};
ghost use Rattle.farm_entry.specs.Legal.{IsLegal};
ghost use Rattle.search_evidence.specs.Evidence.{evidence_text};
ghost use Rattle.outside_seen.specs.Outside.{disk_seen, output_seen};
ghost use Rattle.finder_commands.specs.Disks.{HasStoreCause};
ghost use Rattle.finder_commands.specs.EvidenceCommand.{EvidenceEnds, EvidencePut};

use crate::opening::status_of_opening;
use crate::put_text::put_text;
use crate::status::Status;
use farm_disk::Disk;
use farm_entry::Entry;
use farm_store::Store;
use link_io::Sink;
use search_evidence::evidence_text;
use std::alloc::Global;

/// Opens the journal, and writes the evidence of the search with a number, as `judge` reads it. Where there is no such
/// search, nothing is written.
pub fn evidence_command<K: Sink, D: Disk>(
    alloc: Global,
    search: u32,
    output: &mut K,
    disk: D,
) -> (Status, D)
    ensures ends { EvidenceEnds search result.0 (output_seen K.Sink output.old) (output_seen K.Sink output.new)
        (disk_seen D.Disk disk) (disk_seen D.Disk result.1) }
    ensures cause { HasStoreCause result.0 (disk_seen D.Disk disk) (disk_seen D.Disk result.1) }
    ensures tells { D.tells result.1 ≡ D.tells disk }
    ensures never_falls { D.count disk ≤ D.count result.1 }
{
    match Store::open_on(alloc, disk) {
        Ok(store) => {
            let status = put_evidence(alloc, store.history(), search, output);
            (status, store.into_disk())
        }
        Err((disk, fault)) => (status_of_opening(fault), disk),
    }
}

/// Writes the evidence of the search of a history with this number.
fn put_evidence<K: Sink>(alloc: Global, history: &[Entry], search: u32, output: &mut K) -> Status
    requires { IsLegal history.now }
    ensures { EvidencePut search (evidence_text history.now search) result
        (output_seen K.Sink output.old) (output_seen K.Sink output.new) }
{
    match evidence_text(alloc, history, search) {
        Ok(Some(text)) => put_text(output, text.as_str()),
        Ok(None) => Status::UnknownSearch(search),
        Err(_) => Status::Memory,
    }
}
