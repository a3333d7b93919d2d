//! The subcommand `inherit JOURNAL LEASE_MS DAILY ZONE`.

ghost use Rattle.std.specs.Prelude.{◌≡◌, ◌≤◌, ◌⊎◌, IfOk, IfErr};
ghost use Rattle.connection_laws.specs.Moments.{MayGive};
ghost use Rattle.farm_entry.specs.Closing.{CanBeCarried};
ghost use Rattle.outside_seen.specs.Outside.{disk_seen, input_seen};
ghost use Rattle.link_io.specs.Streams.{streams};
ghost use Rattle.finder_commands.specs.Disks.{HasStoreCause};
ghost use Rattle.finder_commands.specs.InheritCommand.{InheritingTried, NotRead, NothingRead, WasHandedOver};

use crate::found_command::{FOUNDED, status_of_creating};
use crate::put_text::put_text;
use crate::read_input::read_input;
use crate::status::Status;
use farm_disk::Disk;
use farm_entry::Settings;
use farm_handover::read_handover;
use farm_rules::OrderedCommit;
use farm_store::Store;
use link_io::{Clock, Sink, Source};
use std::alloc::Global;

/// Reads the orders that the input hands over, to its end, and founds a journal with these settings and with all of
/// them at the clock's moment, and says so. The disk isn't asked before the input was found good.
pub fn inherit_command<S: Source, K: Sink, D: Disk, C: Clock>(
    alloc: Global,
    settings: Settings,
    input: &mut S,
    output: &mut K,
    disk: D,
    clock: &C,
) -> (Status, D)
    ensures ends { let before = streams S.Source K.Sink input.old output.old in
        let after = streams S.Source K.Sink input.new output.new in
        NotRead result.0 before after (disk_seen D.Disk disk) (disk_seen D.Disk result.1)
        ⊎ InheritingTried (MayGive C.Clock clock.now) settings result.0 before after
        (disk_seen D.Disk disk) (disk_seen D.Disk result.1) }
    ensures cause { HasStoreCause result.0 (disk_seen D.Disk disk) (disk_seen D.Disk result.1) }
    ensures tells { D.tells result.1 ≡ D.tells disk }
    ensures never_falls { D.count disk ≤ D.count result.1 }
{
    let orders = match read_orders(alloc, input) {
        Ok(orders) => orders,
        Err(status) => return (status, disk),
    };
    let at = clock.now();
    match Store::inherit(alloc, disk, settings, at, &orders) {
        Ok(store) => {
            let status = put_text(output, FOUNDED);
            (status, store.into_disk())
        }
        Err((disk, fault)) => (status_of_creating(fault), disk),
    }
}

/// The orders that the input hands over, or how the call ends.
fn read_orders<S: Source>(alloc: Global, input: &mut S) -> Result<Vec<OrderedCommit>, Status>
    ensures read { IfOk result (λ orders.
        WasHandedOver orders.items (input_seen S.Source input.old) (input_seen S.Source input.new)) }
    ensures fit { IfOk result (λ orders. CanBeCarried orders.items) }
    ensures unread { IfErr result (λ status.
        NothingRead status (input_seen S.Source input.old) (input_seen S.Source input.new)) }
{
    let bytes = read_input(alloc, input)?;
    Ok(read_handover(alloc, &bytes)?)
}
