//! The subcommand `serve JOURNAL ADDRESS HANDLERS LINKS`.

ghost use Rattle.std.specs.Prelude.{◌≡◌, ◌≤◌, ◌<◌};
ghost use Rattle.connection_laws.specs.Moments.{MayGive};
ghost use Rattle.outside_seen.specs.Outside.{disk_seen, network_seen, outside, output_seen};
ghost use Rattle.finder_commands.specs.Disks.{HasStoreCause};
ghost use Rattle.finder_program.specs.ServeCommand.{
  JournalServeCompletes,
  JournalServeEnds,
  status_of_ending,
};

use farm_disk::DatedDisk;
use farm_serve::{Ending, serve};
use finder_commands::{Status, status_of_opening};
use link_io::{Clock, Network, Sink};
use std::alloc::Global;
use std::sync::Wait;
use std::thread::Threads;

/// Opens the journal, and answers the requests of the network's links from its farm by so many handlers, until so many
/// accepts were made or one answered that no more will come. Then it writes the farm's reply line.
pub fn serve_command<
    H: Threads + Wait + Eprint + Sync,
    K: Sink,
    D: DatedDisk + Drop + Send,
    C: Clock + Sync,
    N: Network<Over = D::Over> + Drop + Send,
>(
    rt: &H,
    alloc: Global,
    output: &mut K,
    disk: D,
    clock: &C,
    network: N,
    handlers: u8,
    links: u64,
) -> (Status, D, N)
where
    N::End: Send,
    requires { 0 < handlers }
    ensures ends { JournalServeEnds links (MayGive C.Clock clock.now) result.0
        (outside (network_seen (N.told network) (N.count network)) (output_seen K.Sink output.old)
        (disk_seen D.Disk disk))
        (outside (network_seen (N.told result.2) (N.count result.2)) (output_seen K.Sink output.new)
        (disk_seen D.Disk result.1)) }
    ensures completes { JournalServeCompletes result.0
        (outside (network_seen (N.told network) (N.count network)) (output_seen K.Sink output.old)
        (disk_seen D.Disk disk))
        (outside (network_seen (N.told result.2) (N.count result.2)) (output_seen K.Sink output.new)
        (disk_seen D.Disk result.1)) }
    ensures cause { HasStoreCause result.0 (disk_seen D.Disk disk) (disk_seen D.Disk result.1) }
    ensures tells { D.tells result.1 ≡ D.tells disk }
    ensures never_falls { D.count disk ≤ D.count result.1 }
    ensures network_never_falls { N.count network ≤ N.count result.2 }
{
    let (ending, disk, network) = serve(rt, alloc, disk, network, output, clock, handlers, links);
    (status_of_ending(ending), disk, network)
}

/// The status that stands for the end of a service.
fn status_of_ending(ending: Ending) -> Status
    ensures { result ≡ status_of_ending ending }
{
    match ending {
        Ending::Done => Status::Done,
        Ending::NetFault => Status::NetFault,
        Ending::WriteFault => Status::WriteFault,
        Ending::Memory => Status::Memory,
        Ending::NotOpened(fault) => status_of_opening(fault),
    }
}
