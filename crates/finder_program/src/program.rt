//! The call that the program is.

ghost use Rattle.std.specs.Prelude.{◌≡◌, ◌≤◌, None, false, map, string_bytes};
ghost use Rattle.connection_laws.specs.Moments.{MayGive};
ghost use Rattle.outside_seen.specs.Outside.{disk_seen, input_seen, network_seen, output_seen};
ghost use Rattle.finder_words.specs.Words.{asked, uses_disk, uses_input, uses_network, uses_runner};
ghost use Rattle.finder_commands.specs.Disks.{HasStoreCause};
ghost use Rattle.finder_program.specs.FinderSays.{FinderSays};
ghost use Rattle.finder_program.specs.World.{runner_seen, world};

use crate::serve_command::serve_command;
use farm_disk::DatedDisk;
use farm_types::Memory;
use finder_commands::Status;
use finder_commands::audit_command::audit_command;
use finder_commands::close_command::close_command;
use finder_commands::drill_command::drill_command;
use finder_commands::evidence_command::evidence_command;
use finder_commands::follow_command::follow_command;
use finder_commands::found_command::found_command;
use finder_commands::inherit_command::inherit_command;
use finder_commands::judge_command::judge_command;
use finder_commands::rates_command::rates_command;
use finder_commands::run_command::run_command;
use finder_commands::run_journal::run_journal;
use finder_commands::show_command::show_command;
use finder_commands::work_command::work_command;
use finder_words::{Subcommand, read_subcommand};
use link_io::{Clock, Network, Sink, Source};
use std::alloc::Global;
use std::sync::Wait;
use std::thread::Threads;
use worker_core::{KeySource, Runner};

/// Runs the subcommand that the words name, over the objects that it is handed, and gives the disk and the network
/// back. `rt` starts threads and waits; `words` are the program's words without its own name; `disk` is that of the
/// journal which they name, `network` the connections at the address, and `runner` runs the tests.
pub fn finder<
    H: Threads + Wait + Eprint + Sync,
    S: Source,
    K: Sink,
    D: DatedDisk + Drop + Send,
    C: Clock + Sync,
    N: Network<Over = D::Over> + Drop + Send,
    R: Runner,
    Q: KeySource,
>(
    rt: &H,
    alloc: Global,
    words: &[String],
    input: &mut S,
    output: &mut K,
    disk: D,
    clock: &C,
    network: N,
    runner: &mut R,
    keys: &mut Q,
) -> (Status, D, N)
where
    N::End: Send,
    // Usage is answered only where the words ask for nothing.
    ensures usage { result.0 ≡ Status.Usage → asked (map string_bytes words.now) ≡ None }

    // What the words ask for is done: for each subcommand what its status says of the world before and after, and that
    // its work is done where nothing fails.
    ensures says { let before = world (input_seen S.Source input.old) (output_seen K.Sink output.old)
        (disk_seen D.Disk disk) (network_seen (N.told network) (N.count network))
        (runner_seen (R.told runner.old) (R.count runner.old)) (Q.told keys.old) (MayGive C.Clock clock.now) in
        let after = world (input_seen S.Source input.new) (output_seen K.Sink output.new)
        (disk_seen D.Disk result.1) (network_seen (N.told result.2) (N.count result.2))
        (runner_seen (R.told runner.new) (R.count runner.new)) (Q.told keys.new) (MayGive C.Clock clock.now) in
        FinderSays (asked (map string_bytes words.now)) result.0 before after }

    // What the words have no use for stays as it is, whether it tells or not.
    ensures no_input { uses_input (asked (map string_bytes words.now)) ≡ false → input.new ≡ input.old }
    ensures no_output { asked (map string_bytes words.now) ≡ None → output.new ≡ output.old }
    ensures no_disk { uses_disk (asked (map string_bytes words.now)) ≡ false → result.1 ≡ disk }
    ensures no_network { uses_network (asked (map string_bytes words.now)) ≡ false → result.2 ≡ network }
    ensures no_runner { uses_runner (asked (map string_bytes words.now)) ≡ false
        → (runner.new ≡ runner.old) × (keys.new ≡ keys.old) }

    // A fault of the store is answered only where the disk failed in this call.
    ensures store_fault { HasStoreCause result.0 (disk_seen D.Disk disk) (disk_seen D.Disk result.1) }

    // The disk that is given back tells where the one handed in told, and no count of faults fell.
    ensures tells { D.tells result.1 ≡ D.tells disk }
    ensures never_falls { D.count disk ≤ D.count result.1 }
    ensures network_never_falls { N.count network ≤ N.count result.2 }
    ensures runner_never_falls { R.count runner.old ≤ R.count runner.new }
{
    match read_subcommand(alloc, words) {
        Ok(Some(Subcommand::Judge)) => (judge_command(alloc, input, output), disk, network),
        Ok(Some(Subcommand::Run)) => (run_command(alloc, input, output), disk, network),
        Ok(Some(Subcommand::Audit)) => (audit_command(alloc, input, output), disk, network),
        Ok(Some(Subcommand::Found(settings))) => {
            let (status, disk) = found_command(alloc, settings, output, disk, clock);
            (status, disk, network)
        }
        Ok(Some(Subcommand::Show)) => {
            let (status, disk) = show_command(alloc, output, disk);
            (status, disk, network)
        }
        Ok(Some(Subcommand::Rates)) => {
            let (status, disk) = rates_command(alloc, output, disk);
            (status, disk, network)
        }
        Ok(Some(Subcommand::Evidence { search })) => {
            let (status, disk) = evidence_command(alloc, search, output, disk);
            (status, disk, network)
        }
        Ok(Some(Subcommand::Close)) => {
            let (status, disk) = close_command(alloc, output, disk, clock);
            (status, disk, network)
        }
        Ok(Some(Subcommand::Inherit(settings))) => {
            let (status, disk) = inherit_command(alloc, settings, input, output, disk, clock);
            (status, disk, network)
        }
        Ok(Some(Subcommand::RunJournal)) => {
            let (status, disk) = run_journal(alloc, input, output, disk);
            (status, disk, network)
        }
        Ok(Some(Subcommand::Serve { handlers, links })) => {
            serve_command(rt, alloc, output, disk, clock, network, handlers, links)
        }
        Ok(Some(Subcommand::Work { worker, runs })) => {
            let mut network = network;
            let status = work_command(alloc, output, &mut network, runner, keys, &worker, runs);
            (status, disk, network)
        }
        Ok(Some(Subcommand::Drill { searches, workers })) => {
            (
                drill_command(rt, alloc, searches, workers, output),
                disk,
                network,
            )
        }
        Ok(Some(Subcommand::Follow { rounds })) => {
            let mut network = network;
            let (status, disk) = follow_command(alloc, output, disk, &mut network, rounds);
            (status, disk, network)
        }
        Ok(None) => (Status::Usage, disk, network),
        Err(Memory) => (Status::Memory, disk, network),
    }
}
