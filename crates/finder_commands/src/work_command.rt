//! The subcommand `work`.

ghost use Rattle.std.specs.Prelude.{◌≡◌, ◌≤◌};
ghost use Rattle.outside_seen.specs.Outside.{output_seen};
ghost use Rattle.finder_commands.specs.TextPut.{TextPut};
ghost use Rattle.finder_commands.specs.WorkCommand.{WorkCompletes, WorkEnds, work_seen, work_line};

use crate::put_text::put_text;
use crate::status::Status;
use farm_types::Name;
use link_io::{Network, Sink};
use std::alloc::Global;
use worker_agent::{Worked, work};
use worker_core::{KeySource, Runner};

/// Works under a name for so many leases, and then writes the line of what was done.
pub fn work_command<K: Sink, N: Network, R: Runner, Q: KeySource>(
    alloc: Global,
    output: &mut K,
    network: &mut N,
    runner: &mut R,
    keys: &mut Q,
    worker: &Name,
    runs: u32,
) -> Status
    requires { 1 ≤ runs }
    ensures ends { let before = work_seen (N.told network.old) (N.count network.old)
        (R.told runner.old) (R.count runner.old) (Q.told keys.old) in
        let after = work_seen (N.told network.new) (N.count network.new)
        (R.told runner.new) (R.count runner.new) (Q.told keys.new) in
        WorkEnds worker.now runs result before after (output_seen K.Sink output.old) (output_seen K.Sink output.new) }
    ensures completes { let before = work_seen (N.told network.old) (N.count network.old)
        (R.told runner.old) (R.count runner.old) (Q.told keys.old) in
        let after = work_seen (N.told network.new) (N.count network.new)
        (R.told runner.new) (R.count runner.new) (Q.told keys.new) in
        WorkCompletes result before after (output_seen K.Sink output.old) (output_seen K.Sink output.new) }
    ensures network_count { N.count network.old ≤ N.count network.new }
    ensures runner_count { R.count runner.old ≤ R.count runner.new }
{
    match work(alloc, network, runner, keys, worker, runs) {
        Ok(worked) => put_worked(alloc, output, worked),
        Err(fault) => Status::from(fault),
    }
}

/// Writes the line of what a worker did.
fn put_worked<K: Sink>(alloc: Global, output: &mut K, worked: Worked) -> Status
    ensures { TextPut (work_line worked) result (output_seen K.Sink output.old) (output_seen K.Sink output.new) }
{
    let end = if worked.idle { "idle" } else { "limit" };
    match format!(in alloc;
        "leased {} reported {} {end}\n",
        worked.leased, worked.reported
    ) {
        Ok(line) => put_text(output, &line),
        Err(_) => Status::Memory,
    }
}
