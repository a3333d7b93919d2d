//! The subcommand `drill`.

ghost use Rattle.std.specs.Prelude.{◌≤◌};
ghost use Rattle.farm_entry.specs.declared.limits.TheConstants.{MAX_SEARCHES};
ghost use Rattle.drill_plan.specs.declared.limits.TheConstants.{MAX_WORKERS};
ghost use Rattle.outside_seen.specs.Outside.{output_seen};
ghost use Rattle.finder_commands.specs.DrillCommand.{DrillCompletes, DrillEnds};

use crate::put_text::put_text;
use crate::status::Status;
use farm_drill::drill;
use farm_types::Memory;
use link_io::Sink;
use std::alloc::Global;
use std::mem::forget;
use std::sync::Wait;
use std::thread::Threads;

/// Plays a drill of so many searches by so many workers, and then writes its line.
pub fn drill_command<H: Threads + Wait + Sync, K: Sink>(
    rt: &H,
    alloc: Global,
    searches: u32,
    workers: u32,
    output: &mut K,
) -> Status
    requires some_searches { 1 ≤ searches }
    requires few_searches { searches ≤ MAX_SEARCHES }
    requires some_workers { 1 ≤ workers }
    requires few_workers { workers ≤ MAX_WORKERS }
    ensures ends { DrillEnds searches result (output_seen K.Sink output.old) (output_seen K.Sink output.new) }
    ensures completes { DrillCompletes result (output_seen K.Sink output.old) (output_seen K.Sink output.new) }
{
    match drill(rt, alloc, searches, workers) {
        Ok((line, store)) => {
            // The process ends with its drill, and all memory goes back at once then.
            forget(store);
            put_text(output, line.as_str())
        }
        Err(Memory) => Status::Memory,
    }
}
