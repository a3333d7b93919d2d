//! The drill.
ghost use Rattle.std.specs.Prelude.{◌≡◌, ◌≤◌, ◌++◌, ◌∷◌, ℕ, List, [], IfOk, OnOk, string_bytes};
ghost use Rattle.common_types.specs.Prefix.{IsPrefix};
ghost use Rattle.farm_entry.specs.declared.entry.Entry.{Entry};
ghost use Rattle.farm_entry.specs.declared.limits.TheConstants.{MAX_SEARCHES};
ghost use Rattle.drill_plan.specs.Start.{IsStart, drill_founding};
ghost use Rattle.drill_plan.specs.declared.limits.TheConstants.{MAX_WORKERS};
ghost use Rattle.shared_farm.specs.Rests.{IsByCommands};
ghost use Rattle.farm_drill.specs.Drilled.{IsDrilled};
ghost use Rattle.farm_drill.specs.Line.{drill_line};
ghost use Rattle.farm_drill.specs.Planned.{GoesByPlan};

use crate::crew::run_workers;
use crate::line::drill_line;
use crate::opens::open_all;
use crate::reverts::take_reverts;
use crate::runs::end_runs;
use farm_disk::CalmDisk;
use farm_store::Store;
use farm_types::Memory;
use std::alloc::Global;
use std::sync::Wait;
use std::thread::Threads;

/// Plays a drill of 1 to [`MAX_SEARCHES`](farm_entry::MAX_SEARCHES) searches by 1 to
/// [`MAX_WORKERS`](drill_plan::MAX_WORKERS) workers, each in a thread of its own. Gives the line of its numbers, its
/// line feed included, and the store.
///
/// # Errors
///
/// [`Memory`].
pub fn drill<R: Threads + Wait + Sync>(
    rt: &R,
    alloc: Global,
    searches: u32,
    workers: u32,
) -> Result<(String, Store<CalmDisk>), Memory>
    requires some_searches { 1 ≤ searches }
    requires few_searches { searches ≤ MAX_SEARCHES }
    requires some_workers { 1 ≤ workers }
    requires few_workers { workers ≤ MAX_WORKERS }
    ensures line { IfOk result (λ played. string_bytes played.0 ≡ drill_line played.1.history) }
    ensures drilled { IfOk result (λ played. IsDrilled searches played.1.history) }
    ensures decided { IfOk result (λ played. played.1.pending ≡ []) }
{
    let opened = open_all(alloc, searches)?;
    let mut store = run_workers(rt, alloc, opened, workers)?;
    match end_drill(alloc, &mut store) {
        Ok(line) => Ok((line, store)),
        Err(_) => Err(Memory),
    }
}

/// Does what is left once the workers have ended, and gives the line.
fn end_drill(alloc: Global, store: &mut Store<CalmDisk>) -> Result<String, Memory>
    requires founded { IsPrefix (drill_founding ∷ []) store.old.history }
    requires by_commands { IsByCommands store.old.history }
    requires decided { store.old.pending ≡ [] }
    requires planned { GoesByPlan store.old.history }
    ensures line { IfOk result (λ line. string_bytes line ≡ drill_line store.new.history) }
    ensures drilled { OnOk result ((searches : ℕ) (start : List Entry) → IsStart searches start
        → IsPrefix start store.old.history → IsDrilled searches store.new.history) }
    ensures decided { OnOk result (store.new.pending ≡ []) }
{
    let mut keys = end_runs(alloc, store)?;
    take_reverts(alloc, store, &mut keys)?;
    let line = drill_line(alloc, store)?;
    Ok(line)
}
