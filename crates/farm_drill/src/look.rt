//! What is left of a drill's runs and keys, found in one pass over its history.
ghost use Rattle.std.specs.Prelude.{◌≡◌, ◌≢◌, ◌++◌, ◌∷◌, ℕ, [], false, true, IsTrue, List, length, replicate, IfOk};
ghost use Rattle.farm_entry.specs.declared.entry.Entry.{Entry as HistoryEntry};
ghost use Rattle.farm_drill.specs.Ends.{AllReported};
ghost use Rattle.farm_drill.specs.Free.{AreMarked};
ghost use Rattle.farm_drill.specs.Reported.{AreOut, is_marked};

use crate::keys::{Keys, mark, unused};
use farm_entry::Entry;
use farm_types::Memory;
use std::alloc::Global;

/// The keys that stand in no entry of a history, and whether it is known that each run has a report.
#[derive(Drop)]
pub(crate) struct Found {
    pub(crate) keys: Keys,
    pub(crate) reported: bool,
}

/// Looks once at each entry of a history.
pub(crate) fn look_through(alloc: Global, history: &[Entry]) -> Result<Found, Memory>
    ensures marked { IfOk result (λ found. AreMarked history.now found.keys.used.items) }
    ensures reported { IfOk result (λ found. found.reported ≡ true → AllReported history.now) }
{
    let mut used = unused(alloc, history.len())?;
    let mut out = unused(alloc, history.len() + 1)?;
    let mut fits = true;
    for entry in history {
        mark(&mut used, entry);
        fits &= note_run(&mut out, entry);
    }
    let reported = fits & !out.contains(&true);
    Ok(Found {
        keys: Keys { used, next: 0 },
        reported,
    })
}

/// Marks the run that an entry hands out as one that is out, and takes the mark of one that it reports. False where
/// there was no room for a mark.
fn note_run(out: &mut Vec<bool>, entry: &Entry) -> bool
    ensures { IsTrue result → (H : List HistoryEntry) → AreOut H out.old.items
        → AreOut (H ++ entry.now ∷ []) out.new.items }
{
    match entry.what.lease() {
        Some(lease) => put_mark(out, lease.run, true),
        None => {
            if let Some(run) = entry.what.told() {
                put_mark(out, run, false);
            }
            true
        }
    }
}

/// Puts the mark of a run, where there is room for it, and answers whether there was.
fn put_mark(out: &mut Vec<bool>, run: u32, mark: bool) -> bool
    ensures here { IsTrue result → is_marked out.new.items run ≡ mark }
    ensures others { (other : ℕ) → other ≢ run → is_marked out.new.items other ≡ is_marked out.old.items other }
{
    if (run as usize) < out.len() {
        out[run as usize] = mark;
        return true;
    }
    false
}
