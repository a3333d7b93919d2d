//! The founding, and the opens of all searches.
ghost use Rattle.std.specs.Prelude.{◌≡◌, ◌≤◌, ◌<◌, ◌+◌, ◌∷◌, [], IfOk, OnOk};
ghost use Rattle.farm_entry.specs.declared.limits.TheConstants.{MAX_SEARCHES};
ghost use Rattle.drill_plan.specs.Start.{IsStart, drill_founding, drill_settings};

use crate::asking::ask;
use crate::names::drill_moment;
use drill_plan::laws::planned_opens_are_taken;
use drill_plan::{DRILL_DAILY, DRILL_LEASE_MS, DRILL_ZONE_MINUTES, planned_ask};
use farm_disk::CalmDisk;
use farm_entry::{Command, Settings};
use farm_store::{CreateFault, Store};
use farm_types::Memory;
use std::alloc::Global;

/// What the farm of a drill is founded with.
fn drill_settings() -> Settings
    ensures { result ≡ drill_settings }
{
    match Settings::of(DRILL_LEASE_MS, DRILL_DAILY, DRILL_ZONE_MINUTES) {
        Ok(settings) => settings,
        Err(_) => unreachable!(),
    }
}

/// A store on a disk in memory, founded for a drill.
fn found(alloc: Global) -> Result<Store<CalmDisk>, Memory>
    ensures history { IfOk result (λ store. store.history ≡ drill_founding ∷ []) }
    ensures decided { IfOk result (λ store. store.pending ≡ []) }
{
    let disk = CalmDisk::of(Vec::new(alloc));
    match Store::found(alloc, disk, drill_settings(), drill_moment()) {
        Ok(store) => Ok(store),
        Err((_, CreateFault::Memory)) => Err(Memory),
        Err(_) => unreachable!(),
    }
}

/// Opens the search after so many.
fn open_next(alloc: Global, store: &mut Store<CalmDisk>, before: u32) -> Result<(), Memory>
    requires start { IsStart before store.old.history }
    requires decided { store.old.pending ≡ [] }
    requires few { before < MAX_SEARCHES }
    ensures start { OnOk result (IsStart (before + 1) store.new.history) }
    ensures decided { OnOk result (store.new.pending ≡ []) }
{
    planned_opens_are_taken();
    let command = Command::Open(planned_ask(alloc, before + 1)?);
    match ask(alloc, store, &command, drill_moment())? {
        Ok(_) => Ok(()),
        Err(_) => unreachable!(),
    }
}

/// The store of a farm at which so many searches were opened.
pub(crate) fn open_all(alloc: Global, searches: u32) -> Result<Store<CalmDisk>, Memory>
    requires { searches ≤ MAX_SEARCHES }
    ensures start { IfOk result (λ store. IsStart searches store.history) }
    ensures decided { IfOk result (λ store. store.pending ≡ []) }
{
    let mut store = found(alloc)?;
    for before in 0..searches {
        open_next(alloc, &mut store, before)?;
    }
    Ok(store)
}
