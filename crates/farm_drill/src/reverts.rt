//! The reverts of a drill.
ghost use Rattle.std.specs.Prelude.{◌≡◌, ◌++◌, ◌+◌, ◌≤◌, ◌∷◌, List, [], length, IfOk, OnOk, MatchBool, None};
ghost use Rattle.common_types.specs.Prefix.{IsPrefix};
ghost use Rattle.farm_entry.specs.declared.entry.Entry.{Entry};
ghost use Rattle.farm_entry.specs.declared.limits.TheConstants.{MAX_SEARCHES};
ghost use Rattle.farm_entry.specs.History.{order_lines, place_of_key};
ghost use Rattle.farm_types.specs.Moment.{moment_ms};
ghost use Rattle.farm_entry.specs.Legal.{IsLegal};
ghost use Rattle.drill_plan.specs.Start.{drill_founding, revert_ms};
ghost use Rattle.shared_farm.specs.Rests.{IsByCommands};
ghost use Rattle.farm_drill.specs.Ends.{AreOrders, RevertsEnded};
ghost use Rattle.farm_drill.specs.Free.{AreFree};
ghost use Rattle.farm_drill.specs.Steps.{GivesOrder};

use crate::asking::ask;
use crate::keys::Keys;
use crate::names::caller_name;
use drill_plan::{DAY_MS, DRILL_DAILY};
use farm_disk::CalmDisk;
use farm_entry::{Command, Totals};
use farm_store::Store;
use farm_types::{Key, Memory, Moment};
use std::alloc::Global;

/// Takes reverts, under keys that stand in no entry, until no order is given.
pub(crate) fn take_reverts(
    alloc: Global,
    store: &mut Store<CalmDisk>,
    keys: &mut Keys,
) -> Result<(), Memory>
    requires decided { store.old.pending ≡ [] }
    requires founded { IsPrefix (drill_founding ∷ []) store.old.history }
    requires legal { IsLegal store.old.history }
    requires by_commands { IsByCommands store.old.history }
    requires free { AreFree store.old.history keys.old }
    ensures ended { OnOk result (RevertsEnded store.new.history) }
    ensures decided { OnOk result (store.new.pending ≡ []) }
    ensures orders { OnOk result
        ((orders : List Entry) × AreOrders orders × (store.new.history ≡ store.old.history ++ orders)) }
    ensures legal { OnOk result (IsLegal store.new.history) }
    ensures by_commands { OnOk result (IsByCommands store.new.history) }
{
    loop {
        let key = keys.fresh(alloc, store.history())?;
        if !take_revert(alloc, store, key)? {
            return Ok(());
        }
    }
}

/// Takes the next revert, under a key. Answers whether an order is given.
fn take_revert(alloc: Global, store: &mut Store<CalmDisk>, key: Key) -> Result<bool, Memory>
    requires decided { store.old.pending ≡ [] }
    requires founded { IsPrefix (drill_founding ∷ []) store.old.history }
    requires legal { IsLegal store.old.history }
    requires by_commands { IsByCommands store.old.history }
    requires free { place_of_key store.old.history key ≡ None }
    ensures given { IfOk result (λ given. MatchBool given (GivesOrder store.old.history key store.new.history)
        ((store.new.history ≡ store.old.history) × RevertsEnded store.new.history)) }
    ensures decided { OnOk result (store.new.pending ≡ []) }
    ensures legal { IsLegal store.new.history }
    ensures by_commands { OnOk result (IsByCommands store.new.history) }
{
    let agent = caller_name(alloc)?;
    let command = Command::TakeRevert { key, agent };
    let at = next_revert_moment(store);
    let given = ask(alloc, store, &command, at)?;
    Ok(given.is_ok())
}

/// The moment of the next revert.
fn next_revert_moment(store: &Store<CalmDisk>) -> Moment
    ensures { moment_ms result ≡ revert_ms (length (order_lines store.now.history) + 1) }
{
    let _history = store.history();
    let Totals { orders, .. } = store.totals();
    let Ok(at) = Moment::of(DAY_MS * (2 + orders / u64::from(DRILL_DAILY))) else {
        unreachable!()
    };
    at
}
