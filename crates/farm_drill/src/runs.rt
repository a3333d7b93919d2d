//! What is left of the runs when the workers have ended.
ghost use Rattle.std.specs.Prelude.{◌≡◌, ◌++◌, ◌∷◌, ◌⊎◌, ℕ, [], true, IfOk, OnOk, IfSome, IfNone, MatchBool, None};
ghost use Rattle.common_types.specs.Prefix.{IsPrefix};
ghost use Rattle.farm_entry.specs.History.{all_leases, is_reported, place_of_key};
ghost use Rattle.farm_entry.specs.Legal.{IsLegal};
ghost use Rattle.drill_plan.specs.Start.{drill_founding};
ghost use Rattle.shared_farm.specs.Rests.{IsByCommands};
ghost use Rattle.farm_drill.specs.Ends.{AllReported, AreRun, IsFull};
ghost use Rattle.farm_drill.specs.Free.{AreFree};
ghost use Rattle.farm_drill.specs.Planned.{GoesByPlan};
ghost use Rattle.farm_types.specs.declared.key.Key.{Key as FarmKey};
ghost use Rattle.farm_core.specs.Outcome.{handed_out};
ghost use Rattle.farm_drill.specs.Steps.{FindsNone, HandsOut, run_given};

use crate::asking::ask;
use crate::keys::Keys;
use crate::look::{Found, look_through};
use crate::names::{caller_name, drill_moment};
use crate::reporting::{report, report_missing};
use farm_disk::CalmDisk;
use farm_entry::{Command, LeasedRun, Refusal, Reply};
use farm_store::Store;
use farm_types::{Key, Memory};
use std::alloc::Global;

/// Reports the runs that have no report, and leases and reports until no run is due or the history is full. It gives
/// keys that stand in no entry.
pub(crate) fn end_runs(alloc: Global, store: &mut Store<CalmDisk>) -> Result<Keys, Memory>
    requires founded { IsPrefix (drill_founding ∷ []) store.old.history }
    requires decided { store.old.pending ≡ [] }
    requires by_commands { IsByCommands store.old.history }
    requires planned { GoesByPlan store.old.history }
    ensures planned { OnOk result (GoesByPlan store.new.history) }
    ensures ended { OnOk result (IsFull store.new.history ⊎ AreRun store.new.history) }
    ensures free { IfOk result (λ keys. AreFree store.new.history keys) }
    ensures decided { OnOk result (store.new.pending ≡ []) }
    ensures longer { IsPrefix store.old.history store.new.history }
    ensures legal { OnOk result (IsLegal store.new.history) }
    ensures by_commands { OnOk result (IsByCommands store.new.history) }
{
    let found = look_through(alloc, store.history())?;
    let Found { keys, reported } = found;
    let mut keys = keys;
    if !report_rest(alloc, store, reported)? {
        return Ok(keys);
    }
    lease_rest(alloc, store, &mut keys)?;
    Ok(keys)
}

/// Reports the runs that have no report, unless it is known that each has one. Answers whether all are reported then:
/// they aren't only where the history is full.
fn report_rest(alloc: Global, store: &mut Store<CalmDisk>, reported: bool) -> Result<bool, Memory>
    requires decided { store.old.pending ≡ [] }
    requires reported { reported ≡ true → AllReported store.old.history }
    requires legal { IsLegal store.old.history }
    requires by_commands { IsByCommands store.old.history }
    requires planned { GoesByPlan store.old.history }
    ensures planned { OnOk result (GoesByPlan store.new.history) }
    ensures reported { IfOk result (λ all. MatchBool all (AllReported store.new.history) (IsFull store.new.history)) }
    ensures keys { OnOk result ((key : FarmKey) → place_of_key store.old.history key ≡ None
        → place_of_key store.new.history key ≡ None) }
    ensures decided { OnOk result (store.new.pending ≡ []) }
    ensures longer { IsPrefix store.old.history store.new.history }
    ensures legal { OnOk result (IsLegal store.new.history) }
    ensures by_commands { OnOk result (IsByCommands store.new.history) }
{
    if reported {
        return Ok(true);
    }
    report_missing(alloc, store)
}

/// Leases, under keys that stand in no entry, and reports until no run is due or the history is full.
fn lease_rest(alloc: Global, store: &mut Store<CalmDisk>, keys: &mut Keys) -> Result<(), Memory>
    requires decided { store.old.pending ≡ [] }
    requires reported { AllReported store.old.history }
    requires founded { IsPrefix (drill_founding ∷ []) store.old.history }
    requires legal { IsLegal store.old.history }
    requires by_commands { IsByCommands store.old.history }
    requires free { AreFree store.old.history keys.old }
    requires planned { GoesByPlan store.old.history }
    ensures planned { OnOk result (GoesByPlan store.new.history) }
    ensures ended { OnOk result (IsFull store.new.history ⊎ AreRun store.new.history) }
    ensures free { OnOk result (AreFree store.new.history keys.new) }
    ensures decided { OnOk result (store.new.pending ≡ []) }
    ensures longer { IsPrefix store.old.history store.new.history }
    ensures legal { OnOk result (IsLegal store.new.history) }
    ensures by_commands { OnOk result (IsByCommands store.new.history) }
{
    loop {
        let key = keys.fresh(alloc, store.history())?;
        match lease(alloc, store, key)? {
            None => return Ok(()),
            Some(lease) => {
                if !report(alloc, store, lease)? {
                    return Ok(());
                }
            }
        }
    }
}

/// Leases the run that is due, if one is and the history isn't full.
fn lease(alloc: Global, store: &mut Store<CalmDisk>, key: Key) -> Result<Option<LeasedRun>, Memory>
    requires decided { store.old.pending ≡ [] }
    requires free { place_of_key store.old.history key ≡ None }
    requires legal { IsLegal store.old.history }
    requires by_commands { IsByCommands store.old.history }
    ensures leased { IfOk result
        (λ given. IfSome given (λ lease. HandsOut store.old.history key lease store.new.history)) }
    ensures none { IfOk result (λ given. IfNone given ((store.new.history ≡ store.old.history)
        × (IsFull store.new.history ⊎ FindsNone store.new.history))) }
    ensures decided { OnOk result (store.new.pending ≡ []) }
    ensures longer { IsPrefix store.old.history store.new.history }
    ensures legal { IsLegal store.new.history }
    ensures by_commands { OnOk result (IsByCommands store.new.history) }
{
    let worker = caller_name(alloc)?;
    let command = Command::Lease { key, worker };
    let given = ask(alloc, store, &command, drill_moment())?;
    Ok(run_given(&given))
}

/// The run that an answer hands out, if it does.
fn run_given(given: &Result<Reply, Refusal>) -> Option<LeasedRun>
    ensures { result ≡ run_given given.now }
{
    match given {
        Ok(reply) => handed_out(reply),
        Err(_) => None,
    }
}

/// The run that a reply hands out, if it does.
fn handed_out(reply: &Reply) -> Option<LeasedRun>
    ensures { result ≡ handed_out reply.now }
{
    match reply {
        Reply::Leased {
            run,
            search,
            stage,
            position,
            deadline,
            ..
        } => Some(LeasedRun {
            run: *run,
            search: *search,
            stage: *stage,
            position: *position,
            deadline: *deadline,
        }),
        _ => None,
    }
}
