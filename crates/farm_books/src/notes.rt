//! What one entry writes into the books, and how it is taken out again.

ghost use Rattle.std.specs.Prelude.{◌≡◌, ◌≤◌, ◌<◌, ◌+◌, true, false, length, None, Some, ℕ, IfSome, OnOk};
ghost use Rattle.std.specs.FinMap.{get};
ghost use Rattle.farm_books.specs.Kept.{with_key, with_lease, with_mark, with_report, without_key, without_lease, without_report};

use farm_entry::LeasedRun;
use farm_types::{Key, Memory};
use search_books::{Inbox, Lease, LeaseBook};

/// Makes room for a key, and for the report of a run.
pub(crate) fn reserve_places(inbox: &mut Inbox, told: Option<u32>) -> Result<(), Memory>
    ensures keys { inbox.new.keys ≡ inbox.old.keys }
    ensures runs { inbox.new.runs ≡ inbox.old.runs }
    ensures room { OnOk result (1 ≤ inbox.new.room) }
    ensures row { OnOk result (IfSome told (λ run. run < inbox.new.run_bound)) }
{
    inbox.reserve_keys(1)?;
    match told {
        None => Ok(()),
        Some(run) => inbox.reserve_runs(run),
    }
}

/// Notes the place of a key.
pub(crate) fn put_key(inbox: &mut Inbox, key: Option<Key>, place: u32)
    requires room { 1 ≤ inbox.old.room }
    requires absent { IfSome key (λ k. get inbox.old.keys k.0 ≡ None) }
    ensures keys { inbox.new.keys ≡ with_key inbox.old.keys key place }
    ensures runs { inbox.new.runs ≡ inbox.old.runs }
    ensures run_bound { inbox.new.run_bound ≡ inbox.old.run_bound }
{
    if let Some(key) = key {
        inbox.put_key(key, place);
    }
}

/// Notes the place of the report of a run, with a verdict or not.
pub(crate) fn put_report(inbox: &mut Inbox, told: Option<u32>, place: u32)
    requires row { IfSome told (λ run. run < inbox.old.run_bound) }
    requires absent { IfSome told (λ run. get inbox.old.runs run ≡ None) }
    ensures runs { inbox.new.runs ≡ with_report inbox.old.runs told place }
    ensures keys { inbox.new.keys ≡ inbox.old.keys }
{
    if let Some(run) = told {
        inbox.put_run(run, place);
    }
}

/// Takes a key out.
pub(crate) fn take_key(inbox: &mut Inbox, key: Option<Key>)
    requires { IfSome key (λ k. (place : ℕ) × (get inbox.old.keys k.0 ≡ Some place)) }
    ensures keys { inbox.new.keys ≡ without_key inbox.old.keys key }
    ensures runs { inbox.new.runs ≡ inbox.old.runs }
{
    if let Some(key) = key {
        inbox.take_key(key);
    }
}

/// Takes the report of a run out.
pub(crate) fn take_report(inbox: &mut Inbox, told: Option<u32>)
    requires { IfSome told (λ run. (place : ℕ) × (get inbox.old.runs run ≡ Some place)) }
    ensures runs { inbox.new.runs ≡ without_report inbox.old.runs told }
    ensures keys { inbox.new.keys ≡ inbox.old.keys }
{
    if let Some(run) = told {
        inbox.take_run(run);
    }
}

/// Makes room for a lease.
pub(crate) fn reserve_lease(leases: &mut LeaseBook, lease: Option<LeasedRun>) -> Result<(), Memory>
    ensures leases { leases.new.leases ≡ leases.old.leases }
    ensures room { OnOk result (1 ≤ leases.new.room) }
    ensures search { OnOk result (IfSome lease (λ l. l.search < leases.new.search_bound)) }
{
    leases.reserve_leases(1)?;
    match lease {
        None => Ok(()),
        Some(lease) => leases.reserve_searches(lease.search),
    }
}

/// Books a lease that is handed out.
pub(crate) fn put_lease(leases: &mut LeaseBook, lease: Option<LeasedRun>)
    requires room { 1 ≤ leases.old.room }
    requires number { IfSome lease (λ l. l.run ≡ length leases.old.leases + 1) }
    requires search { IfSome lease (λ l. l.search < leases.old.search_bound) }
    ensures { leases.new.leases ≡ with_lease leases.old.leases lease }
{
    if let Some(lease) = lease {
        leases.add(Lease {
            run: lease.run,
            search: lease.search,
            stage: lease.stage,
            position: lease.position,
            deadline: lease.deadline,
        });
    }
}

/// Marks the lease of a run that is reported as answered.
pub(crate) fn put_mark(leases: &mut LeaseBook, told: Option<u32>)
    requires { IfSome told (λ run. (0 < run) × (run ≤ length leases.old.leases)) }
    ensures { leases.new.leases ≡ with_mark true leases.old.leases told }
{
    if let Some(run) = told {
        leases.answered(run);
    }
}

/// Takes the last lease out, where it is to go.
pub(crate) fn take_lease(leases: &mut LeaseBook, lease: Option<LeasedRun>)
    requires { IfSome lease (λ l. 0 < length leases.old.leases) }
    ensures { leases.new.leases ≡ without_lease leases.old.leases lease }
{
    if lease.is_some() {
        leases.take_last();
    }
}

/// Takes the mark of the lease of a run that was reported away.
pub(crate) fn take_mark(leases: &mut LeaseBook, told: Option<u32>)
    requires { IfSome told (λ run. (0 < run) × (run ≤ length leases.old.leases)) }
    ensures { leases.new.leases ≡ with_mark false leases.old.leases told }
{
    if let Some(run) = told {
        leases.unanswered(run);
    }
}
