//! The reply to a request that made an entry.

ghost use Rattle.std.specs.Prelude.{◌≡◌, Some, Contains, IfOk};
ghost use Rattle.farm_entry.specs.History.{opening_numbered, openings};
ghost use Rattle.farm_entry.specs.Setup.{commit_of};
ghost use Rattle.std.specs.Option.{option_map};
ghost use Rattle.farm_entry.specs.Legal.{IsLegal};
ghost use Rattle.plain_history.specs.Held.{IsHeld};
ghost use Rattle.farm_entry.specs.Reply.{reply_at, reply_to, reply_to_report, reply_to_skip};

use crate::standings::standing;
use farm_entry::{Entry, Fate, LeasedRun, Opening, Reply, SkipFate, What};
use farm_types::Memory;
use plain_history::{lease_of, opening_numbered};
use std::alloc::Global;
use std::ops::Deref;
use weight_exact::Verdict;

/// The reply to an opening.
fn reply_to_opening(alloc: Global, history: &[Entry], opening: &Opening) -> Result<Reply, Memory>
    requires legal { IsLegal history.now }
    requires opened { Contains (openings history.now) opening.now }
    ensures { IfOk result (λ reply. Some reply ≡ reply_to history.now (What.Opened opening.now)) }
{
    Ok(Reply::Opened {
        search: opening.search,
        budget: opening.budget(),
        standing: standing(alloc, history, opening)?,
    })
}

/// The reply to a lease: the run with the commit at its position and the test of its search.
fn reply_to_lease(history: &[Entry], lease: LeasedRun) -> Result<Option<Reply>, Memory>
    ensures { IfOk result (λ reply. reply ≡ option_map (λ o. Reply.Leased lease.run lease.search
        lease.stage lease.position (commit_of o lease.position) o.test lease.deadline)
        (opening_numbered history.now lease.search)) }
{
    let Some(opening) = opening_numbered(history, lease.search) else {
        return Ok(None);
    };
    Ok(Some(Reply::Leased {
        run: lease.run,
        search: lease.search,
        stage: lease.stage,
        position: lease.position,
        commit: opening.commit(lease.position),
        test: opening.test.copy()?,
        deadline: lease.deadline,
    }))
}

/// The reply to a report: the run's search, and where it stands.
fn reply_to_report(
    alloc: Global,
    history: &[Entry],
    verdict: Verdict,
    fate: Fate,
    lease: LeasedRun,
) -> Result<Option<Reply>, Memory>
    requires { IsLegal history.now }
    ensures { IfOk result (λ reply. reply ≡ reply_to_report history.now verdict fate lease) }
{
    let Some(opening) = opening_numbered(history, lease.search) else {
        return Ok(None);
    };
    Ok(Some(Reply::Reported {
        run: lease.run,
        search: lease.search,
        verdict,
        fate,
        standing: standing(alloc, history, opening)?,
    }))
}

/// The reply to a report of a run whose tree can't be tested: the run's search, and where it stands.
fn reply_to_skip(
    alloc: Global,
    history: &[Entry],
    fate: SkipFate,
    lease: LeasedRun,
) -> Result<Option<Reply>, Memory>
    requires { IsLegal history.now }
    ensures { IfOk result (λ reply. reply ≡ reply_to_skip history.now fate lease) }
{
    let Some(opening) = opening_numbered(history, lease.search) else {
        return Ok(None);
    };
    Ok(Some(Reply::Skipped {
        run: lease.run,
        search: lease.search,
        fate,
        standing: standing(alloc, history, opening)?,
    }))
}

/// What is replied for what an entry records, by the history up to it and with it. A founding, a carried order and a
/// closing have no reply.
pub fn reply_to(alloc: Global, history: &[Entry], what: &What) -> Result<Option<Reply>, Memory>
    requires legal { IsLegal history.now }
    requires held { IsHeld history.now what.now }
    ensures { IfOk result (λ reply. reply ≡ reply_to history.now what.now) }
{
    match what {
        What::Founded { .. } | What::Carried { .. } | What::Closed => Ok(None),
        What::Opened(opening) => Ok(Some(reply_to_opening(alloc, history, opening.deref())?)),
        What::Leased {
            run,
            search,
            stage,
            position,
            deadline,
            ..
        } => {
            let lease = LeasedRun {
                run: *run,
                search: *search,
                stage: *stage,
                position: *position,
                deadline: *deadline,
            };
            reply_to_lease(history, lease)
        }
        What::Reported { run, verdict, fate } => match lease_of(history, *run) {
            None => Ok(None),
            Some(lease) => reply_to_report(alloc, history, *verdict, *fate, lease),
        },
        What::Skipped { run, fate } => match lease_of(history, *run) {
            None => Ok(None),
            Some(lease) => reply_to_skip(alloc, history, *fate, lease),
        },
        What::Cancelled { search, .. } => Ok(Some(Reply::Cancelled { search: *search })),
        What::Ordered {
            order,
            commit,
            search,
            day,
            ..
        } => Ok(Some(Reply::Ordered {
            order: *order,
            commit: *commit,
            search: *search,
            day: *day,
        })),
    }
}

/// The reply of the entry at a place: the same whatever came later.
pub fn reply_at(alloc: Global, history: &[Entry], place: usize) -> Result<Option<Reply>, Memory>
    requires { IsLegal history.now }
    ensures { IfOk result (λ reply. reply ≡ reply_at history.now place) }
{
    if place < history.len() {
        reply_to(alloc, &history[..place + 1], &history[place].what)
    } else {
        Ok(None)
    }
}
