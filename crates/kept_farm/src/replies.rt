//! The reply to the request that made an entry, by what is kept.

ghost use Rattle.std.specs.Prelude.{◌≡◌, IfOk};
ghost use Rattle.std.specs.Option.{option_copied};
ghost use Rattle.flake_rate.specs.Miss.{FitsRate};
ghost use Rattle.farm_entry.specs.Setup.{budget_of_search};
ghost use Rattle.kept_farm.specs.Replying.{reply_to_lease, reply_to_report, reply_to_skip};

use farm_entry::{LeasedRun, Opening, Reply, ReportedRun, SkippedRun, Standing};
use farm_types::Memory;

/// The reply to an opening, where the search stood so then.
pub(crate) fn reply_to_opening(opening: &Opening, stood: Standing) -> Reply
    requires { FitsRate opening.now.miss opening.now.rate }
    ensures { result ≡ Reply.Opened opening.now.search (budget_of_search opening.now) stood }
{
    Reply::Opened {
        search: opening.search,
        budget: opening.budget(),
        standing: stood,
    }
}

/// The reply to a lease, by the search of the run: its commit at the position, and its test.
pub(crate) fn reply_to_lease(
    lease: LeasedRun,
    opening: Option<&Opening>,
) -> Result<Option<Reply>, Memory>
    ensures { IfOk result (λ reply. reply ≡ reply_to_lease lease (option_copied opening.entry)) }
{
    let Some(opening) = opening else {
        return Ok(None);
    };
    Ok(Some(Reply::Leased {
        run: lease.run,
        search: lease.search,
        stage: lease.stage,
        position: lease.position,
        commit: opening.commit(lease.position),
        test: opening.test.copy()?,
        deadline: lease.deadline,
    }))
}

/// The reply to a report, by the lease of the run and where its search stood then.
pub(crate) fn reply_to_report(
    report: ReportedRun,
    stood: Standing,
    lease: Option<LeasedRun>,
) -> Option<Reply>
    ensures { result ≡ reply_to_report report stood lease }
{
    let lease = lease?;
    Some(Reply::Reported {
        run: lease.run,
        search: lease.search,
        verdict: report.verdict,
        fate: report.fate,
        standing: stood,
    })
}

/// The same where the run's tree can't be tested.
pub(crate) fn reply_to_skip(
    skip: SkippedRun,
    stood: Standing,
    lease: Option<LeasedRun>,
) -> Option<Reply>
    ensures { result ≡ reply_to_skip skip stood lease }
{
    let lease = lease?;
    Some(Reply::Skipped {
        run: lease.run,
        search: lease.search,
        fate: skip.fate,
        standing: stood,
    })
}
