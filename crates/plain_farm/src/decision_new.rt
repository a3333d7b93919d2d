//! What each command that may add an entry is for.

ghost use Rattle.std.specs.Prelude.{◌≡◌, count_by, Contains, IfOk};
ghost use Rattle.weight_exact.specs.Load.{is_fail_above, last_pass, load, passed_at};
ghost use Rattle.farm_entry.specs.Decision.{cancel_decision, fate_at, fate_of, is_past_budget, lease_decision, open_decision, report_decision, revert_decision, skip_decision, skip_fate_of};
ghost use Rattle.farm_entry.specs.History.{opening_numbered, openings};
ghost use Rattle.farm_entry.specs.Legal.{IsLegal};
ghost use Rattle.plain_farm.specs.Rows.{AreRows};

use crate::due_run::reruns_at;
use crate::kept::{reruns_by, runs_by, standing_by};
use crate::rows::Row;
use farm_entry::{
    BoxedOpening, Decision, DueRun, Entry, Fate, LeasedRun, MAX_SEARCHES, OpenAsk, Opening,
    Refusal, SkipFate, Standing, What,
};
use farm_rules::{Draft, NoOrder};
use farm_types::{Key, Memory, Moment, Name, Stage};
use plain_history::{all_leases_count, lease_ms, opening_numbered, openings_count};
use std::alloc::Global;
use weight_exact::{Factors, Run, Verdict};

/// A new search, if the farm takes one more.
pub(crate) fn open_decision(
    alloc: Global,
    history: &[Entry],
    ask: &OpenAsk,
    at: Moment,
) -> Result<Decision, Memory>
    requires { IsLegal history.now }
    ensures { IfOk result (λ found. found ≡ open_decision history.now ask.now at) }
{
    let count = openings_count(history);
    if MAX_SEARCHES as usize <= count {
        return Ok(Decision::Refuse(Refusal::TooManySearches));
    }
    match ask.opening(alloc, count as u32 + 1)? {
        Ok(opening) => Ok(Decision::New(Entry {
            at,
            what: What::Opened(BoxedOpening::of(alloc, opening)?),
        })),
        Err(fault) => Ok(Decision::Refuse(Refusal::BadOpen(fault))),
    }
}

/// The due run, handed out until one lease time later.
pub(crate) fn lease_decision(
    history: &[Entry],
    key: Key,
    worker: &Name,
    at: Moment,
    due: Option<DueRun>,
) -> Result<Decision, Memory>
    requires { IsLegal history.now }
    ensures { IfOk result (λ found. found ≡ lease_decision history.now key worker.now at due) }
{
    let Some(run) = due else {
        return Ok(Decision::Refuse(Refusal::NoRun));
    };
    let what = What::Leased {
        key,
        worker: worker.copy()?,
        run: all_leases_count(history) as u32 + 1,
        search: run.search,
        stage: run.stage,
        position: run.position,
        deadline: at.ms() + lease_ms(history) as u64,
    };
    Ok(Decision::New(Entry { at, what }))
}

// The report of a run.

/// The greatest position at which a run passed, or 0.
fn last_pass(runs: &[Run]) -> u16
    ensures { result ≡ last_pass runs.now }
{
    let mut last = 0;
    for run in runs {
        last = passed_at(*run).max(last);
    }
    last
}

/// The position of a run that passed, else 0.
fn passed_at(run: Run) -> u16
    ensures { result ≡ passed_at run.verdict run.position }
{
    match run.verdict {
        Verdict::Pass => run.position,
        Verdict::Fail => 0,
    }
}

/// How many of the runs still tell hypotheses apart: all, where a broken test may pass, else the fails above the last
/// pass.
fn load(factors: &Factors, runs: &[Run]) -> usize
    ensures { result ≡ load factors.now runs.now }
{
    if 0 < factors.pass_in {
        return runs.len();
    }
    fails_above(last_pass(runs), runs)
}

/// How many runs failed above a position.
fn fails_above(position: u16, runs: &[Run]) -> usize
    ensures { result ≡ count_by (is_fail_above position) runs.now }
{
    let fails = runs
        .iter()
        .filter(|run| run.verdict.is_fail() && position < run.position);
    fails.count()
}

/// Whether one run more takes a search past its budget.
fn is_past_budget(
    alloc: Global,
    history: &[Entry],
    rows: &[Row],
    opening: &Opening,
    run: Run,
) -> Result<bool, Memory>
    requires legal { IsLegal history.now }
    requires opened { Contains (openings history.now) opening.now }
    requires rows { AreRows history.now rows.now }
    ensures { IfOk result (λ past. past ≡ is_past_budget history.now opening.now run) }
{
    let mut told = runs_by(alloc, history, rows, opening)?;
    told.push(run)?;
    let factors = Factors::of(opening.rate, opening.miss);
    Ok((opening.budget() as usize) < load(&factors, &told))
}

/// What becomes of the first report of a run, by where its search stands: late, unless it is of the stage at which the
/// search stands; a search run over the budget is over; a rerun beyond the count of its side is late.
fn fate_at(
    alloc: Global,
    history: &[Entry],
    rows: &[Row],
    opening: &Opening,
    lease: LeasedRun,
    verdict: Verdict,
) -> Result<Fate, Memory>
    requires legal { IsLegal history.now }
    requires opened { Contains (openings history.now) opening.now }
    requires rows { AreRows history.now rows.now }
    ensures { IfOk result (λ fate. fate ≡ fate_of history.now lease verdict (Some opening.now)) }
{
    let run = lease.run_with(verdict);
    match standing_by(alloc, history, rows, opening)? {
        Standing::Searching if lease.is_at(Stage::Search) => {
            if is_past_budget(alloc, history, rows, opening, run)? {
                Ok(Fate::Over)
            } else {
                Ok(Fate::Counted)
            }
        }
        Standing::Verifying(_) if lease.is_at(Stage::Verify) => {
            let again = reruns_by(alloc, history, rows, opening)?;
            if reruns_at(lease.position, &again) < usize::from(opening.reruns) {
                Ok(Fate::Counted)
            } else {
                Ok(Fate::Late)
            }
        }
        _ => Ok(Fate::Late),
    }
}

/// The fate of the first report of a run. That of a search that isn't there would be late.
fn fate_of(
    alloc: Global,
    history: &[Entry],
    rows: &[Row],
    lease: LeasedRun,
    verdict: Verdict,
) -> Result<Fate, Memory>
    requires legal { IsLegal history.now }
    requires rows { AreRows history.now rows.now }
    ensures { IfOk result (λ fate. fate
        ≡ fate_of history.now lease verdict (opening_numbered history.now lease.search)) }
{
    match opening_numbered(history, lease.search) {
        None => Ok(Fate::Late),
        Some(opening) => fate_at(alloc, history, rows, opening, lease, verdict),
    }
}

/// The first report of a run that was handed out.
pub(crate) fn report_decision(
    alloc: Global,
    history: &[Entry],
    rows: &[Row],
    run: u32,
    verdict: Verdict,
    at: Moment,
    lease: Option<LeasedRun>,
) -> Result<Decision, Memory>
    requires legal { IsLegal history.now }
    requires rows { AreRows history.now rows.now }
    ensures { IfOk result (λ found. found ≡ report_decision history.now run verdict at lease) }
{
    let Some(lease) = lease else {
        return Ok(Decision::Refuse(Refusal::UnknownRun(run)));
    };
    let fate = fate_of(alloc, history, rows, lease, verdict)?;
    let what = What::Reported { run, verdict, fate };
    Ok(Decision::New(Entry { at, what }))
}

// The report of a run whose tree can't be tested.

/// What becomes of the first such report of a run: it is taken where the search stands at the run's stage, and else
/// late.
fn skip_fate_at(
    alloc: Global,
    history: &[Entry],
    rows: &[Row],
    opening: &Opening,
    lease: LeasedRun,
) -> Result<SkipFate, Memory>
    requires legal { IsLegal history.now }
    requires opened { Contains (openings history.now) opening.now }
    requires rows { AreRows history.now rows.now }
    ensures { IfOk result (λ fate. fate ≡ skip_fate_of history.now lease (Some opening.now)) }
{
    match standing_by(alloc, history, rows, opening)? {
        Standing::Searching if lease.is_at(Stage::Search) => Ok(SkipFate::Taken),
        Standing::Verifying(_) if lease.is_at(Stage::Verify) => Ok(SkipFate::Taken),
        _ => Ok(SkipFate::Late),
    }
}

/// The fate of the first such report of a run. That of a search that isn't there would be late.
fn skip_fate_of(
    alloc: Global,
    history: &[Entry],
    rows: &[Row],
    lease: LeasedRun,
) -> Result<SkipFate, Memory>
    requires legal { IsLegal history.now }
    requires rows { AreRows history.now rows.now }
    ensures { IfOk result (λ fate. fate
        ≡ skip_fate_of history.now lease (opening_numbered history.now lease.search)) }
{
    match opening_numbered(history, lease.search) {
        None => Ok(SkipFate::Late),
        Some(opening) => skip_fate_at(alloc, history, rows, opening, lease),
    }
}

/// The first report of a run that was handed out and whose tree can't be tested.
pub(crate) fn skip_decision(
    alloc: Global,
    history: &[Entry],
    rows: &[Row],
    run: u32,
    at: Moment,
    lease: Option<LeasedRun>,
) -> Result<Decision, Memory>
    requires legal { IsLegal history.now }
    requires rows { AreRows history.now rows.now }
    ensures { IfOk result (λ found. found ≡ skip_decision history.now run at lease) }
{
    let Some(lease) = lease else {
        return Ok(Decision::Refuse(Refusal::UnknownRun(run)));
    };
    let fate = skip_fate_of(alloc, history, rows, lease)?;
    let what = What::Skipped { run, fate };
    Ok(Decision::New(Entry { at, what }))
}

// The end of a search, and orders.

/// The end of a search that goes on.
pub(crate) fn cancel_decision(
    alloc: Global,
    history: &[Entry],
    rows: &[Row],
    key: Key,
    search: u32,
    at: Moment,
) -> Result<Decision, Memory>
    requires legal { IsLegal history.now }
    requires rows { AreRows history.now rows.now }
    ensures { IfOk result (λ found. found
        ≡ cancel_decision history.now key search at (opening_numbered history.now search)) }
{
    let Some(opening) = opening_numbered(history, search) else {
        return Ok(Decision::Refuse(Refusal::UnknownSearch(search)));
    };
    let standing = standing_by(alloc, history, rows, opening)?;
    if standing.is_active() {
        let what = What::Cancelled { key, search };
        Ok(Decision::New(Entry { at, what }))
    } else {
        Ok(Decision::Refuse(Refusal::SearchEnded(standing)))
    }
}

/// The next order, if there is one.
pub(crate) fn revert_decision(
    key: Key,
    agent: &Name,
    at: Moment,
    next: Result<Draft, NoOrder>,
) -> Result<Decision, Memory>
    ensures { IfOk result (λ found. found ≡ revert_decision key agent.now at next) }
{
    match next {
        Ok(draft) => {
            let what = What::Ordered {
                key,
                agent: agent.copy()?,
                order: draft.order,
                commit: draft.commit,
                search: draft.search,
                day: draft.day,
            };
            Ok(Decision::New(Entry { at, what }))
        }
        Err(NoOrder::NoRevert) => Ok(Decision::Refuse(Refusal::NoRevert)),
        Err(NoOrder::DailyLimit { day, count }) => {
            Ok(Decision::Refuse(Refusal::DailyLimit { day, count }))
        }
    }
}
