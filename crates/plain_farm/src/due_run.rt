//! Which runs are out at a moment, and which run is due.

ghost use Rattle.std.specs.Prelude.{◌≡◌, ◌+◌, ◌≤◌, Contains, IfOk};
ghost use Rattle.std.specs.Option.{option_and_then};
ghost use Rattle.farm_rules.specs.Reruns.{reruns_at};
ghost use Rattle.farm_types.specs.Moment.{moment_ms};
ghost use Rattle.farm_types.specs.declared.stage.Stage.TheVariants.{Search, Verify};
ghost use Rattle.threshold_pick.specs.Open.{open_pick, open_plan};
ghost use Rattle.farm_entry.specs.Due.{due, due_runs, due_searching, due_verifying, is_open, next_run, open_leases, outstanding_positions, sooner, soonest};
ghost use Rattle.farm_entry.specs.History.{opening_in, openings, runs, skipped};
ghost use Rattle.farm_entry.specs.Legal.{IsLegal};
ghost use Rattle.farm_entry.specs.Setup.{setup_of};
ghost use Rattle.farm_entry.specs.Standing.{standing};
ghost use Rattle.plain_farm.specs.Believed.{IsBelieved};
ghost use Rattle.plain_farm.specs.Rows.{AreRows};
ghost use Rattle.plain_history.specs.Held.{IsHeld};
ghost use Rattle.farm_entry.specs.declared.standing.Standing.TheVariants.{Searching};

use crate::kept::{last_lease_by, open_positions_by, plan_by, reruns_by, standing_by};
use crate::rows::Row;
use crate::standings::{belief, skips};
use farm_entry::{DueRun, Entry, LeasedRun, Opening, Standing, What};
use farm_rules::{due_search, due_verify};
use farm_types::{Memory, Moment, Stage};
use plain_history::{is_reported, leases, push_some};
use posterior::Belief;
use std::alloc::Global;
use threshold_pick::{Skips, open_pick_uncounted};
use weight_exact::Run;

/// Whether a lease is open at a moment: its run has no report, and its deadline lies later.
pub fn is_open(history: &[Entry], moment: Moment, lease: LeasedRun) -> bool
    ensures { result ≡ is_open history.now (moment_ms moment) lease }
{
    moment.ms() < lease.deadline && !is_reported(history, lease.run)
}

/// The open leases of a search at a stage.
pub fn open_leases(
    alloc: Global,
    history: &[Entry],
    search: u32,
    stage: Stage,
    moment: Moment,
) -> Result<Vec<LeasedRun>, Memory>
    ensures { IfOk result (λ found. found.items ≡ open_leases history.now search stage (moment_ms moment)) }
{
    let all = leases(alloc, history, search)?;
    let open = all.iter().copied().filter(|lease| {
        lease.is_at(stage) && is_open(history, moment, *lease)
    });
    Ok(open.collect(alloc)?)
}

/// The positions of the open leases, by the numbers of the runs.
pub fn outstanding_positions(
    alloc: Global,
    history: &[Entry],
    search: u32,
    stage: Stage,
    moment: Moment,
) -> Result<Vec<u16>, Memory>
    ensures { IfOk result (λ found. found.items ≡ outstanding_positions history.now search stage (moment_ms moment)) }
{
    let open = open_leases(alloc, history, search, stage, moment)?;
    Ok(open.iter().map(|lease| lease.position).collect(alloc)?)
}

// The position to run next.

/// The plan of a search that is searching, over the positions that weren't skipped.
pub fn plan(alloc: Global, history: &[Entry], opening: &Opening) -> Result<Vec<u16>, Memory>
    requires legal { IsLegal history.now }
    requires opened { Contains (openings history.now) opening.now }
    requires searching { standing history.now opening.now ≡ Searching }
    ensures { IfOk result (λ found. found.items ≡ open_plan (setup_of opening.now)
        (runs history.now opening.now.search) (skipped history.now opening.now.search) opening.now.width) }
{
    let belief = belief(alloc, history, opening)?;
    let skips = skips(alloc, history, opening)?;
    plan_of(alloc, history, opening, &belief, &skips)
}

/// The same, by its belief and the positions that were skipped.
pub(crate) fn plan_of(
    alloc: Global,
    history: &[Entry],
    opening: &Opening,
    belief: &Belief,
    skips: &Skips,
) -> Result<Vec<u16>, Memory>
    requires believed { IsBelieved history.now opening.now belief.now }
    requires searching { standing history.now opening.now ≡ Searching }
    ensures { IfOk result (λ found. found.items ≡ open_plan (setup_of opening.now)
        (runs history.now opening.now.search) skips.now opening.now.width) }
{
    let mut positions = Vec::new(alloc);
    for before in 0..opening.width {
        let position = pick_of(history, opening, belief, skips, before + 1);
        push_some(&mut positions, position)?;
    }
    Ok(positions)
}

/// One position of the plan, where an open one is left.
fn pick_of(
    history: &[Entry],
    opening: &Opening,
    belief: &Belief,
    skips: &Skips,
    j: u8,
) -> Option<u16>
    requires believed { IsBelieved history.now opening.now belief.now }
    requires searching { standing history.now opening.now ≡ Searching }
    requires first { 1 ≤ j }
    requires last { j ≤ opening.now.width }
    ensures { result ≡ open_pick (setup_of opening.now) (runs history.now opening.now.search) skips.now
        opening.now.width j }
{
    open_pick_uncounted(belief.sums(), belief.floor(), skips, j, opening.width)
}

/// Where a search that is searching is to run next.
fn due_searching(
    alloc: Global,
    history: &[Entry],
    rows: &[Row],
    opening: &Opening,
    moment: Moment,
) -> Result<Option<u16>, Memory>
    requires legal { IsLegal history.now }
    requires opened { Contains (openings history.now) opening.now }
    requires rows { AreRows history.now rows.now }
    requires searching { standing history.now opening.now ≡ Searching }
    ensures { IfOk result (λ position. position ≡ due_searching history.now opening.now (moment_ms moment)) }
{
    let plan = plan_by(alloc, history, rows, opening)?;
    let open = open_positions_by(alloc, history, rows, opening.search, Stage::Search, moment)?;
    Ok(due_search(&plan, &open))
}

/// How many reruns of a list were made at a position.
pub(crate) fn reruns_at(position: u16, again: &[Run]) -> usize
    ensures { result ≡ reruns_at position again.now }
{
    again.iter().filter(|run| run.position == position).count()
}

/// Where a search that verifies a culprit is to run next.
fn due_verifying(
    alloc: Global,
    history: &[Entry],
    rows: &[Row],
    opening: &Opening,
    culprit: u16,
    moment: Moment,
) -> Result<Option<u16>, Memory>
    requires opened { Contains (openings history.now) opening.now }
    requires rows { AreRows history.now rows.now }
    requires positive { 1 ≤ culprit }
    ensures { IfOk result (λ position. position ≡ due_verifying history.now opening.now culprit (moment_ms moment)) }
{
    let again = reruns_by(alloc, history, rows, opening)?;
    let open = open_positions_by(alloc, history, rows, opening.search, Stage::Verify, moment)?;
    let at_culprit = u8::try_from(reruns_at(culprit, &again)).unwrap_or(u8::MAX);
    let at_parent = u8::try_from(reruns_at(culprit - 1, &again)).unwrap_or(u8::MAX);
    Ok(due_verify(culprit, at_culprit, at_parent, &open, opening.reruns))
}

// The run that is due.

/// The run of a search that is due at a moment, if one is.
pub fn due(
    alloc: Global,
    history: &[Entry],
    opening: &Opening,
    moment: Moment,
) -> Result<Option<DueRun>, Memory>
    requires legal { IsLegal history.now }
    requires opened { Contains (openings history.now) opening.now }
    ensures { IfOk result (λ run. run ≡ due history.now opening.now (moment_ms moment)) }
{
    due_by(alloc, history, &[], opening, moment)
}

/// The same, by the rows that are kept.
fn due_by(
    alloc: Global,
    history: &[Entry],
    rows: &[Row],
    opening: &Opening,
    moment: Moment,
) -> Result<Option<DueRun>, Memory>
    requires legal { IsLegal history.now }
    requires opened { Contains (openings history.now) opening.now }
    requires rows { AreRows history.now rows.now }
    ensures { IfOk result (λ run. run ≡ due history.now opening.now (moment_ms moment)) }
{
    let (stage, position) = match standing_by(alloc, history, rows, opening)? {
        Standing::Searching => {
            let position = due_searching(alloc, history, rows, opening, moment)?;
            (Stage::Search, position)
        }
        Standing::Verifying(culprit) => {
            let position = due_verifying(alloc, history, rows, opening, culprit, moment)?;
            (Stage::Verify, position)
        }
        _ => return Ok(None),
    };
    let search = opening.search;
    Ok(position.map(|position| DueRun {
        search,
        stage,
        position,
    }))
}

/// The run that is due of the search that an entry opened, if it opened one.
fn due_in(
    alloc: Global,
    history: &[Entry],
    rows: &[Row],
    what: &What,
    moment: Moment,
) -> Result<Option<DueRun>, Memory>
    requires legal { IsLegal history.now }
    requires rows { AreRows history.now rows.now }
    requires held { IsHeld history.now what.now }
    ensures { IfOk result (λ run. run ≡ option_and_then (λ o. due history.now o (moment_ms moment)) (opening_in what.now)) }
{
    match what.opening() {
        None => Ok(None),
        Some(opening) => due_by(alloc, history, rows, opening, moment),
    }
}

/// The due runs of all searches, by the numbers of the searches.
pub fn due_runs(alloc: Global, history: &[Entry], moment: Moment) -> Result<Vec<DueRun>, Memory>
    requires { IsLegal history.now }
    ensures { IfOk result (λ found. found.items ≡ due_runs history.now (moment_ms moment)) }
{
    due_runs_by(alloc, history, &[], moment)
}

/// The same, by the rows that are kept.
fn due_runs_by(
    alloc: Global,
    history: &[Entry],
    rows: &[Row],
    moment: Moment,
) -> Result<Vec<DueRun>, Memory>
    requires legal { IsLegal history.now }
    requires rows { AreRows history.now rows.now }
    ensures { IfOk result (λ found. found.items ≡ due_runs history.now (moment_ms moment)) }
{
    let mut found = Vec::new(alloc);
    for entry in history {
        push_some(
            &mut found,
            due_in(alloc, history, rows, &entry.what, moment)?,
        )?;
    }
    Ok(found)
}

/// Of two due runs that of the search whose last lease stands earlier, and on a tie the first.
fn sooner(history: &[Entry], rows: &[Row], run: DueRun, other: Option<DueRun>) -> DueRun
    requires { AreRows history.now rows.now }
    ensures { result ≡ sooner history.now run other }
{
    let Some(other) = other else {
        return run;
    };
    let last = last_lease_by(history, rows, run.search);
    if last_lease_by(history, rows, other.search) < last {
        other
    } else {
        run
    }
}

/// The due run of the search whose last lease stands earliest, the first of them on a tie.
fn soonest(history: &[Entry], rows: &[Row], runs: &[DueRun]) -> Option<DueRun>
    requires { AreRows history.now rows.now }
    ensures { result ≡ soonest history.now runs.now }
{
    match runs {
        [] => None,
        [run, rest @ ..] => Some(sooner(history, rows, *run, soonest(history, rows, rest))),
    }
}

/// The run that is handed out next, over all searches. A search that was never leased comes before all others, and of
/// two such searches the smaller number.
pub fn next_run(alloc: Global, history: &[Entry], moment: Moment) -> Result<Option<DueRun>, Memory>
    requires { IsLegal history.now }
    ensures { IfOk result (λ run. run ≡ next_run history.now (moment_ms moment)) }
{
    next_run_by(alloc, history, &[], moment)
}

/// The same, by the rows that are kept.
pub(crate) fn next_run_by(
    alloc: Global,
    history: &[Entry],
    rows: &[Row],
    moment: Moment,
) -> Result<Option<DueRun>, Memory>
    requires legal { IsLegal history.now }
    requires rows { AreRows history.now rows.now }
    ensures { IfOk result (λ run. run ≡ next_run history.now (moment_ms moment)) }
{
    let runs = due_runs_by(alloc, history, rows, moment)?;
    Ok(soonest(history, rows, &runs))
}
