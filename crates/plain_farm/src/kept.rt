//! What a decision asks of a search: read off the search's row where one is kept, and else found anew.

ghost use Rattle.std.specs.Prelude.{◌≡◌, ◌&&◌, nat_lt, filter, map, Contains, IfOk};
ghost use Rattle.threshold_pick.specs.Open.{open_plan};
ghost use Rattle.farm_types.specs.Moment.{moment_ms};
ghost use Rattle.farm_entry.specs.Due.{outstanding_positions};
ghost use Rattle.farm_entry.specs.History.{last_lease, openings, reruns, runs, same_stage, skipped};
ghost use Rattle.farm_entry.specs.Legal.{IsLegal};
ghost use Rattle.farm_entry.specs.Setup.{setup_of};
ghost use Rattle.farm_entry.specs.Standing.{standing};
ghost use Rattle.farm_entry.specs.declared.standing.Standing.TheVariants.{Searching};
ghost use Rattle.plain_farm.specs.Rows.{AreRows};

use crate::due_run::{outstanding_positions, plan};
use crate::rows::{Row, row_place};
use crate::standings::standing;
use farm_entry::{Entry, LeasedRun, Opening, Standing};
use farm_types::{Memory, Moment, Stage};
use plain_history::{last_lease, reruns, runs};
use std::alloc::Global;
use weight_exact::Run;

/// Where a search stands.
pub(crate) fn standing_by(
    alloc: Global,
    history: &[Entry],
    rows: &[Row],
    opening: &Opening,
) -> Result<Standing, Memory>
    requires legal { IsLegal history.now }
    requires opened { Contains (openings history.now) opening.now }
    requires rows { AreRows history.now rows.now }
    ensures { IfOk result (λ found. found ≡ standing history.now opening.now) }
{
    match row_place(rows, opening.search) {
        Some(place) => Ok(rows[place].standing),
        None => standing(alloc, history, opening),
    }
}

/// Its runs.
pub(crate) fn runs_by(
    alloc: Global,
    history: &[Entry],
    rows: &[Row],
    opening: &Opening,
) -> Result<Vec<Run>, Memory>
    requires opened { Contains (openings history.now) opening.now }
    requires rows { AreRows history.now rows.now }
    ensures { IfOk result (λ found. found.items ≡ runs history.now opening.now.search) }
{
    match row_place(rows, opening.search) {
        Some(place) => Ok(Vec::from_slice(alloc, &rows[place].runs)?),
        None => runs(alloc, history, opening.search),
    }
}

/// Its reruns.
pub(crate) fn reruns_by(
    alloc: Global,
    history: &[Entry],
    rows: &[Row],
    opening: &Opening,
) -> Result<Vec<Run>, Memory>
    requires opened { Contains (openings history.now) opening.now }
    requires rows { AreRows history.now rows.now }
    ensures { IfOk result (λ found. found.items ≡ reruns history.now opening.now.search) }
{
    match row_place(rows, opening.search) {
        Some(place) => Ok(Vec::from_slice(alloc, &rows[place].reruns)?),
        None => reruns(alloc, history, opening.search),
    }
}

/// Its plan, where it is searching.
pub(crate) fn plan_by(
    alloc: Global,
    history: &[Entry],
    rows: &[Row],
    opening: &Opening,
) -> Result<Vec<u16>, Memory>
    requires legal { IsLegal history.now }
    requires opened { Contains (openings history.now) opening.now }
    requires rows { AreRows history.now rows.now }
    requires searching { standing history.now opening.now ≡ Searching }
    ensures { IfOk result (λ found. found.items ≡ open_plan (setup_of opening.now)
        (runs history.now opening.now.search) (skipped history.now opening.now.search) opening.now.width) }
{
    match row_place(rows, opening.search) {
        Some(place) => Ok(Vec::from_slice(alloc, &rows[place].plan)?),
        None => plan(alloc, history, opening),
    }
}

/// The positions of the leases of a stage whose deadlines lie later than a moment.
fn positions_at(
    alloc: Global,
    leases: &[LeasedRun],
    stage: Stage,
    moment: Moment,
) -> Result<Vec<u16>, Memory>
    ensures { IfOk result (λ found. found.items ≡ map (λ l. l.position)
        (filter (λ l. same_stage l.stage stage && nat_lt (moment_ms moment) l.deadline) leases.now)) }
{
    let open = leases
        .iter()
        .filter(|lease| lease.is_at(stage) && moment.ms() < lease.deadline);
    Ok(open.map(|lease| lease.position).collect(alloc)?)
}

/// The positions of its open leases at a stage, by the numbers of the runs.
pub(crate) fn open_positions_by(
    alloc: Global,
    history: &[Entry],
    rows: &[Row],
    search: u32,
    stage: Stage,
    moment: Moment,
) -> Result<Vec<u16>, Memory>
    requires { AreRows history.now rows.now }
    ensures { IfOk result (λ found. found.items ≡ outstanding_positions history.now search stage (moment_ms moment)) }
{
    match row_place(rows, search) {
        Some(place) => positions_at(alloc, &rows[place].unreported, stage, moment),
        None => outstanding_positions(alloc, history, search, stage, moment),
    }
}

/// The place of its last lease, or 0.
pub(crate) fn last_lease_by(history: &[Entry], rows: &[Row], search: u32) -> usize
    requires { AreRows history.now rows.now }
    ensures { result ≡ last_lease history.now search }
{
    match row_place(rows, search) {
        Some(place) => rows[place].last_lease,
        None => last_lease(history, search),
    }
}
