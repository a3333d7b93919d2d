//! Where a search stands in a history.

ghost use Rattle.std.specs.Prelude.{◌≡◌, ◌≤◌, [], count_by, All, Contains, IfOk};
ghost use Rattle.flake_rate.specs.Miss.{FitsRate};
ghost use Rattle.farm_rules.specs.Reruns.{enough, is_against, outcome, vindicated};
ghost use Rattle.weight_exact.specs.Counts.{is_fail_at, is_pass_at};
ghost use Rattle.weight_exact.specs.Share.{reached};
ghost use Rattle.weight_exact.specs.Weights.{AreInRange};
ghost use Rattle.weight_exact.specs.declared.limits.TheConstants.{MAX_SUSPECTS};
ghost use Rattle.threshold_pick.specs.HiddenBlocks.{is_hidden};
ghost use Rattle.posterior.specs.StandsFor.{StandsFor};
ghost use Rattle.farm_entry.specs.History.{openings, runs, skipped};
ghost use Rattle.farm_entry.specs.Legal.{IsLegal};
ghost use Rattle.farm_entry.specs.Setup.{setup_of};
ghost use Rattle.farm_entry.specs.Standing.{lacks, standing, standing_of_hidden, standing_of_outcome, standing_of_reached};
ghost use Rattle.farm_laws.specs.Loads.{LoadsFit};
ghost use Rattle.plain_farm.specs.Believed.{IsBelieved};

use farm_entry::{Entry, Opening, Standing};
use farm_types::Memory;
use plain_history::{reruns, runs, skipped, was_cancelled, went_over};
use posterior::Belief;
use std::alloc::Global;
use threshold_pick::{Skips, is_hidden};
use weight_exact::Run;

// What the runs say.

/// What a search believes before any run.
pub fn first_belief(alloc: Global, opening: &Opening) -> Result<Belief, Memory>
    requires told { FitsRate opening.now.miss opening.now.rate }
    ensures setup { IfOk result (λ belief. belief.setup ≡ setup_of opening.now) }
    ensures none { IfOk result (λ belief. StandsFor belief []) }
{
    let weights = opening.weights(alloc)?;
    let calm = opening.range.calm();
    match Belief::start(
        alloc,
        &weights,
        calm,
        opening.rate,
        opening.miss,
        opening.bar,
    ) {
        Ok(belief) => Ok(belief),
        Err(_) => Err(Memory),
    }
}

/// What a search believes after its runs.
pub fn belief(alloc: Global, history: &[Entry], opening: &Opening) -> Result<Belief, Memory>
    requires legal { IsLegal history.now }
    requires opened { Contains (openings history.now) opening.now }
    ensures setup { IfOk result (λ belief. belief.setup ≡ setup_of opening.now) }
    ensures runs { IfOk result (λ belief. StandsFor belief (runs history.now opening.now.search)) }
{
    let told = runs(alloc, history, opening.search)?;
    belief_after(alloc, history, opening, &told)
}

/// The same, by the list of its runs.
pub fn belief_after(
    alloc: Global,
    history: &[Entry],
    opening: &Opening,
    told: &[Run],
) -> Result<Belief, Memory>
    requires legal { IsLegal history.now }
    requires opened { Contains (openings history.now) opening.now }
    requires runs { told.now ≡ runs history.now opening.now.search }
    ensures setup { IfOk result (λ belief. belief.setup ≡ setup_of opening.now) }
    ensures runs { IfOk result (λ belief. StandsFor belief (runs history.now opening.now.search)) }
{
    let mut belief = first_belief(alloc, opening)?;
    tell(&mut belief, told);
    Ok(belief)
}

/// Tells a belief that was told none yet runs that it has room for, one by one.
fn tell(belief: &mut Belief, told: &[Run])
    requires none { StandsFor belief.old [] }
    requires in_range { AreInRange belief.old.setup told.now }
    requires fit { LoadsFit belief.old.setup told.now }
    ensures setup { belief.new.setup ≡ belief.old.setup }
    ensures told { StandsFor belief.new told.now }
{
    for run in told {
        let _noted = belief.note_uncounted(run.position, run.verdict);
    }
}

// What was skipped.

/// The positions of a search whose trees can't be tested, in the order in which that was said.
pub fn skips(alloc: Global, history: &[Entry], opening: &Opening) -> Result<Skips, Memory>
    requires legal { IsLegal history.now }
    requires opened { Contains (openings history.now) opening.now }
    ensures { IfOk result (λ skips. skips ≡ skipped history.now opening.now.search) }
{
    let positions = skipped(alloc, history, opening.search)?;
    Ok(skips_of(&positions))
}

/// The same, by the list of these positions.
pub(crate) fn skips_of(positions: &[u16]) -> Skips
    requires { All (λ p. p ≤ MAX_SUSPECTS) positions.now }
    ensures { result ≡ positions.now }
{
    let mut skips = Skips::new();
    for position in positions {
        skips.skip(*position);
    }
    skips
}

// What the reruns say.

/// Whether a run failed at a position.
fn is_fail_at(position: u16, run: Run) -> bool
    ensures { result ≡ is_fail_at position run }
{
    run.verdict.is_fail() && run.position == position
}

/// Whether a run passed at a position.
fn is_pass_at(position: u16, run: Run) -> bool
    ensures { result ≡ is_pass_at position run }
{
    !run.verdict.is_fail() && run.position == position
}

/// Whether a rerun speaks against the culprit: it passed with the culprit in its tree, or failed with it out.
fn is_against(culprit: u16, run: Run) -> bool
    ensures { result ≡ is_against culprit run }
{
    is_pass_at(culprit, run) || is_fail_at(culprit.saturating_sub(1), run)
}

/// Whether some rerun speaks against the culprit.
fn vindicated(culprit: u16, again: &[Run]) -> bool
    ensures { result ≡ vindicated culprit again.now }
{
    again.iter().any(|run| is_against(culprit, *run))
}

/// How many runs failed at a position.
fn fails_at(position: u16, again: &[Run]) -> usize
    ensures { result ≡ count_by (is_fail_at position) again.now }
{
    let fails = again.iter().filter(|run| is_fail_at(position, **run));
    fails.count()
}

/// How many runs passed at a position.
fn passes_at(position: u16, again: &[Run]) -> usize
    ensures { result ≡ count_by (is_pass_at position) again.now }
{
    let passes = again.iter().filter(|run| is_pass_at(position, **run));
    passes.count()
}

/// Whether each side has the asked number of reruns that speak for the culprit: fails at it, passes at its parent.
fn enough(culprit: u16, asked: u8, again: &[Run]) -> bool
    ensures { result ≡ enough culprit asked again.now }
{
    let fails = fails_at(culprit, again);
    let passes = passes_at(culprit.saturating_sub(1), again);
    asked as usize <= fails && asked as usize <= passes
}

/// Whether a side lacks reruns that can't be made any more, as its position was skipped: fails at the culprit, or
/// passes at its parent.
fn lacks(culprit: u16, asked: u8, skips: &Skips, again: &[Run]) -> bool
    requires { culprit ≤ MAX_SUSPECTS }
    ensures { result ≡ lacks culprit asked skips.now again.now }
{
    let asked = usize::from(asked);
    let parent = culprit.saturating_sub(1);
    (skips.is_skipped(culprit) && fails_at(culprit, again) < asked)
        || (skips.is_skipped(parent) && passes_at(parent, again) < asked)
}

/// Where a search stands that has named a suspect, by the reruns so far and the positions that were skipped.
fn standing_of_outcome(culprit: u16, asked: u8, skips: &Skips, again: &[Run]) -> Standing
    requires { culprit ≤ MAX_SUSPECTS }
    ensures { result ≡ standing_of_outcome culprit (lacks culprit asked skips.now again.now)
        (outcome culprit asked again.now) }
{
    if vindicated(culprit, again) {
        Standing::Vindicated(culprit)
    } else if enough(culprit, asked, again) {
        Standing::Confirmed(culprit)
    } else if lacks(culprit, asked, skips, again) {
        Standing::Inconclusive
    } else {
        Standing::Verifying(culprit)
    }
}

// Where the search stands.

/// Whether hypotheses that no run can tell apart any more are at the bar together.
fn hidden(history: &[Entry], opening: &Opening, belief: &Belief, skips: &Skips) -> bool
    requires { IsBelieved history.now opening.now belief.now }
    ensures { result ≡ is_hidden (setup_of opening.now) (runs history.now opening.now.search) skips.now }
{
    is_hidden(belief.sums(), opening.bar, skips)
}

/// Where a search stands in which no hypothesis is at the bar.
fn standing_of_hidden(hidden: bool) -> Standing
    ensures { result ≡ standing_of_hidden hidden }
{
    if hidden {
        Standing::Inconclusive
    } else {
        Standing::Searching
    }
}

/// What the hypothesis at the bar comes to: the last one says that there is no culprit, the others name a suspect.
/// Where none is, the search goes on while a run can tell hypotheses apart.
pub(crate) fn standing_of_reached(
    history: &[Entry],
    opening: &Opening,
    belief: &Belief,
    skips: &Skips,
    again: &[Run],
) -> Standing
    requires { IsBelieved history.now opening.now belief.now }
    ensures { result ≡ standing_of_reached opening.now (runs history.now opening.now.search) skips.now again.now
        (reached (setup_of opening.now) (runs history.now opening.now.search)) }
{
    match belief.reached() {
        None => standing_of_hidden(hidden(history, opening, belief, skips)),
        Some(hypothesis) => {
            if usize::from(hypothesis) == opening.range.len() + 1 {
                Standing::NoCulprit
            } else {
                standing_of_outcome(hypothesis, opening.reruns, skips, again)
            }
        }
    }
}

/// Where a search stands, by the first case that fits: it was cancelled, it went over its budget, or what its belief
/// says.
pub fn standing(alloc: Global, history: &[Entry], opening: &Opening) -> Result<Standing, Memory>
    requires legal { IsLegal history.now }
    requires opened { Contains (openings history.now) opening.now }
    ensures { IfOk result (λ found. found ≡ standing history.now opening.now) }
{
    if was_cancelled(history, opening.search) {
        return Ok(Standing::Cancelled);
    }
    if went_over(history, opening.search) {
        return Ok(Standing::Inconclusive);
    }
    let belief = belief(alloc, history, opening)?;
    let skips = skips(alloc, history, opening)?;
    let again = reruns(alloc, history, opening.search)?;
    Ok(standing_of_reached(history, opening, &belief, &skips, &again))
}
