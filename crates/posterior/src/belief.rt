//! The belief of a search.

ghost use Rattle.std.specs.Prelude.{◌≡◌, ◌↔◌, ◌⊎◌, ◌+◌, ◌-◌, ◌*◌, ◌^◌, ◌<◌, ◌≤◌, ◌++◌, ◌∷◌, [], ℕ, List, All, length, sum, IfOk};
ghost use Rattle.std.specs.Bool.{OnTrue, OnFalse};
ghost use Rattle.flake_rate.specs.Miss.{FitsRate};
ghost use Rattle.flake_rate.specs.Bar.{bar_numerator, bar_denominator};
ghost use Rattle.weight_exact.specs.Factors.{factors_of};
ghost use Rattle.weight_exact.specs.Weights.{setup, hypotheses};
ghost use Rattle.weight_exact.specs.Limits.{ArePriors};
ghost use Rattle.weight_exact.specs.Share.{reached, share, basis_points as basis_points_of};
ghost use Rattle.weight_exact.specs.Load.{load as load_of};
ghost use Rattle.weight_exact.specs.Budget.{run_budget};
ghost use Rattle.weight_exact.specs.Steps.{CanCount};
ghost use Rattle.weight_exact.specs.declared.run.Run.{Run};
ghost use Rattle.posterior.specs.Counted.{AreCleared};
ghost use Rattle.posterior.specs.Kept.{at};
ghost use Rattle.posterior.specs.StandsFor.{StandsFor};

use crate::middle::at_bar;
use crate::tallies::Tallies;
use crate::weigh::{weigh, weigh_uncounted};
use flake_rate::{Bar, Miss, Rate};
use std::alloc::{AllocError, Global};
use std::marker::{Brand, Model};
use std::sync::ledger::{Blank, Ledger};
use weight_exact::{
    BASIS_POINTS, Factors, MAX_SUSPECTS, Memory, Powers, Steps, Sums, Verdict, budget,
};

/// The greatest weight that fits 64 bits in basis points.
const SMALL_WHOLE: u128 = u64::MAX as u128 / BASIS_POINTS;

/// What [`Belief::note`] made of a run.
#[derive(Clone, Copy)]
pub enum Noted {
    /// The belief stands for its runs with this one at their end.
    Counted,
    /// With the run the load would pass the budget. Nothing changed.
    Over,
}

/// What a search believes: the weights of its hypotheses after the runs that it was told, by Bayes' rule, in exact
/// whole numbers. Hypotheses 1 to n are the suspects, and n + 1 is "no culprit, only a flake".
#[derive(Drop)]
pub struct Belief {
    priors: Vec<u32>,
    powers: Powers,
    factors: Factors,
    bar: Bar,
    budget: u32,
    tallies: Tallies,
    sums: Sums,
    reached: Option<u16>,
}

impl Model for Belief {
    ghost use Rattle.posterior.specs.Kept.{Kept};

    ghost Value = { Kept };

    ghost use Rattle.posterior.specs.BeliefInside.{kept_of, IsBelief};

    ghost view = { kept_of };

    ghost invariant = { IsBelief };
}

impl Belief {
    /// The belief before any run, of suspects with these prior weights, the calm weight of "no culprit", the flake rate
    /// and the miss rate of the test, and the bar.
    ///
    /// All room is taken here, and none later.
    ///
    /// # Errors
    ///
    /// [`Memory`], where the room can't be had.
    pub fn start(
        alloc: Global,
        weights: &[u32],
        calm: u32,
        rate: Rate,
        miss: Miss,
        bar: Bar,
    ) -> Result<Belief, Memory>
        requires priors { ArePriors weights.now calm }
        requires told { FitsRate miss rate }
        ensures setup { IfOk result (λ b. b.setup
            ≡ setup weights.now calm (factors_of rate miss) (bar_numerator bar) (bar_denominator bar)) }
        ensures empty { IfOk result (λ b. StandsFor b []) }
    {
        let priors = priors_of(alloc, weights, calm)?;
        let budget = budget(prior_total(&priors), rate, miss);
        let powers = Powers::of(alloc, rate, miss, budget)?;
        let tallies = Tallies::none(alloc, weights.len())?;
        let mut sums = Sums::room(alloc, weights.len())?;
        let reached = weigh_uncounted(&priors, bar, &powers, &tallies, &mut sums);
        Ok(Belief {
            priors,
            factors: Factors::of(rate, miss),
            bar,
            powers,
            budget,
            tallies,
            sums,
            reached,
        })
    }

    /// Forgets all runs. It takes no memory.
    pub fn clear(&mut self)
        ensures setup { self.new.setup ≡ self.old.setup }
        ensures empty { StandsFor self.new [] }
    {
        self.tallies.clear();
        self.reached = weigh_uncounted(
            &self.priors,
            self.bar,
            &self.powers,
            &self.tallies,
            &mut self.sums,
        );
    }

    /// Takes in a run at a position from 1 to n. It takes no memory. A run at or below the floor counts and changes
    /// nothing, at no step.
    pub fn note<L: Ledger>(
        &mut self,
        position: u16,
        verdict: Verdict,
        steps: &mut Steps<L>,
    ) -> Noted
        requires first { 1 ≤ position }
        requires last { position < hypotheses self.old.setup }
        ensures over { (runs : List Run) → StandsFor self.old runs → ((result ≡ Noted.Over) ↔ (run_budget self.old.setup
            < load_of self.old.setup.factors (runs ++ record { position = position; verdict = verdict } ∷ []))) }
        ensures unchanged { result ≡ Noted.Over → self.new ≡ self.old }
        ensures counted { (runs : List Run) → StandsFor self.old runs → result ≡ Noted.Counted
            → StandsFor self.new (runs ++ record { position = position; verdict = verdict } ∷ []) }
        ensures settled { position ≤ self.old.floor → self.new ≡ self.old }
        ensures settled_counts { position ≤ self.old.floor → result ≡ Noted.Counted }
        ensures setup { self.new.setup ≡ self.old.setup }
        ensures cost { steps.new ≤ steps.old + 2 * hypotheses self.old.setup }
        ensures rises { steps.old ≤ steps.new }
        ensures free { position ≤ self.old.floor → steps.new ≡ steps.old }
    {
        if position <= self.tallies.floor {
            Noted::Counted
        } else if self.clears(verdict) {
            self.clear_suspects(position, steps);
            Noted::Counted
        } else if self.load() == self.budget {
            Noted::Over
        } else {
            self.count(position, verdict, steps);
            Noted::Counted
        }
    }

    /// Takes in a run as [`note`](Belief::note) does, for a caller that counts no steps.
    pub fn note_uncounted(&mut self, position: u16, verdict: Verdict) -> Noted
        requires first { 1 ≤ position }
        requires last { position < hypotheses self.old.setup }
        ensures over { (runs : List Run) → StandsFor self.old runs → ((result ≡ Noted.Over) ↔ (run_budget self.old.setup
            < load_of self.old.setup.factors (runs ++ record { position = position; verdict = verdict } ∷ []))) }
        ensures unchanged { result ≡ Noted.Over → self.new ≡ self.old }
        ensures counted { (runs : List Run) → StandsFor self.old runs → result ≡ Noted.Counted
            → StandsFor self.new (runs ++ record { position = position; verdict = verdict } ∷ []) }
        ensures settled { position ≤ self.old.floor → self.new ≡ self.old }
        ensures settled_counts { position ≤ self.old.floor → result ≡ Noted.Counted }
        ensures setup { self.new.setup ≡ self.old.setup }
    {
        self.note_on::<Brand>(position, verdict, Blank::new(1))
    }

    /// The same on a counter of its own, that nobody reads.
    fn note_on<L: Ledger>(&mut self, position: u16, verdict: Verdict, blank: Blank) -> Noted
        requires blank { CanCount blank L.name L.parts }
        requires first { 1 ≤ position }
        requires last { position < hypotheses self.old.setup }
        ensures over { (runs : List Run) → StandsFor self.old runs → ((result ≡ Noted.Over) ↔ (run_budget self.old.setup
            < load_of self.old.setup.factors (runs ++ record { position = position; verdict = verdict } ∷ []))) }
        ensures unchanged { result ≡ Noted.Over → self.new ≡ self.old }
        ensures counted { (runs : List Run) → StandsFor self.old runs → result ≡ Noted.Counted
            → StandsFor self.new (runs ++ record { position = position; verdict = verdict } ∷ []) }
        ensures settled { position ≤ self.old.floor → self.new ≡ self.old }
        ensures settled_counts { position ≤ self.old.floor → result ≡ Noted.Counted }
        ensures setup { self.new.setup ≡ self.old.setup }
    {
        self.note(position, verdict, &mut Steps::<L>::new(blank))
    }

    /// Whether a run with this verdict clears suspects: a pass does, where a broken test never passes.
    fn clears(&self, verdict: Verdict) -> bool
        ensures clears { OnTrue result ((verdict ≡ Verdict.Pass) × (self.now.setup.factors.pass_in ≡ 0)) }
        ensures leaves { OnFalse result ((1 ≤ self.now.setup.factors.pass_in) ⊎ (verdict ≡ Verdict.Fail)) }
    {
        match verdict {
            Verdict::Pass => self.factors.pass_in == 0,
            Verdict::Fail => false,
        }
    }

    /// Takes in a pass above the floor where a broken test never passes: it clears the suspects up to its position.
    fn clear_suspects<L: Ledger>(&mut self, position: u16, steps: &mut Steps<L>)
        requires never { self.old.setup.factors.pass_in ≡ 0 }
        requires above { self.old.floor < position }
        requires last { position < hypotheses self.old.setup }
        ensures counted { (runs : List Run) → StandsFor self.old runs
            → StandsFor self.new (runs ++ record { position = position; verdict = Verdict.Pass } ∷ []) }
        ensures setup { self.new.setup ≡ self.old.setup }
        ensures cost { steps.new ≤ steps.old + 2 * hypotheses self.old.setup }
        ensures rises { steps.old ≤ steps.new }
    {
        if self.keeps_factors(position) {
            self.strike(position, steps);
        } else {
            self.drop_fails(position, steps);
        }
    }

    /// Whether a pass at a position leaves the weights above it as they are: where no fail is counted up to there, and
    /// where a fail has the number 1 with the culprit out.
    fn keeps_factors(&self, position: u16) -> bool
        requires above { self.now.floor ≤ position }
        requires last { position < hypotheses self.now.setup }
        ensures { OnTrue result ((self.now.setup.factors.fail_out ≡ 1) ⊎ AreCleared position self.now.fails) }
    {
        self.factors.fail_out == 1 || self.tallies.has_no_fail_to(position)
    }

    /// Takes in a pass that clears suspects and leaves the weights above it as they are: what was cleared is taken away
    /// from the sums there.
    fn strike<L: Ledger>(&mut self, position: u16, steps: &mut Steps<L>)
        requires never { self.old.setup.factors.pass_in ≡ 0 }
        requires above { self.old.floor < position }
        requires last { position < hypotheses self.old.setup }
        requires kept { (self.old.setup.factors.fail_out ≡ 1) ⊎ AreCleared position self.old.fails }
        ensures counted { (runs : List Run) → StandsFor self.old runs
            → StandsFor self.new (runs ++ record { position = position; verdict = Verdict.Pass } ∷ []) }
        ensures setup { self.new.setup ≡ self.old.setup }
        ensures cost { steps.new ≤ steps.old + 2 * hypotheses self.old.setup }
        ensures rises { steps.old ≤ steps.new }
    {
        let floor = self.tallies.floor;
        self.tallies.raise_floor(position);
        self.sums
            .multiply(floor as usize, position as usize, 0, 1, steps);
        self.reached = at_bar(&self.sums, position, self.bar, steps);
    }

    /// Takes in a pass that clears suspects together with the fails up to its position. Each weight above it holds the
    /// numbers of those fails, so the sums are made anew.
    fn drop_fails<L: Ledger>(&mut self, position: u16, steps: &mut Steps<L>)
        requires never { self.old.setup.factors.pass_in ≡ 0 }
        requires above { self.old.floor < position }
        requires last { position < hypotheses self.old.setup }
        ensures counted { (runs : List Run) → StandsFor self.old runs
            → StandsFor self.new (runs ++ record { position = position; verdict = Verdict.Pass } ∷ []) }
        ensures setup { self.new.setup ≡ self.old.setup }
        ensures cost { steps.new ≤ steps.old + 2 * hypotheses self.old.setup }
        ensures rises { steps.old ≤ steps.new }
    {
        self.tallies.raise_floor(position);
        self.reached = weigh(
            &self.priors,
            self.bar,
            &self.powers,
            &self.tallies,
            &mut self.sums,
            steps,
        );
    }

    /// Takes in a run above the floor that clears nobody, while the load is below the budget: it multiplies the
    /// weights.
    fn count<L: Ledger>(&mut self, position: u16, verdict: Verdict, steps: &mut Steps<L>)
        requires live { (1 ≤ self.old.setup.factors.pass_in) ⊎ (verdict ≡ Verdict.Fail) }
        requires above { self.old.floor < position }
        requires last { position < hypotheses self.old.setup }
        requires room { self.old.load < run_budget self.old.setup }
        ensures counted { (runs : List Run) → StandsFor self.old runs
            → StandsFor self.new (runs ++ record { position = position; verdict = verdict } ∷ []) }
        ensures setup { self.new.setup ≡ self.old.setup }
        ensures cost { steps.new ≤ steps.old + 2 * hypotheses self.old.setup }
        ensures rises { steps.old ≤ steps.new }
    {
        let floor = self.tallies.floor;
        let (inside, outside) = self.factors.of_verdict(verdict);
        self.tallies.count(position, verdict);
        self.sums
            .multiply(floor as usize, position as usize, inside, outside, steps);
        self.reached = at_bar(&self.sums, floor, self.bar, steps);
    }

    /// The budget, which bounds the load: the greatest number of runs that tell hypotheses apart which the exact
    /// numbers can hold.
    pub fn budget(&self) -> u32
        ensures { result ≡ run_budget self.now.setup }
    {
        self.budget
    }

    /// The cumulative weights of the hypotheses, up to one common factor.
    pub fn sums(&self) -> &Sums
        ensures { result.now ≡ self.now.sums }
    {
        &self.sums
    }

    /// The position up to which suspects are cleared: the last pass, where a broken test never passes, else 0.
    pub fn floor(&self) -> u16
        ensures { result ≡ self.now.floor }
    {
        self.tallies.floor
    }

    /// The load: how many of the runs still tell hypotheses apart, at most the budget.
    pub fn load(&self) -> u32
        ensures { result ≡ self.now.load }
    {
        self.tallies.failed + self.tallies.passed
    }

    /// The hypothesis whose posterior probability is at least the bar: at most one can be.
    pub fn reached(&self) -> Option<u16>
        ensures { (runs : List Run) → StandsFor self.now runs → result ≡ reached self.now.setup runs }
    {
        self.reached
    }

    /// The posterior probability of a hypothesis, from 1 to n + 1, in basis points, rounded down.
    pub fn basis_points(&self, i: u16) -> u32
        requires first { 1 ≤ i }
        requires last { i ≤ hypotheses self.now.setup }
        ensures { (runs : List Run) → StandsFor self.now runs → result ≡ basis_points_of self.now.setup runs i }
    {
        let weight = weight_at(&self.sums, i as usize);
        share_of(weight, self.sums.total())
    }
}

/// The weights of the suspects, and then the calm weight.
fn priors_of(alloc: Global, weights: &[u32], calm: u32) -> Result<Vec<u32>, AllocError>
    ensures { IfOk result (λ v. v.items ≡ weights.now ++ calm ∷ []) }
{
    let mut priors = Vec::from_slice(alloc, weights)?;
    priors.push(calm)?;
    Ok(priors)
}

/// The sum of the prior weights.
fn prior_total(priors: &[u32]) -> u64
    requires { length priors.now ≤ MAX_SUSPECTS + 1 }
    ensures { result ≡ sum priors.now }
{
    priors.iter().map(|weight| u64::from(*weight)).sum()
}

/// A weight's share of a whole, in basis points, rounded down. A small whole is divided by in 64 bits, which takes less
/// time than in 128.
fn share_of(weight: u128, whole: u128) -> u32
    requires some { 1 ≤ whole }
    requires part { weight ≤ whole }
    requires room { whole * BASIS_POINTS < 2 ^ 128 }
    ensures { result ≡ share weight whole }
{
    if whole <= SMALL_WHOLE {
        (weight as u64 * BASIS_POINTS as u64 / whole as u64) as u32
    } else {
        (weight * BASIS_POINTS / whole) as u32
    }
}

/// The weight of hypothesis `i`, as the difference of two sums.
fn weight_at(sums: &Sums, i: usize) -> u128
    requires first { 1 ≤ i }
    requires last { i ≤ length sums.now }
    requires rises { at sums.now (i - 1) ≤ at sums.now i }
    ensures first { i ≡ 1 → result ≡ at sums.now 1 }
    ensures next { 2 ≤ i → result ≡ at sums.now i - at sums.now (i - 1) }
{
    weight_at_counted::<Brand>(sums, i, Blank::new(1))
}

/// The same, on a counter of its own that nobody reads.
fn weight_at_counted<L: Ledger>(sums: &Sums, i: usize, blank: Blank) -> u128
    requires blank { CanCount blank L.name L.parts }
    requires first { 1 ≤ i }
    requires last { i ≤ length sums.now }
    requires rises { at sums.now (i - 1) ≤ at sums.now i }
    ensures first { i ≡ 1 → result ≡ at sums.now 1 }
    ensures next { 2 ≤ i → result ≡ at sums.now i - at sums.now (i - 1) }
{
    let mut steps = Steps::<L>::new(blank);
    let upto = sums.at(i, &mut steps);
    if i == 1 {
        upto
    } else {
        upto - sums.at(i - 1, &mut steps)
    }
}
