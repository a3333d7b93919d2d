//! The state of a search.

ghost use Rattle.std.specs.Prelude.{ℕ, ◌≡◌, ◌⊎◌, ◌+◌, ◌<◌, ◌≤◌, [], true, false, length, IfOk};
ghost use Rattle.std.specs.Option.{option_map};
ghost use Rattle.flake_rate.specs.Miss.{FitsRate};
ghost use Rattle.threshold_pick.specs.Open.{open_pick};
ghost use Rattle.weight_exact.specs.Weights.{hypotheses};
ghost use Rattle.posterior.specs.StandsFor.{StandsFor};
ghost use Rattle.farm_entry.specs.Setup.{budget_of_search, setup_of};
ghost use Rattle.farm_entry.specs.declared.limits.TheConstants.{MAX_ENTRIES};
ghost use Rattle.farm_entry.specs.declared.standing.Standing.TheVariants.{Searching, Verifying};
ghost use Rattle.farm_laws.specs.Openings.{OpenWithin};
ghost use Rattle.search_state.specs.SearchView.{IsPlaced, IsPlacedAt, adds_load, after_counted, after_report, after_skip, cancelled, due_in, fate_in, gone_over, has_room, opened, passes_budget, position_searching, position_verifying, shares_in, skip_fate_in, skipped_at, standing_in, untestable_in};

use crate::decided::{begun, next_standing, standing_with_skip};
use common_types::ToldList;
use farm_entry::{DueRun, Fate, Opening, Positions, Shares, SkipFate, Standing};
use farm_rules::{Verify, due_verify, is_left};
use farm_types::{Memory, Stage};
use flake_rate::Bar;
use posterior::Belief;
use std::alloc::Global;
use std::marker::Model;
use std::snapshot::Snapshot;
use threshold_pick::{Skips, open_pick_uncounted};
use weight_exact::{Factors, MAX_WIDTH, Run};

/// A search of a farm, kept from report to report.
pub struct SearchState {
    opening: Snapshot<Opening>,
    belief: Belief,
    search: u32,
    width: u8,
    asked: u8,
    suspects: u16,
    bar: Bar,
    may_miss: bool,
    standing: Standing,
    /// The first position of the plan, while the search is searching.
    first: Option<u16>,
    verification: Verify,
    skips: Skips,
    is_over: bool,
    is_cancelled: bool,
    runs: ToldList<Run>,
    reruns: ToldList<Run>,
    counted: u32,
    verified: u32,
}

// Written out, so that the crates above cite its proof, and prove none of its fields' drops again.
impl Drop for SearchState {
    fn drop(self) {
        let SearchState {
            opening: _,
            belief: _,
            search: _,
            width: _,
            asked: _,
            suspects: _,
            bar: _,
            may_miss: _,
            standing: _,
            first: _,
            verification: _,
            skips: _,
            is_over: _,
            is_cancelled: _,
            runs: _,
            reruns: _,
            counted: _,
            verified: _,
        } = self;
    }
}

impl Model for SearchState {
    ghost use Rattle.search_state.specs.SearchView.{SearchView};

    ghost Value = { SearchView };

    ghost use Rattle.search_state.specs.SearchInside.{IsSearch, search_view};

    ghost view = { search_view };

    ghost invariant = { IsSearch };
}

impl SearchState {
    /// The state of a search that was just opened.
    ///
    /// All room is taken here, and none later.
    ///
    /// # Errors
    ///
    /// [`Memory`].
    pub fn start(alloc: Global, opening: &Opening) -> Result<SearchState, Memory>
        requires { OpenWithin opening.now }
        ensures { IfOk result (λ search. search ≡ opened opening.now) }
    {
        let belief = first_belief(alloc, opening)?;
        let suspects = opening.range.len() as u16;
        let skips = Skips::new();
        let begun = begun(
            &belief,
            &skips,
            opening.bar,
            suspects,
            opening.width,
            opening.reruns,
        );
        Ok(SearchState {
            opening: Snapshot::of(opening),
            belief,
            search: opening.search,
            width: opening.width,
            asked: opening.reruns,
            suspects,
            bar: opening.bar,
            may_miss: 0 < Factors::of(opening.rate, opening.miss).pass_in,
            standing: begun.standing,
            first: begun.first,
            verification: begun.verification,
            skips,
            is_over: false,
            is_cancelled: false,
            runs: ToldList::new(),
            reruns: ToldList::new(),
            counted: 0,
            verified: 0,
        })
    }

    /// Where the search stands.
    pub fn standing(&self) -> Standing
        ensures { result ≡ standing_in self.now }
    {
        self.standing
    }

    /// How many runs counted.
    pub fn counted(&self) -> u32
        ensures { result ≡ length self.now.runs }
    {
        self.counted
    }

    /// How many reruns counted.
    pub fn verified(&self) -> u32
        ensures { result ≡ length self.now.reruns }
    {
        self.verified
    }

    /// The budget of the search, which bounds its load.
    pub fn budget(&self) -> u32
        ensures { result ≡ budget_of_search self.now.opening }
    {
        self.belief.budget()
    }

    /// The shares of all hypotheses in basis points, that of "no culprit" last.
    ///
    /// # Errors
    ///
    /// [`Memory`].
    pub fn shares(&self, alloc: Global) -> Result<Shares, Memory>
        ensures { IfOk result (λ shares. shares ≡ shares_in self.now) }
    {
        let mut shares = Vec::with_capacity(alloc, self.suspects as usize + 1)?;
        for before in 0..self.suspects + 1 {
            shares.push(self.belief.basis_points(before + 1))?;
        }
        Ok(Shares::of(shares))
    }

    /// The positions that were skipped, rising, each once. Position 0 is the base.
    ///
    /// # Errors
    ///
    /// [`Memory`].
    pub fn untestable(&self, alloc: Global) -> Result<Positions, Memory>
        ensures { IfOk result (λ positions. positions ≡ untestable_in self.now) }
    {
        Ok(Positions::of(self.skips.positions(alloc, self.suspects)?))
    }

    // What is due.

    /// The run that is due, while the runs at these positions are out, of the stage at which the search stands. A
    /// search that has ended has none.
    pub fn due(&self, outstanding: &[u16]) -> Option<DueRun>
        ensures { result ≡ due_in self.now outstanding.now }
    {
        match self.standing {
            Standing::Searching => {
                let position = self.position_searching(outstanding);
                due_at(self.search, Stage::Search, position)
            }
            Standing::Verifying(culprit) => {
                let position = self.position_verifying(culprit, outstanding);
                due_at(self.search, Stage::Verify, position)
            }
            _ => None,
        }
    }

    /// Where a search that is searching is to run next. Its plan is made pick by pick, up to the first that no
    /// outstanding run stands for. Where no position is open it has none.
    fn position_searching(&self, outstanding: &[u16]) -> Option<u16>
        requires { standing_in self.now ≡ Searching }
        ensures { result ≡ position_searching self.now outstanding.now }
    {
        if usize::from(self.width) <= outstanding.len() {
            return None;
        }
        let mut plan = [0; MAX_WIDTH as usize];
        for index in 0..self.width {
            let Some(position) = self.pick(index + 1) else {
                return None;
            };
            let place = usize::from(index);
            if is_left(position, &plan[..place], outstanding) {
                return Some(position);
            }
            plan[place] = position;
        }
        None
    }

    /// Where a search that verifies a suspect is to run next.
    fn position_verifying(&self, culprit: u16, outstanding: &[u16]) -> Option<u16>
        requires { standing_in self.now ≡ Verifying culprit }
        ensures { result ≡ position_verifying self.now culprit outstanding.now }
    {
        let (at_culprit, at_parent) = self.verification.counts();
        due_verify(culprit, at_culprit, at_parent, outstanding, self.asked)
    }

    /// The j-th position of the plan of a search that is searching, where one is open. The first is kept since the last
    /// run that counted, or the last skip: mostly it is the one that is asked for.
    fn pick(&self, j: u8) -> Option<u16>
        requires searching { standing_in self.now ≡ Searching }
        requires first { 1 ≤ j }
        requires last { j ≤ self.now.opening.width }
        ensures { result
            ≡ open_pick (setup_of self.now.opening) self.now.runs self.now.skipped self.now.opening.width j }
    {
        if j == 1 {
            return self.first;
        }
        open_pick_uncounted(
            self.belief.sums(),
            self.belief.floor(),
            &self.skips,
            j,
            self.width,
        )
    }

    // What a report does.

    /// The fate of the first report of one of the search's runs, that was handed out at a stage.
    pub fn fate(&self, stage: Stage, run: Run) -> Fate
        requires { IsPlaced self.now stage run }
        ensures { result ≡ fate_in self.now stage run }
    {
        match (self.standing, stage) {
            (Standing::Searching, Stage::Search) => {
                if self.passes_budget(run) {
                    Fate::Over
                } else {
                    Fate::Counted
                }
            }
            (Standing::Verifying(culprit), Stage::Verify) => {
                if self.has_room(culprit, run) {
                    Fate::Counted
                } else {
                    Fate::Late
                }
            }
            _ => Fate::Late,
        }
    }

    /// Whether one run more takes the search past its budget.
    fn passes_budget(&self, run: Run) -> bool
        ensures { result ≡ passes_budget self.now run }
    {
        self.adds_load(run) && self.belief.load() == self.belief.budget()
    }

    /// Whether a run would add to the load.
    fn adds_load(&self, run: Run) -> bool
        ensures { result ≡ adds_load self.now run }
    {
        self.may_miss || (run.verdict.is_fail() && self.belief.floor() < run.position)
    }

    /// Whether the side of a rerun has fewer reruns than were asked for.
    fn has_room(&self, culprit: u16, run: Run) -> bool
        requires verifying { standing_in self.now ≡ Verifying culprit }
        requires side { (run.position ≡ culprit) ⊎ (run.position + 1 ≡ culprit) }
        ensures { result ≡ has_room self.now run }
    {
        let (at_culprit, at_parent) = self.verification.counts();
        let counted = if run.position == culprit {
            at_culprit
        } else {
            at_parent
        };
        counted < self.asked
    }

    /// Takes in the first report of one of its runs, that was handed out at a stage, by its fate.
    pub fn report(&mut self, stage: Stage, run: Run, fate: Fate)
        requires ruled { fate ≡ fate_in self.old stage run }
        requires placed { IsPlaced self.old stage run }
        requires few { length self.old.runs + length self.old.reruns < MAX_ENTRIES }
        ensures { self.new ≡ after_report self.old stage run fate }
    {
        match fate {
            Fate::Counted => match stage {
                Stage::Search => self.count_run(run),
                Stage::Verify => self.count_rerun(run),
            },
            Fate::Late => {}
            Fate::Over => self.go_over(),
        }
    }

    /// Counts a run of a search that is searching.
    fn count_run(&mut self, run: Run)
        requires searching { standing_in self.old ≡ Searching }
        requires within { passes_budget self.old run ≡ false }
        requires first { 1 ≤ run.position }
        requires last { run.position < hypotheses (setup_of self.old.opening) }
        requires few { length self.old.runs < MAX_ENTRIES }
        ensures { self.new ≡ after_counted self.old Stage.Search run }
    {
        let _noted = self.belief.note_uncounted(run.position, run.verdict);
        self.runs.tell(&run);
        self.counted += 1;
        let begun = begun(
            &self.belief,
            &self.skips,
            self.bar,
            self.suspects,
            self.width,
            self.asked,
        );
        self.standing = begun.standing;
        self.first = begun.first;
        self.verification = begun.verification;
    }

    /// Counts a rerun of a search that verifies a suspect.
    fn count_rerun(&mut self, run: Run)
        requires verifying { (culprit : ℕ) × (standing_in self.old ≡ Verifying culprit)
            × ((run.position ≡ culprit) ⊎ (run.position + 1 ≡ culprit)) }
        requires room { has_room self.old run ≡ true }
        requires few { length self.old.reruns < MAX_ENTRIES }
        ensures { self.new ≡ after_counted self.old Stage.Verify run }
    {
        let outcome = self.verification.note(run.position, run.verdict);
        self.reruns.tell(&run);
        self.verified += 1;
        self.standing = next_standing(self.standing, outcome);
    }

    /// A run took a search that is searching past its budget.
    fn go_over(&mut self)
        requires { standing_in self.old ≡ Searching }
        ensures { self.new ≡ gone_over self.old }
    {
        self.is_over = true;
        self.standing = Standing::Inconclusive;
    }

    // What a report does that says that a tree can't be tested.

    /// The fate of the first report of one of the search's runs, that was handed out at a stage, where it says that the
    /// run's tree can't be tested.
    pub fn skip_fate(&self, stage: Stage) -> SkipFate
        ensures { result ≡ skip_fate_in self.now stage }
    {
        match (self.standing, stage) {
            (Standing::Searching, Stage::Search) | (Standing::Verifying(_), Stage::Verify) => {
                SkipFate::Taken
            }
            _ => SkipFate::Late,
        }
    }

    /// Takes in the first report, as a skip, of one of its runs at a position, that was handed out at a stage, by its
    /// fate.
    pub fn skip(&mut self, stage: Stage, position: u16, fate: SkipFate)
        requires ruled { fate ≡ skip_fate_in self.old stage }
        requires placed { IsPlacedAt self.old stage position }
        ensures { self.new ≡ after_skip self.old position fate }
    {
        match fate {
            SkipFate::Taken => match stage {
                Stage::Search => self.skip_searching(position),
                Stage::Verify => self.skip_verifying(position),
            },
            SkipFate::Late => {}
        }
    }

    /// Closes a position of a search that is searching.
    fn skip_searching(&mut self, position: u16)
        requires searching { standing_in self.old ≡ Searching }
        requires last { position < hypotheses (setup_of self.old.opening) }
        ensures { self.new ≡ skipped_at self.old position }
    {
        self.skips.skip(position);
        let begun = begun(
            &self.belief,
            &self.skips,
            self.bar,
            self.suspects,
            self.width,
            self.asked,
        );
        self.standing = begun.standing;
        self.first = begun.first;
        self.verification = begun.verification;
    }

    /// Closes a position of a search that verifies a suspect.
    fn skip_verifying(&mut self, position: u16)
        requires { (culprit : ℕ) × (standing_in self.old ≡ Verifying culprit)
            × ((position ≡ culprit) ⊎ (position + 1 ≡ culprit)) }
        ensures { self.new ≡ skipped_at self.old position }
    {
        self.skips.skip(position);
        self.standing = standing_with_skip(
            self.standing,
            &self.verification,
            self.asked,
            &self.skips,
        );
    }

    // The end, and from the start again.

    /// Cancels the search.
    pub fn cancel(&mut self)
        ensures { self.new ≡ cancelled self.old }
    {
        self.is_cancelled = true;
        self.standing = Standing::Cancelled;
    }

    /// Puts the search back to where it was opened. It takes no memory. Whoever takes the last report of a search
    /// away, with a verdict or as a skip, or its cancellation, does so, and then gives it the reports that are left.
    pub fn clear(&mut self)
        ensures { self.new ≡ opened self.old.opening }
    {
        self.belief.clear();
        self.runs = ToldList::new();
        self.reruns = ToldList::new();
        self.skips.clear();
        self.counted = 0;
        self.verified = 0;
        self.is_over = false;
        self.is_cancelled = false;
        let begun = begun(
            &self.belief,
            &self.skips,
            self.bar,
            self.suspects,
            self.width,
            self.asked,
        );
        self.standing = begun.standing;
        self.first = begun.first;
        self.verification = begun.verification;
    }
}

/// The run of a search that is due at a position, where there is one.
fn due_at(search: u32, stage: Stage, position: Option<u16>) -> Option<DueRun>
    ensures { result ≡ option_map (λ k. record { search = search; stage = stage; position = k }) position }
{
    let position = position?;
    Some(DueRun {
        search,
        stage,
        position,
    })
}

/// What a search believes before any run.
fn first_belief(alloc: Global, opening: &Opening) -> Result<Belief, Memory>
    requires { FitsRate opening.now.miss opening.now.rate }
    ensures setup { IfOk result (λ belief. belief.setup ≡ setup_of opening.now) }
    ensures none { IfOk result (λ belief. StandsFor belief []) }
{
    let weights = opening.weights(alloc)?;
    let calm = opening.range.calm();
    match Belief::start(
        alloc,
        &weights,
        calm,
        opening.rate,
        opening.miss,
        opening.bar,
    ) {
        Ok(belief) => Ok(belief),
        Err(_) => Err(Memory),
    }
}
