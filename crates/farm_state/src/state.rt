//! The state of a farm.

ghost use Rattle.std.specs.Prelude.{◌≡◌, ◌<◌, ◌-◌, ◌++◌, ◌∷◌, [], None, Some, length, take, IfOk, OnOk, OnErr};
ghost use Rattle.std.specs.Option.{option_and_then, option_copied, option_map};
ghost use Rattle.farm_types.specs.Moment.{moment_ms};
ghost use Rattle.farm_entry.specs.Due.{due, outstanding_positions};
ghost use Rattle.farm_entry.specs.History.{cancelled_in, opening_in, opening_numbered, openings, report_in, skip_in, told_in};
ghost use Rattle.farm_entry.specs.Legal.{IsLegal};
ghost use Rattle.farm_laws.specs.Laws.{IsNotBefore};
ghost use Rattle.search_state.specs.SearchView.{due_in};
ghost use Rattle.search_state.specs.Seen.{seen};
ghost use Rattle.farm_state.specs.Telling.{IsEnd, IsEndOf};

use crate::telling::retell;
use farm_books::Books;
use farm_entry::{DueRun, Entry, Opening, ReportedRun, Settings, SkippedRun, Standing, What};
use farm_types::{Memory, Moment, Stage};
use search_books::OUT_MAX;
use search_state::SearchState;
use std::alloc::Global;
use std::marker::Model;

/// A farm as it is kept. Contracts see it as its history.
#[derive(Drop)]
pub struct FarmState {
    books: Books,
    searches: Vec<SearchState>,
}

impl Model for FarmState {
    ghost use Rattle.std.specs.Prelude.{List};
    ghost use Rattle.farm_entry.specs.declared.entry.Entry.{Entry};

    ghost Value = { List Entry };

    ghost view = { λ farm. farm.books };

    ghost use Rattle.farm_state.specs.StateInside.{IsFarmState};

    ghost invariant = { IsFarmState };
}

impl FarmState {
    /// A farm that was founded with these settings at this moment.
    ///
    /// # Errors
    ///
    /// [`Memory`].
    pub fn found(alloc: Global, settings: Settings, at: Moment) -> Result<FarmState, Memory>
        ensures { IfOk result (λ farm. farm ≡ record { at = at; what = What.Founded settings } ∷ []) }
    {
        Ok(FarmState {
            books: Books::found(alloc, settings, at)?,
            searches: Vec::new(alloc),
        })
    }

    /// The history with its books.
    pub fn books(&self) -> &Books
        ensures { result.now ≡ self.now }
    {
        &self.books
    }

    /// How many searches were opened.
    pub fn searches_count(&self) -> usize
        ensures { result ≡ length (openings self.now) }
    {
        self.searches.len()
    }

    /// The state of the search with a number, if it was opened.
    pub fn search(&self, number: u32) -> Option<&SearchState>
        ensures { option_copied result ≡ option_map (seen self.now) (opening_numbered self.now number) }
    {
        let count = self.searches.len();
        if number == 0 {
            return None;
        }
        if number as usize > count {
            return None;
        }
        Some(&self.searches[number as usize - 1])
    }

    /// The run that is due in the search with a number, at a moment that is not before the last entry; none, where no
    /// such search was opened.
    pub fn due(&self, number: u32, moment: Moment) -> Option<DueRun>
        requires { IsNotBefore self.now (moment_ms moment) }
        ensures { result ≡ option_and_then (λ o. due self.now o (moment_ms moment)) (opening_numbered self.now number) }
    {
        let Some(search) = self.search(number) else {
            return None;
        };
        match search.standing() {
            Standing::Searching => self.due_at(search, number, Stage::Search, moment),
            Standing::Verifying(_) => self.due_at(search, number, Stage::Verify, moment),
            _ => None,
        }
    }

    /// The run that is due in a search, by its open leases at a stage.
    fn due_at(
        &self,
        search: &SearchState,
        number: u32,
        stage: Stage,
        moment: Moment,
    ) -> Option<DueRun>
        requires before { IsNotBefore self.now (moment_ms moment) }
        requires opened { option_map (seen self.now) (opening_numbered self.now number) ≡ Some search.now }
        ensures { result ≡ due_in search.now (outstanding_positions self.now number stage (moment_ms moment)) }
    {
        let mut out = [0; OUT_MAX];
        let count = self
            .books
            .outstanding_positions(number, stage, moment, &mut out);
        search.due(&out[..count])
    }

    // One entry more.

    /// Adds an entry that may come next.
    ///
    /// # Errors
    ///
    /// [`Memory`]. The history stays.
    pub fn push(&mut self, alloc: Global, entry: Entry) -> Result<(), Memory>
        requires { IsLegal (self.old ++ entry ∷ []) }
        ensures pushed { OnOk result (self.new ≡ self.old ++ entry ∷ []) }
        ensures kept { OnErr result (self.new ≡ self.old) }
    {
        if entry.what.is_opening() {
            return self.push_opening(alloc, entry);
        }
        if let Some(report) = entry.what.report() {
            return self.push_report(entry, report);
        }
        if let Some(skip) = entry.what.skip() {
            return self.push_skip(entry, skip);
        }
        if let Some(search) = entry.what.cancelled() {
            return self.push_end(entry, search);
        }
        self.push_quiet(entry)
    }

    /// Adds an entry that opens a search.
    fn push_opening(&mut self, alloc: Global, entry: Entry) -> Result<(), Memory>
        requires legal { IsLegal (self.old ++ entry ∷ []) }
        requires opens { (o : Opening) × (opening_in entry.what ≡ Some o) }
        ensures pushed { OnOk result (self.new ≡ self.old ++ entry ∷ []) }
        ensures kept { OnErr result (self.new ≡ self.old) }
    {
        let Some(opening) = entry.what.opening() else {
            unreachable!();
        };
        self.searches.push(SearchState::start(alloc, opening)?)?;
        match self.books.push(entry) {
            Ok(()) => Ok(()),
            Err(memory) => {
                let _ = self.searches.pop();
                Err(memory)
            }
        }
    }

    /// Adds an entry that reports a run with a verdict.
    fn push_report(&mut self, entry: Entry, report: ReportedRun) -> Result<(), Memory>
        requires legal { IsLegal (self.old ++ entry ∷ []) }
        requires reports { report_in entry.what ≡ Some report }
        ensures pushed { OnOk result (self.new ≡ self.old ++ entry ∷ []) }
        ensures kept { OnErr result (self.new ≡ self.old) }
    {
        let Some(lease) = self.books.lease_of(report.run) else {
            unreachable!();
        };
        self.books.push(entry)?;
        let index = lease.search as usize - 1;
        self.searches[index].report(lease.stage, lease.run_with(report.verdict), report.fate);
        Ok(())
    }

    /// Adds an entry that reports a run as one whose tree can't be tested.
    fn push_skip(&mut self, entry: Entry, skip: SkippedRun) -> Result<(), Memory>
        requires legal { IsLegal (self.old ++ entry ∷ []) }
        requires skips { skip_in entry.what ≡ Some skip }
        ensures pushed { OnOk result (self.new ≡ self.old ++ entry ∷ []) }
        ensures kept { OnErr result (self.new ≡ self.old) }
    {
        let Some(lease) = self.books.lease_of(skip.run) else {
            unreachable!();
        };
        self.books.push(entry)?;
        let index = lease.search as usize - 1;
        self.searches[index].skip(lease.stage, lease.position, skip.fate);
        Ok(())
    }

    /// Adds an entry that cancels a search.
    fn push_end(&mut self, entry: Entry, search: u32) -> Result<(), Memory>
        requires legal { IsLegal (self.old ++ entry ∷ []) }
        requires cancels { cancelled_in entry.what ≡ Some search }
        ensures pushed { OnOk result (self.new ≡ self.old ++ entry ∷ []) }
        ensures kept { OnErr result (self.new ≡ self.old) }
    {
        self.books.push(entry)?;
        self.searches[search as usize - 1].cancel();
        Ok(())
    }

    /// Adds an entry that changes the state of no search.
    fn push_quiet(&mut self, entry: Entry) -> Result<(), Memory>
        requires legal { IsLegal (self.old ++ entry ∷ []) }
        requires opens_none { opening_in entry.what ≡ None }
        requires reports_none { told_in entry.what ≡ None }
        requires cancels_none { cancelled_in entry.what ≡ None }
        ensures pushed { OnOk result (self.new ≡ self.old ++ entry ∷ []) }
        ensures kept { OnErr result (self.new ≡ self.old) }
    {
        self.books.push(entry)?;
        Ok(())
    }

    // One entry less.

    /// Takes the last entry away, which takes no memory.
    pub fn pop(&mut self)
        requires { 1 < length self.old }
        ensures { self.new ≡ take (length self.old - 1) self.old }
    {
        let history = self.books.history();
        let what = &history[history.len() - 1].what;
        if what.is_opening() {
            return self.pop_opening();
        }
        if let Some(run) = what.told() {
            return self.pop_report(run);
        }
        if let Some(search) = what.cancelled() {
            return self.pop_about(search);
        }
        self.pop_quiet();
    }

    /// Takes the last entry away, which opens a search.
    fn pop_opening(&mut self)
        requires some { 1 < length self.old }
        requires opens { (e : Entry) × (o : Opening) × IsEnd self.old e × (opening_in e.what ≡ Some o) }
        ensures { self.new ≡ take (length self.old - 1) self.old }
    {
        self.books.pop();
        let _last = self.searches.pop();
    }

    /// Takes the last entry away, which reports a run, with a verdict or not.
    fn pop_report(&mut self, run: u32)
        requires some { 1 < length self.old }
        requires reports { (e : Entry) × IsEnd self.old e × (told_in e.what ≡ Some run) }
        ensures { self.new ≡ take (length self.old - 1) self.old }
    {
        let Some(lease) = self.books.lease_of(run) else {
            unreachable!();
        };
        self.pop_about(lease.search);
    }

    /// Takes the last entry away, which reports a run of a search or cancels it. The state of the search is told anew.
    fn pop_about(&mut self, search: u32)
        requires some { 1 < length self.old }
        requires about { IsEndOf self.old search }
        ensures { self.new ≡ take (length self.old - 1) self.old }
    {
        self.books.pop();
        retell(&mut self.searches[search as usize - 1], &self.books, search);
    }

    /// Takes the last entry away, which changed the state of no search.
    fn pop_quiet(&mut self)
        requires some { 1 < length self.old }
        requires quiet { (e : Entry) × IsEnd self.old e × (opening_in e.what ≡ None) × (told_in e.what ≡ None)
            × (cancelled_in e.what ≡ None) }
        ensures { self.new ≡ take (length self.old - 1) self.old }
    {
        self.books.pop();
    }
}
