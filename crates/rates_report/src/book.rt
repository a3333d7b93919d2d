//! The book of flake rates.

ghost use Rattle.std.specs.Prelude.{◌≡◌, ◌<◌, ◌≤◌, ◌^◌, true, false, ◌++◌, ◌∷◌, [], None, Some, length, slice_get, IfSome, OnOk, OnErr};
ghost use Rattle.std.specs.BTreeSet.{keys};
ghost use Rattle.flake_rate.specs.Rate.{rate_denominator, rate_numerator};
ghost use Rattle.farm_entry.specs.History.{cancelled_in, is_counted, lease_in, lease_of, opening_in, report_in, told_in};
ghost use Rattle.farm_entry.specs.Legal.{IsLegal};
ghost use Rattle.rates_report.specs.Listed.{IsListed};
ghost use Rattle.rates_report.specs.Tally.{StandsAfter, rate_offered, search_in, tally, tests_of};

use crate::notes::{SearchNotes, told_of_all};
use crate::offer::offered_rate;
use crate::telling::tells;
use common_types::ToldList;
use farm_entry::{Entry, LeasedRun, Opening, ReportedRun, Standing};
use farm_types::{Memory, Name};
use flake_rate::Rate;
use std::alloc::Global;
use std::collections::BTreeSet;
use std::marker::Model;

/// What the ended searches of a farm tell of the flake rates of its tests. Contracts see the list of the entries noted.
#[derive(Drop)]
pub struct FlakeBook {
    alloc: Global,
    noted: ToldList<Entry>,
    leases: Vec<LeasedRun>,
    searches: Vec<SearchNotes>,
    tests: BTreeSet<Name>,
}

impl Model for FlakeBook {
    ghost use Rattle.std.specs.Prelude.{List, reverse};
    ghost use Rattle.farm_entry.specs.declared.entry.Entry.{Entry};

    ghost Value = { List Entry };

    ghost view = { λ book. reverse book.noted };

    ghost use Rattle.rates_report.specs.BookInside.{IsFlakeBook};

    ghost invariant = { IsFlakeBook };
}

impl FlakeBook {
    /// A book without an entry.
    pub fn start(alloc: Global) -> FlakeBook
        ensures { result ≡ [] }
    {
        FlakeBook {
            alloc,
            noted: ToldList::new(),
            leases: Vec::new(alloc),
            searches: Vec::new(alloc),
            tests: BTreeSet::new(alloc),
        }
    }

    /// The number of the search that the next entry opens, reports a run of, with a verdict or as a skip, or cancels,
    /// if it does.
    pub fn search_of(&self, entry: &Entry) -> Option<u32>
        requires { IsLegal (self.now ++ entry.now ∷ []) }
        ensures { result ≡ search_in self.now entry.now.what }
    {
        if let Some(opening) = entry.what.opening() {
            return Some(opening.search);
        }
        if let Some(run) = entry.what.told() {
            return Some(self.leases[run as usize - 1].search);
        }
        entry.what.cancelled()
    }

    /// Notes the next entry of a history, with the standing of the search that it opens, reports a run of, with a
    /// verdict or as a skip, or cancels, after the entry. For other entries the standing isn't looked at.
    ///
    /// # Errors
    ///
    /// [`Memory`]. The book stays as it was.
    pub fn note(&mut self, entry: &Entry, standing: Standing) -> Result<(), Memory>
        requires legal { IsLegal (self.old ++ entry.now ∷ []) }
        requires stands { StandsAfter self.old entry.now standing }
        ensures noted { OnOk result (self.new ≡ self.old ++ entry.now ∷ []) }
        ensures kept { OnErr result (self.new ≡ self.old) }
    {
        if let Some(opening) = entry.what.opening() {
            return self.note_opening(entry, opening, standing);
        }
        if let Some(lease) = entry.what.lease() {
            return self.note_lease(entry, lease);
        }
        if let Some(run) = entry.what.told() {
            return self.note_told(entry, run, standing);
        }
        if let Some(search) = entry.what.cancelled() {
            return self.note_end(entry, search, standing);
        }
        self.note_quiet(entry);
        Ok(())
    }

    /// Notes an entry that changes nothing which is kept of leases and searches.
    fn note_quiet(&mut self, entry: &Entry)
        requires legal { IsLegal (self.old ++ entry.now ∷ []) }
        requires opens_none { opening_in entry.now.what ≡ None }
        requires leases_none { lease_in entry.now.what ≡ None }
        requires tells_none { told_in entry.now.what ≡ None }
        requires cancels_none { cancelled_in entry.now.what ≡ None }
        ensures { self.new ≡ self.old ++ entry.now ∷ [] }
    {
        self.noted.tell(entry);
    }

    /// Notes an entry that opens a search.
    fn note_opening(
        &mut self,
        entry: &Entry,
        opening: &Opening,
        standing: Standing,
    ) -> Result<(), Memory>
        requires legal { IsLegal (self.old ++ entry.now ∷ []) }
        requires stands { StandsAfter self.old entry.now standing }
        requires opens { opening_in entry.now.what ≡ Some opening.now }
        ensures noted { OnOk result (self.new ≡ self.old ++ entry.now ∷ []) }
        ensures kept { OnErr result (self.new ≡ self.old) }
    {
        let notes = SearchNotes::start(self.alloc, opening.test.copy()?, standing);
        self.searches.push(notes)?;
        if let Err(memory) = list(&mut self.tests, &opening.test, standing) {
            let _ = self.searches.pop();
            return Err(memory);
        }
        self.noted.tell(entry);
        Ok(())
    }

    /// Notes an entry that hands out a run.
    fn note_lease(&mut self, entry: &Entry, lease: LeasedRun) -> Result<(), Memory>
        requires legal { IsLegal (self.old ++ entry.now ∷ []) }
        requires leases { lease_in entry.now.what ≡ Some lease }
        ensures noted { OnOk result (self.new ≡ self.old ++ entry.now ∷ []) }
        ensures kept { OnErr result (self.new ≡ self.old) }
    {
        self.leases.push(lease)?;
        self.noted.tell(entry);
        Ok(())
    }

    /// Notes an entry that reports a run, with a verdict or as a skip.
    fn note_told(&mut self, entry: &Entry, run: u32, standing: Standing) -> Result<(), Memory>
        requires legal { IsLegal (self.old ++ entry.now ∷ []) }
        requires stands { StandsAfter self.old entry.now standing }
        requires tells { told_in entry.now.what ≡ Some run }
        ensures noted { OnOk result (self.new ≡ self.old ++ entry.now ∷ []) }
        ensures kept { OnErr result (self.new ≡ self.old) }
    {
        let lease = self.leases[run as usize - 1];
        match counted_report(entry) {
            Some(report) => self.note_counted(entry, report, lease, standing),
            None => self.note_uncounted(entry, lease, standing),
        }
    }

    /// Notes an entry that reports a run which counts.
    fn note_counted(
        &mut self,
        entry: &Entry,
        report: ReportedRun,
        lease: LeasedRun,
        standing: Standing,
    ) -> Result<(), Memory>
        requires legal { IsLegal (self.old ++ entry.now ∷ []) }
        requires stands { StandsAfter self.old entry.now standing }
        requires reports { report_in entry.now.what ≡ Some report }
        requires leased { lease_of self.old report.run ≡ Some lease }
        requires counts { is_counted report.fate ≡ true }
        ensures noted { OnOk result (self.new ≡ self.old ++ entry.now ∷ []) }
        ensures kept { OnErr result (self.new ≡ self.old) }
    {
        let index = lease.search as usize - 1;
        self.searches[index].add(lease.stage, lease.run_with(report.verdict))?;
        if let Err(memory) = list(&mut self.tests, self.searches[index].test(), standing) {
            self.searches[index].take(lease.stage);
            return Err(memory);
        }
        self.searches[index].stand(standing);
        self.noted.tell(entry);
        Ok(())
    }

    /// Notes an entry that reports a run which doesn't count, with a verdict or as a skip.
    fn note_uncounted(
        &mut self,
        entry: &Entry,
        lease: LeasedRun,
        standing: Standing,
    ) -> Result<(), Memory>
        requires legal { IsLegal (self.old ++ entry.now ∷ []) }
        requires stands { StandsAfter self.old entry.now standing }
        requires tells { told_in entry.now.what ≡ Some lease.run }
        requires leased { lease_of self.old lease.run ≡ Some lease }
        requires counts_not { (report : ReportedRun) → report_in entry.now.what ≡ Some report
            → is_counted report.fate ≡ false }
        ensures noted { OnOk result (self.new ≡ self.old ++ entry.now ∷ []) }
        ensures kept { OnErr result (self.new ≡ self.old) }
    {
        let index = lease.search as usize - 1;
        list(&mut self.tests, self.searches[index].test(), standing)?;
        self.searches[index].stand(standing);
        self.noted.tell(entry);
        Ok(())
    }

    /// Notes an entry that cancels a search.
    fn note_end(&mut self, entry: &Entry, search: u32, standing: Standing) -> Result<(), Memory>
        requires legal { IsLegal (self.old ++ entry.now ∷ []) }
        requires stands { StandsAfter self.old entry.now standing }
        requires cancels { cancelled_in entry.now.what ≡ Some search }
        ensures noted { OnOk result (self.new ≡ self.old ++ entry.now ∷ []) }
        ensures kept { OnErr result (self.new ≡ self.old) }
    {
        self.searches[search as usize - 1].stand(standing);
        self.noted.tell(entry);
        Ok(())
    }

    /// How often a test failed, and how many runs it had, at trees that turned out to be sound; nothing, where no ended
    /// search tells of it.
    pub fn tally(&self, test: &Name) -> (u64, u64)
        ensures { result ≡ tally self.now test.now }
    {
        self.told(test)
    }

    /// The tally of a test, and how great it may be.
    fn told(&self, test: &Name) -> (u64, u64)
        ensures tally { result ≡ tally self.now test.now }
        ensures fewer { result.0 ≤ result.1 }
        ensures small { result.1 < 2 ^ 48 }
    {
        told_of_all(&self.searches, test)
    }

    /// The flake rate that is offered for a test, in lowest terms: 1/2 where nothing is told of it.
    pub fn rate(&self, test: &Name) -> Rate
        ensures numerator { rate_numerator result ≡ (rate_offered self.now test.now).0 }
        ensures denominator { rate_denominator result ≡ (rate_offered self.now test.now).1 }
    {
        let (fails, runs) = self.told(test);
        offered_rate(fails, runs)
    }

    /// How many tests have a search that is confirmed or without a culprit.
    pub fn tests(&self) -> usize
        ensures { result ≡ length (tests_of self.now) }
    {
        self.tests.len()
    }

    /// The test at an index among them, counted from 0, in the order of their bytes.
    pub fn test(&self, index: usize) -> &Name
        requires { index < length (tests_of self.now) }
        ensures { slice_get (tests_of self.now) index ≡ Some result.now }
    {
        match self.tests.iter().nth(index) {
            Some(name) => name,
            None => unreachable!(),
        }
    }
}

/// The report of an entry, where it has a verdict that counts.
fn counted_report(entry: &Entry) -> Option<ReportedRun>
    ensures some { IfSome result (λ report. (report_in entry.now.what ≡ Some report)
        × (is_counted report.fate ≡ true)) }
    ensures none { result ≡ None → (report : ReportedRun) → report_in entry.now.what ≡ Some report
        → is_counted report.fate ≡ false }
{
    match entry.what.report() {
        Some(report) if report.fate.is_counted() => Some(report),
        _ => None,
    }
}

/// Adds the test of a search to the tests, if the search tells of it.
fn list(tests: &mut BTreeSet<Name>, test: &Name, standing: Standing) -> Result<(), Memory>
    ensures listed { OnOk result (IsListed (keys tests.old) (keys tests.new) test.now standing) }
    ensures kept { OnErr result (keys tests.new ≡ keys tests.old) }
{
    if tells(standing) {
        tests.insert(test.copy()?)?;
    }
    Ok(())
}
