//! How the state of a search is told anew from a history.

ghost use Rattle.std.specs.Prelude.{◌≡◌, Contains, Some};
ghost use Rattle.farm_entry.specs.History.{lease_of, openings, report_in, skip_in};
ghost use Rattle.search_state.specs.Seen.{seen};
ghost use Rattle.farm_state.specs.Telling.{MaySkip, MayTake, told, told_run, told_skip};

use farm_books::Books;
use farm_entry::{LeasedRun, ReportedRun, SkippedRun, What};
use search_state::SearchState;

/// Makes the state of a search what a history holds of it. It takes no memory.
pub(crate) fn retell(state: &mut SearchState, books: &Books, search: u32)
    requires there { Contains (openings books.now) state.old.opening }
    requires search { search ≡ state.old.opening.search }
    ensures { state.new ≡ seen books.now state.old.opening }
{
    state.clear();
    for entry in books.history() {
        tell(state, books, &entry.what, search);
    }
}

/// Gives a search what an entry says of it: a report of one of its runs, with a verdict or not, or its cancellation.
fn tell(state: &mut SearchState, books: &Books, what: &What, search: u32)
    requires reports { (r : ReportedRun) (l : LeasedRun) → report_in what.now ≡ Some r
        → lease_of books.now r.run ≡ Some l → l.search ≡ search → MayTake state.old l r }
    requires skips { (r : SkippedRun) (l : LeasedRun) → skip_in what.now ≡ Some r
        → lease_of books.now r.run ≡ Some l → l.search ≡ search → MaySkip state.old l r }
    ensures { state.new ≡ told books.now search what.now state.old }
{
    if let Some(report) = what.report() {
        return tell_report(state, books, report, search);
    }
    if let Some(skip) = what.skip() {
        return tell_skip(state, books, skip, search);
    }
    if what.cancelled() == Some(search) {
        state.cancel();
    }
}

/// Gives a search the report of a run, if it is one of its runs.
fn tell_report(state: &mut SearchState, books: &Books, report: ReportedRun, search: u32)
    requires { (l : LeasedRun) → lease_of books.now report.run ≡ Some l → l.search ≡ search
        → MayTake state.old l report }
    ensures { state.new ≡ told_run search (lease_of books.now report.run) report state.old }
{
    if let Some(lease) = books.lease_of(report.run) {
        if lease.search == search {
            state.report(lease.stage, lease.run_with(report.verdict), report.fate);
        }
    }
}

/// Tells a search that the tree of a run can't be tested, if it is one of its runs.
fn tell_skip(state: &mut SearchState, books: &Books, skip: SkippedRun, search: u32)
    requires { (l : LeasedRun) → lease_of books.now skip.run ≡ Some l → l.search ≡ search
        → MaySkip state.old l skip }
    ensures { state.new ≡ told_skip search (lease_of books.now skip.run) skip state.old }
{
    if let Some(lease) = books.lease_of(skip.run) {
        if lease.search == search {
            state.skip(lease.stage, lease.position, skip.fate);
        }
    }
}
