//! The runs of a search, as a page shows them, by the places of its leases.

ghost use Rattle.std.specs.Prelude.{◌≡◌, slice_get, IfOk};
ghost use Rattle.std.specs.Option.{option_and_then, option_copied};
ghost use Rattle.farm_entry.specs.RunPages.{lines_from, report_of, report_shown, run_line};
ghost use Rattle.kept_farm.specs.Lines.{run_line_at, run_lines_at, runs_in};

use farm_books::Books;
use farm_entry::{Entry, Opening, PAGE_LINES, RunLine, RunReport, What};
use farm_types::{Memory, Moment};
use plain_history::{push_some, report_shown};
use search_books::SearchRow;
use std::alloc::Global;

/// What a page shows of a list from the item with a number on.
pub(crate) fn lines_from<T>(items: &[T], from: u32) -> &[T]
    ensures { result.now ≡ lines_from from items.now }
{
    let first = (from as usize).saturating_sub(1).min(items.len());
    let rest = &items[first..];
    &rest[..rest.len().min(PAGE_LINES as usize)]
}

/// The places of the leases of a search, where it has a row.
pub(crate) fn runs_in(row: Option<&SearchRow>) -> &[u32]
    ensures { result.now ≡ runs_in (option_copied row.entry) }
{
    match row {
        None => &[],
        Some(row) => row.runs(),
    }
}

/// The report that the entry at a place records, as it is shown.
fn report_at(history: &[Entry], place: u32) -> Option<RunReport>
    ensures { result ≡ option_and_then report_shown (slice_get history.now place) }
{
    match history.get(place as usize) {
        None => None,
        Some(entry) => report_shown(entry),
    }
}

/// What was reported of a run.
fn report_of(books: &Books, run: u32) -> Option<RunReport>
    ensures { result ≡ report_of books.now run }
{
    match books.place_of_report(run) {
        None => None,
        Some(place) => report_at(books.history(), place),
    }
}

/// The run that an entry hands out, where it is of a search.
fn run_line(
    books: &Books,
    opening: &Opening,
    at: Moment,
    what: &What,
) -> Result<Option<RunLine>, Memory>
    ensures { IfOk result (λ line. line ≡ run_line books.now opening.now at what.now) }
{
    match what {
        What::Leased {
            worker,
            run,
            search,
            stage,
            position,
            deadline,
            ..
        } => {
            if *search != opening.search {
                return Ok(None);
            }
            Ok(Some(RunLine {
                run: *run,
                stage: *stage,
                position: *position,
                commit: opening.commit(*position),
                worker: worker.copy()?,
                leased: at,
                deadline: *deadline,
                report: report_of(books, *run),
            }))
        }
        _ => Ok(None),
    }
}

/// The run of a search that the entry at a place hands out.
fn run_line_at(books: &Books, opening: &Opening, place: u32) -> Result<Option<RunLine>, Memory>
    ensures { IfOk result (λ line. line ≡ run_line_at books.now opening.now place) }
{
    match books.history().get(place as usize) {
        None => Ok(None),
        Some(entry) => run_line(books, opening, entry.at, &entry.what),
    }
}

/// The runs of a search that the entries at these places hand out.
///
/// # Errors
///
/// [`Memory`].
pub(crate) fn run_lines_at(
    alloc: Global,
    books: &Books,
    opening: &Opening,
    places: &[u32],
) -> Result<Vec<RunLine>, Memory>
    ensures { IfOk result (λ lines. lines.items ≡ run_lines_at books.now opening.now places.now) }
{
    let mut lines = Vec::with_capacity(alloc, places.len())?;
    for place in places {
        push_some(&mut lines, run_line_at(books, opening, *place)?)?;
    }
    Ok(lines)
}
