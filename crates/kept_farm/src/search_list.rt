//! The searches of a farm, as the list shows them, by the places of their openings.

ghost use Rattle.std.specs.Prelude.{◌≡◌, ◌≤◌, slice_get, Some, IfOk};
ghost use Rattle.std.specs.Option.{option_copied};
ghost use Rattle.farm_entry.specs.History.{opening_numbered};
ghost use Rattle.farm_entry.specs.SearchLines.{search_line};
ghost use Rattle.kept_farm.specs.Lines.{order_in_row, search_line_at, search_lines_at};
ghost use Rattle.kept_farm.specs.Searches.{search_rows};

use farm_entry::{Entry, Opening, SearchLine, What};
use farm_ledger::Ledger;
use farm_types::{Memory, Moment};
use plain_history::push_some;
use search_books::{SearchPlaces, SearchRow};
use std::alloc::Global;

/// The entry at a place.
fn entry_at(history: &[Entry], place: u32) -> Option<&Entry>
    ensures { option_copied result ≡ slice_get history.now place }
{
    history.get(place as usize)
}

/// The number of the order that a row of a search points to.
fn order_in_row(history: &[Entry], row: Option<&SearchRow>) -> Option<u32>
    ensures { result ≡ order_in_row history.now (option_copied row.entry) }
{
    let place = row?.order()?;
    match history.get(place as usize)?.what {
        What::Ordered { order, .. } => Some(order),
        _ => None,
    }
}

/// A search that was opened at a moment.
fn search_line(
    ledger: &Ledger,
    searches: &SearchPlaces,
    at: Moment,
    opening: &Opening,
) -> Result<SearchLine, Memory>
    requires rows { searches.now ≡ search_rows ledger.now }
    requires some { 1 ≤ opening.now.search }
    requires opened { opening_numbered ledger.now opening.now.search ≡ Some opening.now }
    ensures { IfOk result (λ line. line ≡ search_line ledger.now at opening.now) }
{
    let farm = ledger.turns().state();
    let Some(state) = farm.search(opening.search) else {
        unreachable!();
    };
    let standing = state.standing();
    Ok(SearchLine {
        search: opening.search,
        test: opening.test.copy()?,
        suspects: opening.range.len() as u32,
        opened: at,
        leases: ledger.leases_of(opening.search),
        counted: state.counted(),
        standing,
        commit: opening.named_commit(standing),
        order: order_in_row(farm.books().history(), searches.row(opening.search)),
    })
}

/// The search that the entry at a place opens.
fn search_line_at(
    ledger: &Ledger,
    searches: &SearchPlaces,
    place: u32,
) -> Result<Option<SearchLine>, Memory>
    requires { searches.now ≡ search_rows ledger.now }
    ensures { IfOk result (λ line. line ≡ search_line_at ledger.now place) }
{
    let history = ledger.turns().state().books().history();
    let Some(entry) = entry_at(history, place) else {
        return Ok(None);
    };
    let Some(opening) = entry.what.opening() else {
        return Ok(None);
    };
    let line = search_line(ledger, searches, entry.at, opening)?;
    Ok(Some(line))
}

/// The searches of these rows.
///
/// # Errors
///
/// [`Memory`].
pub(crate) fn search_lines_at(
    alloc: Global,
    ledger: &Ledger,
    searches: &SearchPlaces,
    rows: &[SearchRow],
) -> Result<Vec<SearchLine>, Memory>
    requires { searches.now ≡ search_rows ledger.now }
    ensures { IfOk result (λ lines. lines.items ≡ search_lines_at ledger.now rows.now) }
{
    let mut lines = Vec::with_capacity(alloc, rows.len())?;
    for row in rows {
        push_some(&mut lines, search_line_at(ledger, searches, row.opened())?)?;
    }
    Ok(lines)
}
