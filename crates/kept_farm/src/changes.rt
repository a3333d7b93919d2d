//! What appending an entry changes: where one search stands, and by it what is counted.

ghost use Rattle.std.specs.Prelude.{◌≡◌, ◌≤◌};
ghost use Rattle.std.specs.Option.{option_map};
ghost use Rattle.farm_entry.specs.History.{opening_numbered};
ghost use Rattle.farm_entry.specs.Pages.{is_ended_otherwise};
ghost use Rattle.farm_entry.specs.Standing.{is_confirmed, is_searching, is_verifying, standing};
ghost use Rattle.kept_farm.specs.Changes.{AreFew, CanMove, HasMoved, counts_in, one_that, search_in, standing_of, with_entry};

use farm_entry::{Standing, Totals, What};
use farm_ledger::Ledger;
use farm_state::FarmState;

// Where the search of an entry stands.

/// The number of the search that an entry opens, reports a run of or cancels.
pub(crate) fn search_in(ledger: &Ledger, what: &What) -> Option<u32>
    ensures { result ≡ search_in ledger.now what.now }
{
    match what {
        What::Opened(opening) => Some(opening.search),
        What::Reported { run, .. } | What::Skipped { run, .. } => {
            let lease = ledger.turns().state().books().lease_of(*run)?;
            Some(lease.search)
        }
        What::Cancelled { search, .. } => Some(*search),
        _ => None,
    }
}

/// Where a search stands, if there is one and it was opened.
pub(crate) fn standing_of(ledger: &Ledger, search: Option<u32>) -> Option<Standing>
    ensures { result ≡ standing_of ledger.now search }
{
    match search {
        None => None,
        Some(number) => standing_numbered(ledger.turns().state(), number),
    }
}

/// Where the search with a number stands, if it was opened.
fn standing_numbered(state: &FarmState, number: u32) -> Option<Standing>
    ensures { result ≡ option_map (standing state.now) (opening_numbered state.now number) }
{
    let search = state.search(number)?;
    Some(search.standing())
}

// What is counted.

/// Whether an entry is a report that counts.
fn counts_in(what: &What) -> bool
    ensures { result ≡ counts_in what.now }
{
    match what {
        What::Reported { fate, .. } => fate.is_counted(),
        _ => false,
    }
}

/// What is counted with an entry appended, where each search is still counted as it stood before.
pub(crate) fn with_entry(totals: Totals, what: &What) -> Totals
    requires { AreFew totals }
    ensures { result ≡ with_entry totals what.now }
{
    Totals {
        entries: totals.entries + 1,
        searches: totals.searches + u64::from(what.is_opening()),
        counted: totals.counted + u64::from(counts_in(what)),
        orders: totals.orders + u64::from(what.is_order()),
        ..totals
    }
}

/// One for a search that is looking for its culprit.
fn one_searching(standing: Option<Standing>) -> u64
    ensures is { result ≡ one_that is_searching standing }
    ensures low { result ≤ 1 }
{
    match standing {
        Some(standing) if standing.is_searching() => 1,
        _ => 0,
    }
}

/// One for a search that verifies its culprit.
fn one_verifying(standing: Option<Standing>) -> u64
    ensures is { result ≡ one_that is_verifying standing }
    ensures low { result ≤ 1 }
{
    match standing {
        Some(standing) if standing.is_verifying() => 1,
        _ => 0,
    }
}

/// One for a search whose culprit is confirmed.
fn one_confirmed(standing: Option<Standing>) -> u64
    ensures is { result ≡ one_that is_confirmed standing }
    ensures low { result ≤ 1 }
{
    match standing {
        Some(standing) if standing.is_confirmed() => 1,
        _ => 0,
    }
}

/// One for a search that has ended in another way.
fn one_ended(standing: Option<Standing>) -> u64
    ensures is { result ≡ one_that is_ended_otherwise standing }
    ensures low { result ≤ 1 }
{
    match standing {
        Some(standing) if standing.is_ended_otherwise() => 1,
        _ => 0,
    }
}

/// What is counted once a search moved, if one did, from where it stood before to where it stands.
pub(crate) fn with_standings(
    totals: Totals,
    before: Option<Standing>,
    after: Option<Standing>,
) -> Totals
    requires { CanMove totals before after }
    ensures { HasMoved totals result before after }
{
    Totals {
        searching: totals.searching + one_searching(after) - one_searching(before),
        verifying: totals.verifying + one_verifying(after) - one_verifying(before),
        confirmed: totals.confirmed + one_confirmed(after) - one_confirmed(before),
        ended: totals.ended + one_ended(after) - one_ended(before),
        ..totals
    }
}
