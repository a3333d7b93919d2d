//! What is shown of a farm.

ghost use Rattle.std.specs.Prelude.{◌≡◌, map, count_by, Contains, IfOk};
ghost use Rattle.std.specs.Option.{option_map};
ghost use Rattle.plain_history.specs.Held.{IsHeld};
ghost use Rattle.plain_history.specs.Tests.{is_some_and};
ghost use Rattle.farm_entry.specs.History.{is_counted, opening_in, openings, order_lines, report_in, reports};
ghost use Rattle.farm_entry.specs.Legal.{IsLegal};
ghost use Rattle.farm_entry.specs.Pages.{is_ended_otherwise, page_of, shares_of, totals, untestable_of};
ghost use Rattle.farm_entry.specs.Standing.{is_confirmed, is_searching, is_verifying, standing};

use crate::standings::{belief, skips, standing};
use farm_entry::{
    Entry, Opening, OrderPage, Positions, SearchPage, Shares, Standing, Totals, What,
};
use farm_types::Memory;
use plain_history::{leases, openings_count, order_lines, orders_count, push_some, reruns, runs};
use std::alloc::Global;

/// The shares of all hypotheses of a search in basis points, that of "no culprit" last.
pub fn shares_of(alloc: Global, history: &[Entry], opening: &Opening) -> Result<Shares, Memory>
    requires legal { IsLegal history.now }
    requires opened { Contains (openings history.now) opening.now }
    ensures { IfOk result (λ shares. shares ≡ shares_of history.now opening.now) }
{
    let belief = belief(alloc, history, opening)?;
    let mut shares = Vec::new(alloc);
    for before in 0..opening.range.len() + 1 {
        shares.push(belief.basis_points(before as u16 + 1))?;
    }
    Ok(Shares::of(shares))
}

/// The positions of a search that were skipped, rising, each once. Position 0 is the base.
pub fn untestable_of(
    alloc: Global,
    history: &[Entry],
    opening: &Opening,
) -> Result<Positions, Memory>
    requires legal { IsLegal history.now }
    requires opened { Contains (openings history.now) opening.now }
    ensures { IfOk result (λ positions. positions ≡ untestable_of history.now opening.now) }
{
    let skips = skips(alloc, history, opening)?;
    let positions = skips.positions(alloc, opening.range.len() as u16)?;
    Ok(Positions::of(positions))
}

/// What is shown of a search.
pub fn page_of(alloc: Global, history: &[Entry], opening: &Opening) -> Result<SearchPage, Memory>
    requires legal { IsLegal history.now }
    requires opened { Contains (openings history.now) opening.now }
    ensures { IfOk result (λ page. page ≡ page_of history.now opening.now) }
{
    let standing = standing(alloc, history, opening)?;
    Ok(SearchPage {
        search: opening.search,
        test: opening.test.copy()?,
        budget: opening.budget(),
        leases: leases(alloc, history, opening.search)?.len() as u32,
        counted: runs(alloc, history, opening.search)?.len() as u32,
        verified: reruns(alloc, history, opening.search)?.len() as u32,
        standing,
        commit: opening.named_commit(standing),
        shares: shares_of(alloc, history, opening)?,
        untestable: untestable_of(alloc, history, opening)?,
    })
}

/// Where the search stands that an entry opened, if it opened one.
fn standing_in(alloc: Global, history: &[Entry], what: &What) -> Result<Option<Standing>, Memory>
    requires legal { IsLegal history.now }
    requires held { IsHeld history.now what.now }
    ensures { IfOk result (λ found. found ≡ option_map (standing history.now) (opening_in what.now)) }
{
    match what.opening() {
        None => Ok(None),
        Some(opening) => Ok(Some(standing(alloc, history, opening)?)),
    }
}

/// Where all searches stand, by their numbers.
fn standings(alloc: Global, history: &[Entry]) -> Result<Vec<Standing>, Memory>
    requires { IsLegal history.now }
    ensures { IfOk result (λ found. found.items ≡ map (standing history.now) (openings history.now)) }
{
    let mut found = Vec::new(alloc);
    for entry in history {
        push_some(&mut found, standing_in(alloc, history, &entry.what)?)?;
    }
    Ok(found)
}

/// How many searches are looking for their culprit.
fn count_searching(found: &[Standing]) -> usize
    ensures { result ≡ count_by is_searching found.now }
{
    found.iter().filter(|one| one.is_searching()).count()
}

/// How many searches verify their culprit.
fn count_verifying(found: &[Standing]) -> usize
    ensures { result ≡ count_by is_verifying found.now }
{
    found.iter().filter(|one| one.is_verifying()).count()
}

/// How many searches have a confirmed culprit.
fn count_confirmed(found: &[Standing]) -> usize
    ensures { result ≡ count_by is_confirmed found.now }
{
    found.iter().filter(|one| one.is_confirmed()).count()
}

/// How many searches have ended in another way than with a confirmed culprit.
fn count_ended(found: &[Standing]) -> usize
    ensures { result ≡ count_by is_ended_otherwise found.now }
{
    found.iter().filter(|one| one.is_ended_otherwise()).count()
}

/// How many reports counted, at both stages.
fn counted_reports(history: &[Entry]) -> usize
    ensures { result ≡ count_by (λ r. is_counted r.fate) (reports history.now) }
{
    let counted = history
        .iter()
        .filter(|entry| is_counted_report(&entry.what));
    counted.count()
}

/// Whether an entry records a report that counts.
fn is_counted_report(what: &What) -> bool
    ensures { result ≡ is_some_and (λ r. is_counted r.fate) (report_in what.now) }
{
    match what.report() {
        None => false,
        Some(report) => report.fate.is_counted(),
    }
}

/// What is counted of a farm.
pub fn totals(alloc: Global, history: &[Entry]) -> Result<Totals, Memory>
    requires { IsLegal history.now }
    ensures { IfOk result (λ counted. counted ≡ totals history.now) }
{
    let found = standings(alloc, history)?;
    Ok(Totals {
        entries: history.len() as u64,
        searches: openings_count(history) as u64,
        searching: count_searching(&found) as u64,
        verifying: count_verifying(&found) as u64,
        confirmed: count_confirmed(&found) as u64,
        ended: count_ended(&found) as u64,
        counted: counted_reports(history) as u64,
        orders: orders_count(history) as u64,
    })
}

/// All orders, as they are shown.
pub fn order_page(alloc: Global, history: &[Entry]) -> Result<OrderPage, Memory>
    ensures { IfOk result (λ page. page ≡ order_lines history.now) }
{
    Ok(OrderPage::of(order_lines(alloc, history)?))
}
