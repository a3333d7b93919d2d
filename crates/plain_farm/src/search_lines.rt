//! The list of the searches of a farm.

ghost use Rattle.std.specs.Prelude.{◌≡◌, ◌==◌, find, Contains, IfOk};
ghost use Rattle.std.specs.Option.{option_map};
ghost use Rattle.farm_entry.specs.History.{opening_in, openings, order_lines};
ghost use Rattle.farm_entry.specs.Legal.{IsLegal};
ghost use Rattle.farm_entry.specs.SearchLines.{search_line, search_lines, search_list};
ghost use Rattle.plain_history.specs.Held.{IsHeld};

use crate::standings::standing;
use common_types::ItemList;
use farm_entry::{Entry, Opening, OrderLine, SearchLine, SearchList};
use farm_types::{Memory, Moment};
use plain_history::{leases, lines_from, order_lines, push_some, runs};
use std::alloc::Global;

/// The number of the first of some orders that is to revert the culprit of a search.
fn order_for(orders: &[OrderLine], search: u32) -> Option<u32>
    ensures { result ≡ option_map (λ line. line.order) (find (λ line. line.search == search) orders.now) }
{
    for line in orders {
        if line.search == search {
            return Some(line.order);
        }
    }
    None
}

/// A search that was opened at a moment, as the list shows it.
fn search_line(
    alloc: Global,
    history: &[Entry],
    orders: &[OrderLine],
    at: Moment,
    opening: &Opening,
) -> Result<SearchLine, Memory>
    requires legal { IsLegal history.now }
    requires opened { Contains (openings history.now) opening.now }
    requires orders { orders.now ≡ order_lines history.now }
    ensures { IfOk result (λ line. line ≡ search_line history.now at opening.now) }
{
    let standing = standing(alloc, history, opening)?;
    Ok(SearchLine {
        search: opening.search,
        test: opening.test.copy()?,
        suspects: opening.range.len() as u32,
        opened: at,
        leases: leases(alloc, history, opening.search)?.len() as u32,
        counted: runs(alloc, history, opening.search)?.len() as u32,
        standing,
        commit: opening.named_commit(standing),
        order: order_for(orders, opening.search),
    })
}

/// The search that an entry opened, if it opened one, as the list shows it.
fn search_line_in(
    alloc: Global,
    history: &[Entry],
    orders: &[OrderLine],
    entry: &Entry,
) -> Result<Option<SearchLine>, Memory>
    requires legal { IsLegal history.now }
    requires held { IsHeld history.now entry.now.what }
    requires orders { orders.now ≡ order_lines history.now }
    ensures { IfOk result (λ line. line ≡ option_map (search_line history.now entry.now.at) (opening_in entry.now.what)) }
{
    match entry.what.opening() {
        None => Ok(None),
        Some(opening) => Ok(Some(search_line(alloc, history, orders, entry.at, opening)?)),
    }
}

/// All searches, by their numbers.
fn search_lines(alloc: Global, history: &[Entry]) -> Result<Vec<SearchLine>, Memory>
    requires { IsLegal history.now }
    ensures { IfOk result (λ lines. lines.items ≡ search_lines history.now) }
{
    let orders = order_lines(alloc, history)?;
    let mut lines = Vec::new(alloc);
    for entry in history {
        push_some(&mut lines, search_line_in(alloc, history, &orders, entry)?)?;
    }
    Ok(lines)
}

/// What is shown of the searches from a number on.
pub fn search_list(alloc: Global, history: &[Entry], from: u32) -> Result<SearchList, Memory>
    requires { IsLegal history.now }
    ensures { IfOk result (λ list. list ≡ search_list history.now from) }
{
    let lines = search_lines(alloc, history)?;
    Ok(SearchList {
        from,
        searches: ItemList::of(lines_from(lines, from)?),
    })
}
