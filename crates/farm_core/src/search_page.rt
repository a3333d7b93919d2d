//! What is shown of a search, of its runs, and of all searches.

ghost use Rattle.std.specs.Prelude.{◌≡◌, IfOk};
ghost use Rattle.std.specs.Option.{option_map};
ghost use Rattle.farm_entry.specs.Decision.{page_decision, runs_decision};
ghost use Rattle.farm_entry.specs.History.{opening_numbered};
ghost use Rattle.farm_entry.specs.Pages.{page_of};
ghost use Rattle.farm_entry.specs.SearchLines.{search_list};
ghost use Rattle.farm_entry.specs.Standing.{standing};
ghost use Rattle.search_state.specs.Seen.{seen};

use farm_entry::{Decision, Opening, Refusal, Reply, SearchPage, Standing};
use farm_types::Memory;
use kept_farm::KeptFarm;
use search_state::SearchState;
use std::alloc::Global;

/// What is shown of a search, by its state.
fn page_of(
    alloc: Global,
    farm: &KeptFarm,
    opening: &Opening,
    state: &SearchState,
) -> Result<SearchPage, Memory>
    requires { state.now ≡ seen farm.now opening.now }
    ensures { IfOk result (λ page. page ≡ page_of farm.now opening.now) }
{
    let standing = state.standing();
    Ok(SearchPage {
        search: opening.search,
        test: opening.test.copy()?,
        budget: state.budget(),
        leases: farm.leases_of(opening.search),
        counted: state.counted(),
        verified: state.verified(),
        standing,
        commit: opening.named_commit(standing),
        shares: state.shares(alloc)?,
        untestable: state.untestable(alloc)?,
    })
}

/// The page of a search.
pub(crate) fn page_decision(alloc: Global, farm: &KeptFarm, search: u32) -> Result<Decision, Memory>
    ensures { IfOk result (λ found. found ≡ page_decision farm.now search (opening_numbered farm.now search)) }
{
    let Some(opening) = farm.opening(search) else {
        return Ok(Decision::Refuse(Refusal::UnknownSearch(search)));
    };
    let Some(state) = farm.search(search) else {
        unreachable!();
    };
    let page = page_of(alloc, farm, opening, state)?;
    Ok(Decision::Show(Reply::Search(page)))
}

/// The runs of a search from one on.
pub(crate) fn runs_decision(
    alloc: Global,
    farm: &KeptFarm,
    search: u32,
    from: u32,
) -> Result<Decision, Memory>
    ensures { IfOk result (λ found. found ≡ runs_decision farm.now search from (opening_numbered farm.now search)) }
{
    let Some(opening) = farm.opening(search) else {
        return Ok(Decision::Refuse(Refusal::UnknownSearch(search)));
    };
    let page = farm.runs_page(alloc, opening, from)?;
    Ok(Decision::Show(Reply::Runs(page)))
}

/// The searches from a number on.
pub(crate) fn list_decision(alloc: Global, farm: &KeptFarm, from: u32) -> Result<Decision, Memory>
    ensures { IfOk result (λ found. found ≡ Decision.Show (Reply.Searches (search_list farm.now from))) }
{
    let list = farm.search_list(alloc, from)?;
    Ok(Decision::Show(Reply::Searches(list)))
}

/// Where a search stands, where it was opened.
pub(crate) fn standing_of(farm: &KeptFarm, search: u32) -> Option<Standing>
    ensures { result ≡ option_map (standing farm.now) (opening_numbered farm.now search) }
{
    let state = farm.search(search)?;
    Some(state.standing())
}
