//! What an open of a search, a lease, a cancellation and a request for an order come to.

ghost use Rattle.std.specs.Prelude.{◌≡◌, IfOk};
ghost use Rattle.farm_entry.specs.Decision.{cancel_decision, lease_decision, revert_decision};
ghost use Rattle.farm_entry.specs.History.{opening_numbered};
ghost use Rattle.farm_core.specs.Opens.{opened_decision};

use farm_entry::{BoxedOpening, Decision, DueRun, Entry, MAX_SEARCHES, Opening, Refusal, What};
use farm_rules::{Draft, NoOrder};
use farm_types::{Key, Memory, Moment, Name};
use kept_farm::KeptFarm;
use plain_history::lease_ms;
use std::alloc::Global;

/// A new search, if the farm takes one more.
pub(crate) fn open_decision(
    alloc: Global,
    farm: &KeptFarm,
    opening: Opening,
    at: Moment,
) -> Result<Decision, Memory>
    ensures { IfOk result (λ found. found ≡ opened_decision farm.now opening at) }
{
    if MAX_SEARCHES as usize <= farm.searches_count() {
        return Ok(Decision::Refuse(Refusal::TooManySearches));
    }
    let what = What::Opened(BoxedOpening::of(alloc, opening)?);
    Ok(Decision::New(Entry { at, what }))
}

/// The due run, handed out until one lease time later.
pub(crate) fn lease_decision(
    farm: &KeptFarm,
    key: Key,
    worker: &Name,
    at: Moment,
    due: Option<DueRun>,
) -> Result<Decision, Memory>
    ensures { IfOk result (λ found. found ≡ lease_decision farm.now key worker.now at due) }
{
    let Some(run) = due else {
        return Ok(Decision::Refuse(Refusal::NoRun));
    };
    let history = farm.history();
    let what = What::Leased {
        key,
        worker: worker.copy()?,
        run: farm.leases_count() as u32 + 1,
        search: run.search,
        stage: run.stage,
        position: run.position,
        deadline: at.ms() + lease_ms(history) as u64,
    };
    Ok(Decision::New(Entry { at, what }))
}

/// The end of a search that goes on.
pub(crate) fn cancel_decision(farm: &KeptFarm, key: Key, search: u32, at: Moment) -> Decision
    ensures { result ≡ cancel_decision farm.now key search at (opening_numbered farm.now search) }
{
    let Some(state) = farm.search(search) else {
        return Decision::Refuse(Refusal::UnknownSearch(search));
    };
    let standing = state.standing();
    if standing.is_active() {
        let what = What::Cancelled { key, search };
        Decision::New(Entry { at, what })
    } else {
        Decision::Refuse(Refusal::SearchEnded(standing))
    }
}

/// The next order, if there is one.
pub(crate) fn revert_decision(
    key: Key,
    agent: &Name,
    at: Moment,
    next: Result<Draft, NoOrder>,
) -> Result<Decision, Memory>
    ensures { IfOk result (λ found. found ≡ revert_decision key agent.now at next) }
{
    match next {
        Ok(draft) => {
            let what = What::Ordered {
                key,
                agent: agent.copy()?,
                order: draft.order,
                commit: draft.commit,
                search: draft.search,
                day: draft.day,
            };
            Ok(Decision::New(Entry { at, what }))
        }
        Err(NoOrder::NoRevert) => Ok(Decision::Refuse(Refusal::NoRevert)),
        Err(NoOrder::DailyLimit { day, count }) => {
            Ok(Decision::Refuse(Refusal::DailyLimit { day, count }))
        }
    }
}
