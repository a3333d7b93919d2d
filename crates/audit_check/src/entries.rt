//! Entries from the front of some bytes: a moment, a tag in one byte that tells the kind, and the fields of that kind.

ghost use Rattle.std.specs.Prelude.{◌≡◌, IfOk};
ghost use Rattle.entry_codec.specs.Reading.{cancelled_at, carried_at, closed_at, entry_at, founded_at, leased_at, miss_at, opened_at, opening_at};
ghost use Rattle.entry_codec.specs.Reading.{ordered_at, reported_at, skipped_at, what_at};
ghost use Rattle.audit_check.specs.Reads.{Reads};
ghost use Rattle.audit_check.specs.Added.{IsAdded};

use crate::fields::{number_1, number_2, number_4, number_8};
use crate::parts::{
    bar, commit, fate, key, miss, moment, name, number_up_to, range, rate, settings, skip_fate,
    stage, verdict,
};
use crate::stop::Stop;
use farm_entry::{BoxedOpening, Entry, MAX_RERUNS, Opening, What};
use farm_types::Memory;
use flake_rate::{Miss, Rate};
use std::alloc::Global;
use weight_exact::MAX_WIDTH;

/// The founding of a farm.
#[tactic(auto, unfolding(entry_codec::specs::Reading::founded_at))]
fn founded(bytes: &[u8]) -> Result<(What, &[u8]), Stop>
    ensures { Reads (λ x. (x.0, x.1.now)) result (founded_at bytes.now) }
{
    let (settings, rest) = settings(bytes)?;
    Ok((What::Founded { settings }, rest))
}

/// The miss rate of an opening: one above 0 that fits the rate, or 0, which takes no bytes.
#[tactic(auto, unfolding(entry_codec::specs::Reading::miss_at))]
fn miss_or_none(misses: bool, rate: Rate, bytes: &[u8]) -> Result<(Miss, &[u8]), Stop>
    ensures { Reads (λ x. (x.0, x.1.now)) result (miss_at misses rate bytes.now) }
{
    if misses {
        miss(rate, bytes)
    } else {
        Ok((Miss::none(), bytes))
    }
}

/// The opening of a search: its key, number, test and range, and the rules of its inference.
#[tactic(auto, unfolding(entry_codec::specs::Reading::opening_at))]
fn opening(alloc: Global, misses: bool, bytes: &[u8]) -> Result<(Opening, &[u8]), Stop>
    ensures { Reads (λ x. (x.0, x.1.now)) result (opening_at misses bytes.now) }
{
    let (key, rest) = key(bytes)?;
    let (search, rest) = number_4(rest)?;
    let (test, rest) = name(alloc, rest)?;
    let (range, rest) = range(alloc, rest)?;
    let (rate, rest) = rate(rest)?;
    let (miss, rest) = miss_or_none(misses, rate, rest)?;
    let (bar, rest) = bar(rest)?;
    let (width, rest) = number_up_to(u32::from(MAX_WIDTH), rest)?;
    let (reruns, rest) = number_up_to(MAX_RERUNS, rest)?;
    let opening = Opening {
        key,
        search,
        test,
        range,
        rate,
        miss,
        bar,
        width,
        reruns,
    };
    Ok((opening, rest))
}

/// An opening as what an entry records.
#[tactic(auto, unfolding(entry_codec::specs::Reading::opened_at))]
fn opened(alloc: Global, misses: bool, bytes: &[u8]) -> Result<(What, &[u8]), Stop>
    ensures { Reads (λ x. (x.0, x.1.now)) result (opened_at misses bytes.now) }
{
    let (opening, rest) = opening(alloc, misses, bytes)?;
    Ok((What::Opened(BoxedOpening::of(alloc, opening)?), rest))
}

/// A lease: its key, worker, run, search, stage, position and deadline.
#[tactic(auto, unfolding(entry_codec::specs::Reading::leased_at))]
fn leased(alloc: Global, bytes: &[u8]) -> Result<(What, &[u8]), Stop>
    ensures { Reads (λ x. (x.0, x.1.now)) result (leased_at bytes.now) }
{
    let (key, rest) = key(bytes)?;
    let (worker, rest) = name(alloc, rest)?;
    let (run, rest) = number_4(rest)?;
    let (search, rest) = number_4(rest)?;
    let (stage, rest) = stage(rest)?;
    let (position, rest) = number_2(rest)?;
    let (deadline, rest) = number_8(rest)?;
    let what = What::Leased {
        key,
        worker,
        run,
        search,
        stage,
        position,
        deadline,
    };
    Ok((what, rest))
}

/// A report: its run, verdict and fate.
#[tactic(auto, unfolding(entry_codec::specs::Reading::reported_at))]
fn reported(bytes: &[u8]) -> Result<(What, &[u8]), Stop>
    ensures { Reads (λ x. (x.0, x.1.now)) result (reported_at bytes.now) }
{
    let (run, rest) = number_4(bytes)?;
    let (verdict, rest) = verdict(rest)?;
    let (fate, rest) = fate(rest)?;
    Ok((What::Reported { run, verdict, fate }, rest))
}

/// A report of a run whose tree can't be tested: its run and fate.
#[tactic(auto, unfolding(entry_codec::specs::Reading::skipped_at))]
fn skipped(bytes: &[u8]) -> Result<(What, &[u8]), Stop>
    ensures { Reads (λ x. (x.0, x.1.now)) result (skipped_at bytes.now) }
{
    let (run, rest) = number_4(bytes)?;
    let (fate, rest) = skip_fate(rest)?;
    Ok((What::Skipped { run, fate }, rest))
}

/// A cancellation: its key and search.
#[tactic(auto, unfolding(entry_codec::specs::Reading::cancelled_at))]
fn cancelled(bytes: &[u8]) -> Result<(What, &[u8]), Stop>
    ensures { Reads (λ x. (x.0, x.1.now)) result (cancelled_at bytes.now) }
{
    let (key, rest) = key(bytes)?;
    let (search, rest) = number_4(rest)?;
    Ok((What::Cancelled { key, search }, rest))
}

/// An order: its key, agent, number, commit, search and day.
#[tactic(auto, unfolding(entry_codec::specs::Reading::ordered_at))]
fn ordered(alloc: Global, bytes: &[u8]) -> Result<(What, &[u8]), Stop>
    ensures { Reads (λ x. (x.0, x.1.now)) result (ordered_at bytes.now) }
{
    let (key, rest) = key(bytes)?;
    let (agent, rest) = name(alloc, rest)?;
    let (order, rest) = number_4(rest)?;
    let (commit, rest) = commit(rest)?;
    let (search, rest) = number_4(rest)?;
    let (day, rest) = number_4(rest)?;
    let what = What::Ordered {
        key,
        agent,
        order,
        commit,
        search,
        day,
    };
    Ok((what, rest))
}

/// An order that was carried over from a farm before this one: its commit and day.
#[tactic(auto, unfolding(entry_codec::specs::Reading::carried_at))]
fn carried(bytes: &[u8]) -> Result<(What, &[u8]), Stop>
    ensures { Reads (λ x. (x.0, x.1.now)) result (carried_at bytes.now) }
{
    let (commit, rest) = commit(bytes)?;
    let (day, rest) = number_4(rest)?;
    Ok((What::Carried { commit, day }, rest))
}

/// The farm's closing, which has no fields.
#[tactic(auto, unfolding(entry_codec::specs::Reading::closed_at))]
fn closed(bytes: &[u8]) -> Result<(What, &[u8]), Stop>
    ensures { Reads (λ x. (x.0, x.1.now)) result (closed_at bytes.now) }
{
    Ok((What::Closed, bytes))
}

/// What an entry with a tag records.
#[tactic(auto, unfolding(entry_codec::specs::Reading::what_at))]
fn what(alloc: Global, tag: u8, bytes: &[u8]) -> Result<(What, &[u8]), Stop>
    ensures { Reads (λ x. (x.0, x.1.now)) result (what_at tag bytes.now) }
{
    match tag {
        1 => founded(bytes),
        2 => opened(alloc, false, bytes),
        3 => leased(alloc, bytes),
        4 => reported(bytes),
        5 => cancelled(bytes),
        6 => ordered(alloc, bytes),
        7 => opened(alloc, true, bytes),
        8 => skipped(bytes),
        9 => closed(bytes),
        10 => carried(bytes),
        _ => Err(Stop::Malformed),
    }
}

/// An entry, and the bytes behind it.
#[tactic(auto, unfolding(entry_codec::specs::Reading::entry_at))]
fn entry(alloc: Global, bytes: &[u8]) -> Result<(Entry, &[u8]), Stop>
    ensures { Reads (λ x. (x.0, x.1.now)) result (entry_at bytes.now) }
{
    let (at, rest) = moment(bytes)?;
    let (tag, rest) = number_1(rest)?;
    let (what, rest) = what(alloc, tag, rest)?;
    Ok((Entry { at, what }, rest))
}

/// Adds the entries of a payload to a list, and says whether the payload is made of entries. Where it isn't, some may
/// have been added.
pub(crate) fn add_entries(
    alloc: Global,
    payload: &[u8],
    entries: &mut Vec<Entry>,
) -> Result<bool, Memory>
    ensures { IfOk result (IsAdded payload.now entries.old.items entries.new.items) }
{
    let mut rest = payload;
    while !rest.is_empty() {
        match entry(alloc, rest) {
            Ok((one, behind)) => {
                entries.push(one)?;
                rest = behind;
            }
            Err(Stop::Malformed) => return Ok(false),
            Err(Stop::OutOfMemory) => return Err(Memory),
        }
    }
    Ok(true)
}
