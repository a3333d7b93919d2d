//! Entries from the front of some bytes.

ghost use Rattle.std.specs.Prelude.{◌≡◌};
ghost use Rattle.entry_codec.specs.Gives.{Gives};
ghost use Rattle.entry_codec.specs.Reading.{cancelled_at, carried_at, entry_at, founded_at, leased_at, opened_at, opening_at, ordered_at};
ghost use Rattle.entry_codec.specs.Reading.{reported_at, skipped_at, what_at};

use crate::fault::Unread;
use crate::fields::{u8_at, u16_at, u32_at, u64_at};
use crate::marks::{
    CANCELLED_TAG, CARRIED_TAG, CLOSED_TAG, FOUNDED_TAG, LEASED_TAG, OPENED_TAG,
    OPENED_WITH_MISS_TAG, ORDERED_TAG, REPORTED_TAG, SKIPPED_TAG,
};
use crate::parts::{
    bar_at, fate_at, id_at, key_at, miss_at, moment_at, name_at, range_at, rate_at, settings_at,
    skip_fate_at, stage_at, up_to_at, verdict_at,
};
use farm_entry::{BoxedOpening, Entry, MAX_RERUNS, Opening, What};
use std::alloc::Global;
use weight_exact::MAX_WIDTH;

#[tactic(auto, unfolding(crate::specs::Reading::opening_at))]
fn opening_at(alloc: Global, above_zero: bool, bytes: &[u8]) -> Result<(Opening, &[u8]), Unread>
    ensures { Gives (λ x. (x.0, x.1.now)) result (opening_at above_zero bytes.now) }
{
    let (key, rest) = key_at(bytes)?;
    let (search, rest) = u32_at(rest)?;
    let (test, rest) = name_at(alloc, rest)?;
    let (range, rest) = range_at(alloc, rest)?;
    let (rate, rest) = rate_at(rest)?;
    let (miss, rest) = miss_at(above_zero, rate, rest)?;
    let (bar, rest) = bar_at(rest)?;
    let (width, rest) = up_to_at(u32::from(MAX_WIDTH), rest)?;
    let (reruns, rest) = up_to_at(MAX_RERUNS, rest)?;
    let opening = Opening {
        key,
        search,
        test,
        range,
        rate,
        miss,
        bar,
        width,
        reruns,
    };
    Ok((opening, rest))
}

#[tactic(auto, unfolding(crate::specs::Reading::founded_at))]
fn founded_at(bytes: &[u8]) -> Result<(What, &[u8]), Unread>
    ensures { Gives (λ x. (x.0, x.1.now)) result (founded_at bytes.now) }
{
    let (settings, rest) = settings_at(bytes)?;
    Ok((What::Founded { settings }, rest))
}

#[tactic(auto, unfolding(crate::specs::Reading::opened_at))]
fn opened_at(alloc: Global, above_zero: bool, bytes: &[u8]) -> Result<(What, &[u8]), Unread>
    ensures { Gives (λ x. (x.0, x.1.now)) result (opened_at above_zero bytes.now) }
{
    let (opening, rest) = opening_at(alloc, above_zero, bytes)?;
    match BoxedOpening::of(alloc, opening) {
        Ok(opening) => Ok((What::Opened(opening), rest)),
        Err(_) => Err(Unread::OutOfMemory),
    }
}

#[tactic(auto, unfolding(crate::specs::Reading::leased_at))]
fn leased_at(alloc: Global, bytes: &[u8]) -> Result<(What, &[u8]), Unread>
    ensures { Gives (λ x. (x.0, x.1.now)) result (leased_at bytes.now) }
{
    let (key, rest) = key_at(bytes)?;
    let (worker, rest) = name_at(alloc, rest)?;
    let (run, rest) = u32_at(rest)?;
    let (search, rest) = u32_at(rest)?;
    let (stage, rest) = stage_at(rest)?;
    let (position, rest) = u16_at(rest)?;
    let (deadline, rest) = u64_at(rest)?;
    let what = What::Leased {
        key,
        worker,
        run,
        search,
        stage,
        position,
        deadline,
    };
    Ok((what, rest))
}

#[tactic(auto, unfolding(crate::specs::Reading::reported_at))]
fn reported_at(bytes: &[u8]) -> Result<(What, &[u8]), Unread>
    ensures { Gives (λ x. (x.0, x.1.now)) result (reported_at bytes.now) }
{
    let (run, rest) = u32_at(bytes)?;
    let (verdict, rest) = verdict_at(rest)?;
    let (fate, rest) = fate_at(rest)?;
    Ok((What::Reported { run, verdict, fate }, rest))
}

#[tactic(auto, unfolding(crate::specs::Reading::skipped_at))]
fn skipped_at(bytes: &[u8]) -> Result<(What, &[u8]), Unread>
    ensures { Gives (λ x. (x.0, x.1.now)) result (skipped_at bytes.now) }
{
    let (run, rest) = u32_at(bytes)?;
    let (fate, rest) = skip_fate_at(rest)?;
    Ok((What::Skipped { run, fate }, rest))
}

#[tactic(auto, unfolding(crate::specs::Reading::cancelled_at))]
fn cancelled_at(bytes: &[u8]) -> Result<(What, &[u8]), Unread>
    ensures { Gives (λ x. (x.0, x.1.now)) result (cancelled_at bytes.now) }
{
    let (key, rest) = key_at(bytes)?;
    let (search, rest) = u32_at(rest)?;
    Ok((What::Cancelled { key, search }, rest))
}

#[tactic(auto, unfolding(crate::specs::Reading::ordered_at))]
fn ordered_at(alloc: Global, bytes: &[u8]) -> Result<(What, &[u8]), Unread>
    ensures { Gives (λ x. (x.0, x.1.now)) result (ordered_at bytes.now) }
{
    let (key, rest) = key_at(bytes)?;
    let (agent, rest) = name_at(alloc, rest)?;
    let (order, rest) = u32_at(rest)?;
    let (commit, rest) = id_at(rest)?;
    let (search, rest) = u32_at(rest)?;
    let (day, rest) = u32_at(rest)?;
    let what = What::Ordered {
        key,
        agent,
        order,
        commit,
        search,
        day,
    };
    Ok((what, rest))
}

#[tactic(auto, unfolding(crate::specs::Reading::carried_at))]
fn carried_at(bytes: &[u8]) -> Result<(What, &[u8]), Unread>
    ensures { Gives (λ x. (x.0, x.1.now)) result (carried_at bytes.now) }
{
    let (commit, rest) = id_at(bytes)?;
    let (day, rest) = u32_at(rest)?;
    Ok((What::Carried { commit, day }, rest))
}

/// What stands after a tag.
#[tactic(auto, unfolding(crate::specs::Reading::what_at, crate::specs::Reading::closed_at))]
fn what_at(alloc: Global, tag: u8, bytes: &[u8]) -> Result<(What, &[u8]), Unread>
    ensures { Gives (λ x. (x.0, x.1.now)) result (what_at tag bytes.now) }
{
    match tag {
        FOUNDED_TAG => founded_at(bytes),
        OPENED_TAG => opened_at(alloc, false, bytes),
        LEASED_TAG => leased_at(alloc, bytes),
        REPORTED_TAG => reported_at(bytes),
        CANCELLED_TAG => cancelled_at(bytes),
        ORDERED_TAG => ordered_at(alloc, bytes),
        OPENED_WITH_MISS_TAG => opened_at(alloc, true, bytes),
        SKIPPED_TAG => skipped_at(bytes),
        CLOSED_TAG => Ok((What::Closed, bytes)),
        CARRIED_TAG => carried_at(bytes),
        _ => Err(Unread::Malformed),
    }
}

/// An entry, and the bytes after it.
#[tactic(auto, unfolding(crate::specs::Reading::entry_at))]
pub(crate) fn entry_at(alloc: Global, bytes: &[u8]) -> Result<(Entry, &[u8]), Unread>
    ensures { Gives (λ x. (x.0, x.1.now)) result (entry_at bytes.now) }
{
    let (at, rest) = moment_at(bytes)?;
    let (tag, rest) = u8_at(rest)?;
    let (what, rest) = what_at(alloc, tag, rest)?;
    Ok((Entry { at, what }, rest))
}
