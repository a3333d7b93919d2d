//! The parts of an entry from the front of some bytes.

ghost use Rattle.std.specs.Prelude.{◌≡◌};
ghost use Rattle.entry_codec.specs.Gives.{Gives};
ghost use Rattle.entry_codec.specs.Reading.{bar_at, fate_at, id_at, key_at, miss_at, moment_at, name_at, range_at, rate_at, settings_at, skip_fate_at, stage_at};
ghost use Rattle.entry_codec.specs.Reading.{suspect_at, suspects_at, up_to_at, verdict_at};

use crate::fault::Unread;
use crate::fields::{bytes_at, u8_at, u16_at, u32_at, u64_at, u128_at};
use crate::values::{
    bar_of, fate_of, fitting_miss, id_of, lowest_miss, lowest_rate, moment_of, name_of, range_of,
    settings_of, skip_fate_of, stage_of, up_to, verdict_of,
};
use farm_entry::{Fate, Settings, SkipFate};
use farm_types::{CommitId, Key, Moment, Name, Stage};
use flake_rate::{Bar, Miss, Rate};
use std::alloc::Global;
use suspect_range::{Suspect, SuspectRange};
use weight_exact::Verdict;

#[tactic(auto, unfolding(crate::specs::Reading::key_at))]
pub(crate) fn key_at(bytes: &[u8]) -> Result<(Key, &[u8]), Unread>
    ensures { Gives (λ x. (x.0, x.1.now)) result (key_at bytes.now) }
{
    let (number, rest) = u128_at(bytes)?;
    Ok((Key(number), rest))
}

#[tactic(auto, unfolding(crate::specs::Reading::moment_at))]
pub(crate) fn moment_at(bytes: &[u8]) -> Result<(Moment, &[u8]), Unread>
    ensures { Gives (λ x. (x.0, x.1.now)) result (moment_at bytes.now) }
{
    let (ms, rest) = u64_at(bytes)?;
    match moment_of(ms) {
        Some(moment) => Ok((moment, rest)),
        None => Err(Unread::Malformed),
    }
}

#[tactic(auto, unfolding(crate::specs::Reading::bytes_at, crate::specs::Reading::id_at))]
pub(crate) fn id_at(bytes: &[u8]) -> Result<(CommitId, &[u8]), Unread>
    ensures { Gives (λ x. (x.0, x.1.now)) result (id_at bytes.now) }
{
    match bytes.split_first_chunk() {
        Some((front, rest)) => Ok((id_of(front), rest)),
        None => Err(Unread::Malformed),
    }
}

#[tactic(auto, unfolding(crate::specs::Reading::name_at))]
pub(crate) fn name_at(alloc: Global, bytes: &[u8]) -> Result<(Name, &[u8]), Unread>
    ensures { Gives (λ x. (x.0, x.1.now)) result (name_at bytes.now) }
{
    let (count, rest) = u8_at(bytes)?;
    let (text, rest) = bytes_at(count as usize, rest)?;
    let name = name_of(alloc, text)?;
    Ok((name, rest))
}

#[tactic(auto, unfolding(crate::specs::Reading::stage_at))]
pub(crate) fn stage_at(bytes: &[u8]) -> Result<(Stage, &[u8]), Unread>
    ensures { Gives (λ x. (x.0, x.1.now)) result (stage_at bytes.now) }
{
    let (mark, rest) = u8_at(bytes)?;
    match stage_of(mark) {
        Some(stage) => Ok((stage, rest)),
        None => Err(Unread::Malformed),
    }
}

#[tactic(auto, unfolding(crate::specs::Reading::verdict_at))]
pub(crate) fn verdict_at(bytes: &[u8]) -> Result<(Verdict, &[u8]), Unread>
    ensures { Gives (λ x. (x.0, x.1.now)) result (verdict_at bytes.now) }
{
    let (mark, rest) = u8_at(bytes)?;
    match verdict_of(mark) {
        Some(verdict) => Ok((verdict, rest)),
        None => Err(Unread::Malformed),
    }
}

#[tactic(auto, unfolding(crate::specs::Reading::fate_at))]
pub(crate) fn fate_at(bytes: &[u8]) -> Result<(Fate, &[u8]), Unread>
    ensures { Gives (λ x. (x.0, x.1.now)) result (fate_at bytes.now) }
{
    let (mark, rest) = u8_at(bytes)?;
    match fate_of(mark) {
        Some(fate) => Ok((fate, rest)),
        None => Err(Unread::Malformed),
    }
}

#[tactic(auto, unfolding(crate::specs::Reading::skip_fate_at))]
pub(crate) fn skip_fate_at(bytes: &[u8]) -> Result<(SkipFate, &[u8]), Unread>
    ensures { Gives (λ x. (x.0, x.1.now)) result (skip_fate_at bytes.now) }
{
    let (mark, rest) = u8_at(bytes)?;
    match skip_fate_of(mark) {
        Some(fate) => Ok((fate, rest)),
        None => Err(Unread::Malformed),
    }
}

#[tactic(auto, unfolding(crate::specs::Reading::settings_at))]
pub(crate) fn settings_at(bytes: &[u8]) -> Result<(Settings, &[u8]), Unread>
    ensures { Gives (λ x. (x.0, x.1.now)) result (settings_at bytes.now) }
{
    let (lease_ms, rest) = u32_at(bytes)?;
    let (daily, rest) = u16_at(rest)?;
    let (zone, rest) = u16_at(rest)?;
    match settings_of(lease_ms, daily, zone) {
        Some(settings) => Ok((settings, rest)),
        None => Err(Unread::Malformed),
    }
}

#[tactic(auto, unfolding(crate::specs::Reading::suspect_at))]
fn suspect_at(bytes: &[u8]) -> Result<(Suspect, &[u8]), Unread>
    ensures { Gives (λ x. (x.0, x.1.now)) result (suspect_at bytes.now) }
{
    let (commit, rest) = id_at(bytes)?;
    let (weight, rest) = u16_at(rest)?;
    let weight = u32::from(weight);
    Ok((Suspect { commit, weight }, rest))
}

/// So many suspects.
fn suspects_at(alloc: Global, count: u16, bytes: &[u8]) -> Result<(Vec<Suspect>, &[u8]), Unread>
    ensures { Gives (λ x. (x.0.items, x.1.now)) result (suspects_at count bytes.now) }
{
    let mut suspects = Vec::new(alloc);
    let mut rest = bytes;
    for _ in 0..count {
        let (suspect, after) = suspect_at(rest)?;
        suspects.push(suspect)?;
        rest = after;
    }
    Ok((suspects, rest))
}

#[tactic(auto, unfolding(crate::specs::Reading::range_at))]
pub(crate) fn range_at(alloc: Global, bytes: &[u8]) -> Result<(SuspectRange, &[u8]), Unread>
    ensures { Gives (λ x. (x.0, x.1.now)) result (range_at bytes.now) }
{
    let (base, rest) = id_at(bytes)?;
    let (calm, rest) = u32_at(rest)?;
    let (count, rest) = u16_at(rest)?;
    let (suspects, rest) = suspects_at(alloc, count, rest)?;
    match range_of(base, calm, suspects) {
        Some(range) => Ok((range, rest)),
        None => Err(Unread::Malformed),
    }
}

#[tactic(auto, unfolding(crate::specs::Reading::rate_at))]
pub(crate) fn rate_at(bytes: &[u8]) -> Result<(Rate, &[u8]), Unread>
    ensures { Gives (λ x. (x.0, x.1.now)) result (rate_at bytes.now) }
{
    let (a, rest) = u16_at(bytes)?;
    let (b, rest) = u16_at(rest)?;
    match lowest_rate(a, b) {
        Some(rate) => Ok((rate, rest)),
        None => Err(Unread::Malformed),
    }
}

/// The miss rate of an opening with a flake rate: 0, which isn't spelled, or one above it.
#[tactic(auto, unfolding(crate::specs::Reading::miss_at))]
pub(crate) fn miss_at(above_zero: bool, rate: Rate, bytes: &[u8]) -> Result<(Miss, &[u8]), Unread>
    ensures { Gives (λ x. (x.0, x.1.now)) result (miss_at above_zero rate bytes.now) }
{
    if !above_zero {
        return Ok((Miss::none(), bytes));
    }
    let (c, rest) = u8_at(bytes)?;
    let (d, rest) = u8_at(rest)?;
    match fitting_miss(rate, c, d) {
        Some(miss) => Ok((miss, rest)),
        None => Err(Unread::Malformed),
    }
}

#[tactic(auto, unfolding(crate::specs::Reading::bar_at))]
pub(crate) fn bar_at(bytes: &[u8]) -> Result<(Bar, &[u8]), Unread>
    ensures { Gives (λ x. (x.0, x.1.now)) result (bar_at bytes.now) }
{
    let (t, rest) = u16_at(bytes)?;
    let (u, rest) = u16_at(rest)?;
    match bar_of(t, u) {
        Some(bar) => Ok((bar, rest)),
        None => Err(Unread::Malformed),
    }
}

/// A number from 1 to a limit, in one byte.
#[tactic(auto, unfolding(crate::specs::Reading::up_to_at))]
pub(crate) fn up_to_at(limit: u32, bytes: &[u8]) -> Result<(u8, &[u8]), Unread>
    ensures { Gives (λ x. (x.0, x.1.now)) result (up_to_at limit bytes.now) }
{
    let (number, rest) = u8_at(bytes)?;
    match up_to(limit, number) {
        Some(number) => Ok((number, rest)),
        None => Err(Unread::Malformed),
    }
}
