//! The parts of an entry from the front of some bytes: each with the bytes behind it.

ghost use Rattle.std.specs.Prelude.{◌≡◌, true};
ghost use Rattle.entry_codec.specs.Reading.{bar_at, fate_at, id_at, key_at, miss_at, moment_at, name_at, range_at, rate_at, settings_at, skip_fate_at, stage_at, suspect_at, suspects_at, up_to_at, verdict_at};
ghost use Rattle.audit_check.specs.Reads.{Reads};

use crate::fields::{number_1, number_2, number_4, number_8, number_16, part};
use crate::stop::Stop;
use crate::values::{
    bar_of, fate_of, id_of, miss_of, moment_of, name_of, rate_of, settings_of, skip_fate_of,
    stage_of, verdict_of,
};
use farm_entry::{Fate, Settings, SkipFate};
use farm_types::{CommitId, Key, Moment, Name, Stage};
use flake_rate::{Bar, Miss, Rate};
use std::alloc::Global;
use suspect_range::{Suspect, SuspectRange};
use weight_exact::Verdict;

/// The key of a request: 16 bytes.
#[tactic(auto, unfolding(entry_codec::specs::Reading::key_at))]
pub(crate) fn key(bytes: &[u8]) -> Result<(Key, &[u8]), Stop>
    ensures { Reads (λ x. (x.0, x.1.now)) result (key_at bytes.now) }
{
    let (number, rest) = number_16(bytes)?;
    Ok((Key(number), rest))
}

/// A moment: 8 bytes, in milliseconds since 1970-01-01 in UTC.
#[tactic(auto, unfolding(entry_codec::specs::Reading::moment_at))]
pub(crate) fn moment(bytes: &[u8]) -> Result<(Moment, &[u8]), Stop>
    ensures { Reads (λ x. (x.0, x.1.now)) result (moment_at bytes.now) }
{
    let (ms, rest) = number_8(bytes)?;
    match moment_of(ms) {
        Some(moment) => Ok((moment, rest)),
        None => Err(Stop::Malformed),
    }
}

/// The id of a commit: 20 bytes.
#[tactic(auto, unfolding(entry_codec::specs::Reading::bytes_at, entry_codec::specs::Reading::id_at))]
pub(crate) fn commit(bytes: &[u8]) -> Result<(CommitId, &[u8]), Stop>
    ensures { Reads (λ x. (x.0, x.1.now)) result (id_at bytes.now) }
{
    match bytes.split_first_chunk() {
        Some((front, rest)) => Ok((id_of(front), rest)),
        None => Err(Stop::Malformed),
    }
}

/// A name: its length in one byte, and its bytes.
#[tactic(auto, unfolding(entry_codec::specs::Reading::name_at))]
pub(crate) fn name(alloc: Global, bytes: &[u8]) -> Result<(Name, &[u8]), Stop>
    ensures { Reads (λ x. (x.0, x.1.now)) result (name_at bytes.now) }
{
    let (length, rest) = number_1(bytes)?;
    let (front, rest) = part(usize::from(length), rest)?;
    let name = name_of(alloc, front)?;
    Ok((name, rest))
}

/// What a run is for: 1 to find the culprit, 2 to verify it.
#[tactic(auto, unfolding(entry_codec::specs::Reading::stage_at))]
pub(crate) fn stage(bytes: &[u8]) -> Result<(Stage, &[u8]), Stop>
    ensures { Reads (λ x. (x.0, x.1.now)) result (stage_at bytes.now) }
{
    let (mark, rest) = number_1(bytes)?;
    match stage_of(mark) {
        Some(stage) => Ok((stage, rest)),
        None => Err(Stop::Malformed),
    }
}

/// What a test said: 1 that it passed, 2 that it failed.
#[tactic(auto, unfolding(entry_codec::specs::Reading::verdict_at))]
pub(crate) fn verdict(bytes: &[u8]) -> Result<(Verdict, &[u8]), Stop>
    ensures { Reads (λ x. (x.0, x.1.now)) result (verdict_at bytes.now) }
{
    let (mark, rest) = number_1(bytes)?;
    match verdict_of(mark) {
        Some(verdict) => Ok((verdict, rest)),
        None => Err(Stop::Malformed),
    }
}

/// What a report did: 1 that it counted, 2 that it came late, 3 that it went over the budget.
#[tactic(auto, unfolding(entry_codec::specs::Reading::fate_at))]
pub(crate) fn fate(bytes: &[u8]) -> Result<(Fate, &[u8]), Stop>
    ensures { Reads (λ x. (x.0, x.1.now)) result (fate_at bytes.now) }
{
    let (mark, rest) = number_1(bytes)?;
    match fate_of(mark) {
        Some(fate) => Ok((fate, rest)),
        None => Err(Stop::Malformed),
    }
}

/// What a report did that said that the tree can't be tested: 1 that it was taken, 2 that it came late.
#[tactic(auto, unfolding(entry_codec::specs::Reading::skip_fate_at))]
pub(crate) fn skip_fate(bytes: &[u8]) -> Result<(SkipFate, &[u8]), Stop>
    ensures { Reads (λ x. (x.0, x.1.now)) result (skip_fate_at bytes.now) }
{
    let (mark, rest) = number_1(bytes)?;
    match skip_fate_of(mark) {
        Some(fate) => Ok((fate, rest)),
        None => Err(Stop::Malformed),
    }
}

/// A farm's settings: the lease time (4 bytes), the orders of a day (2), the zone in minutes from the westernmost one
/// (2).
#[tactic(auto, unfolding(entry_codec::specs::Reading::settings_at))]
pub(crate) fn settings(bytes: &[u8]) -> Result<(Settings, &[u8]), Stop>
    ensures { Reads (λ x. (x.0, x.1.now)) result (settings_at bytes.now) }
{
    let (lease_ms, rest) = number_4(bytes)?;
    let (daily, rest) = number_2(rest)?;
    let (zone, rest) = number_2(rest)?;
    match settings_of(lease_ms, daily, zone) {
        Some(settings) => Ok((settings, rest)),
        None => Err(Stop::Malformed),
    }
}

/// A suspect: its commit, and its weight (2 bytes).
#[tactic(auto, unfolding(entry_codec::specs::Reading::suspect_at))]
fn suspect(bytes: &[u8]) -> Result<(Suspect, &[u8]), Stop>
    ensures { Reads (λ x. (x.0, x.1.now)) result (suspect_at bytes.now) }
{
    let (commit, rest) = commit(bytes)?;
    let (weight, rest) = number_2(rest)?;
    let weight = u32::from(weight);
    Ok((Suspect { commit, weight }, rest))
}

/// So many suspects.
fn suspects(alloc: Global, count: u16, bytes: &[u8]) -> Result<(Vec<Suspect>, &[u8]), Stop>
    ensures { Reads (λ x. (x.0.items, x.1.now)) result (suspects_at count bytes.now) }
{
    let mut found = Vec::new(alloc);
    let mut rest = bytes;
    for _ in 0..count {
        let (one, behind) = suspect(rest)?;
        found.push(one)?;
        rest = behind;
    }
    Ok((found, rest))
}

/// The suspects above their base: the base, the calm weight (4 bytes), their number (2), and they.
#[tactic(auto, unfolding(entry_codec::specs::Reading::range_at))]
pub(crate) fn range(alloc: Global, bytes: &[u8]) -> Result<(SuspectRange, &[u8]), Stop>
    ensures { Reads (λ x. (x.0, x.1.now)) result (range_at bytes.now) }
{
    let (base, rest) = commit(bytes)?;
    let (calm, rest) = number_4(rest)?;
    let (count, rest) = number_2(rest)?;
    let (suspects, rest) = suspects(alloc, count, rest)?;
    match SuspectRange::of(base, suspects, calm) {
        Ok(range) => Ok((range, rest)),
        Err(_) => Err(Stop::Malformed),
    }
}

/// A flake rate in lowest terms: two numbers of 2 bytes.
#[tactic(auto, unfolding(entry_codec::specs::Reading::rate_at))]
pub(crate) fn rate(bytes: &[u8]) -> Result<(Rate, &[u8]), Stop>
    ensures { Reads (λ x. (x.0, x.1.now)) result (rate_at bytes.now) }
{
    let (a, rest) = number_2(bytes)?;
    let (b, rest) = number_2(rest)?;
    match rate_of(a, b) {
        Some(rate) => Ok((rate, rest)),
        None => Err(Stop::Malformed),
    }
}

/// A miss rate above 0, in lowest terms, which fits a flake rate: two numbers of a byte.
#[tactic(auto, unfolding(entry_codec::specs::Reading::miss_at))]
pub(crate) fn miss(rate: Rate, bytes: &[u8]) -> Result<(Miss, &[u8]), Stop>
    ensures { Reads (λ x. (x.0, x.1.now)) result (miss_at true rate bytes.now) }
{
    let (c, rest) = number_1(bytes)?;
    let (d, rest) = number_1(rest)?;
    match miss_of(rate, c, d) {
        Some(miss) => Ok((miss, rest)),
        None => Err(Stop::Malformed),
    }
}

/// A bar: two numbers of 2 bytes.
#[tactic(auto, unfolding(entry_codec::specs::Reading::bar_at))]
pub(crate) fn bar(bytes: &[u8]) -> Result<(Bar, &[u8]), Stop>
    ensures { Reads (λ x. (x.0, x.1.now)) result (bar_at bytes.now) }
{
    let (t, rest) = number_2(bytes)?;
    let (u, rest) = number_2(rest)?;
    match bar_of(t, u) {
        Some(bar) => Ok((bar, rest)),
        None => Err(Stop::Malformed),
    }
}

/// A number from 1 to a limit, in one byte.
#[tactic(auto, unfolding(entry_codec::specs::Reading::up_to_at))]
pub(crate) fn number_up_to(limit: u32, bytes: &[u8]) -> Result<(u8, &[u8]), Stop>
    ensures { Reads (λ x. (x.0, x.1.now)) result (up_to_at limit bytes.now) }
{
    let (number, rest) = number_1(bytes)?;
    if 1 <= number && u32::from(number) <= limit {
        Ok((number, rest))
    } else {
        Err(Stop::Malformed)
    }
}
