//! Entries as bytes.

ghost use Rattle.std.specs.Prelude.{◌≡◌, ◌^◌, ◌<◌, ◌++◌, All, OnOk, IfOk};
ghost use Rattle.std.specs.List.{flat_map};
ghost use Rattle.entry_codec.specs.Grammar.{AreSpelled, HasSpelling, IsOpenedWithin, IsOpening, IsWithinLimits};
ghost use Rattle.entry_codec.specs.Spelling.{bar_bytes, entry_bytes, fate_mark, fields_of, miss_bytes, name_bytes, number_bytes, opening_bytes, range_bytes, rate_bytes, settings_bytes, skip_fate_mark, spelling, stage_mark};
ghost use Rattle.entry_codec.specs.Spelling.{suspect_bytes, tag_of, verdict_mark, zone_number};
ghost use Rattle.farm_types.specs.CommitId.{id_bytes};
ghost use Rattle.farm_types.specs.Limits.{IsName};
ghost use Rattle.suspect_range.specs.Range.{IsSuspectRange};

use crate::marks::{
    CANCELLED_TAG, CARRIED_TAG, CLOSED_TAG, COUNTED_MARK, FAIL_MARK, FOUNDED_TAG, LATE_MARK,
    LEASED_TAG, OPENED_TAG, OPENED_WITH_MISS_TAG, ORDERED_TAG, OVER_MARK, PASS_MARK, REPORTED_TAG,
    SEARCH_MARK, SKIPPED_TAG, TAKEN_MARK, VERIFY_MARK,
};
use farm_entry::{Entry, Fate, Opening, Settings, SkipFate, What};
use farm_types::{CommitId, Memory, Name, Stage, ZONE_MIN_MINUTES};
use flake_rate::{Bar, Miss, Rate};
use std::alloc::Global;
use std::ops::Deref;
use suspect_range::{Suspect, SuspectRange};
use weight_exact::Verdict;

/// The room that is taken at first: one entry that opens no search and has a short name fits into so many bytes.
const SHORT_ENTRIES: usize = 64;

// An entry has several numbers, and a call takes longer than a number's bytes.

#[inline(always)]
#[tactic(auto, unfolding(crate::specs::Spelling::number_bytes))]
fn put_u8(out: &mut Vec<u8>, number: u8) -> Result<(), Memory>
    ensures bytes { OnOk result (out.new.items ≡ out.old.items ++ number_bytes 1 number) }
    ensures small { number < 2 ^ 8 }
{
    out.extend_from_slice(&number.to_be_bytes())?;
    Ok(())
}

#[inline(always)]
#[tactic(auto, unfolding(crate::specs::Spelling::number_bytes))]
fn put_u16(out: &mut Vec<u8>, number: u16) -> Result<(), Memory>
    ensures bytes { OnOk result (out.new.items ≡ out.old.items ++ number_bytes 2 number) }
    ensures small { number < 2 ^ 16 }
{
    out.extend_from_slice(&number.to_be_bytes())?;
    Ok(())
}

#[inline(always)]
#[tactic(auto, unfolding(crate::specs::Spelling::number_bytes))]
fn put_u32(out: &mut Vec<u8>, number: u32) -> Result<(), Memory>
    ensures bytes { OnOk result (out.new.items ≡ out.old.items ++ number_bytes 4 number) }
    ensures small { number < 2 ^ 32 }
{
    out.extend_from_slice(&number.to_be_bytes())?;
    Ok(())
}

#[inline(always)]
#[tactic(auto, unfolding(crate::specs::Spelling::number_bytes))]
fn put_u64(out: &mut Vec<u8>, number: u64) -> Result<(), Memory>
    ensures bytes { OnOk result (out.new.items ≡ out.old.items ++ number_bytes 8 number) }
    ensures small { number < 2 ^ 64 }
{
    out.extend_from_slice(&number.to_be_bytes())?;
    Ok(())
}

#[inline(always)]
#[tactic(auto, unfolding(crate::specs::Spelling::number_bytes))]
fn put_u128(out: &mut Vec<u8>, number: u128) -> Result<(), Memory>
    ensures bytes { OnOk result (out.new.items ≡ out.old.items ++ number_bytes 16 number) }
    ensures small { number < 2 ^ 128 }
{
    out.extend_from_slice(&number.to_be_bytes())?;
    Ok(())
}

fn put_id(out: &mut Vec<u8>, id: CommitId) -> Result<(), Memory>
    ensures { OnOk result (out.new.items ≡ out.old.items ++ id_bytes id) }
{
    out.extend_from_slice(&id.bytes())?;
    Ok(())
}

fn put_name(out: &mut Vec<u8>, name: &Name) -> Result<(), Memory>
    ensures bytes { OnOk result (out.new.items ≡ out.old.items ++ name_bytes name.now) }
    ensures legal { IsName name.now }
{
    let text = name.text();
    put_u8(out, text.len() as u8)?;
    out.extend_from_slice(text.as_bytes())?;
    Ok(())
}

fn stage_mark(stage: Stage) -> u8
    ensures { result ≡ stage_mark stage }
{
    match stage {
        Stage::Search => SEARCH_MARK,
        Stage::Verify => VERIFY_MARK,
    }
}

fn verdict_mark(verdict: Verdict) -> u8
    ensures { result ≡ verdict_mark verdict }
{
    match verdict {
        Verdict::Pass => PASS_MARK,
        Verdict::Fail => FAIL_MARK,
    }
}

fn fate_mark(fate: Fate) -> u8
    ensures { result ≡ fate_mark fate }
{
    match fate {
        Fate::Counted => COUNTED_MARK,
        Fate::Late => LATE_MARK,
        Fate::Over => OVER_MARK,
    }
}

fn skip_fate_mark(fate: SkipFate) -> u8
    ensures { result ≡ skip_fate_mark fate }
{
    match fate {
        SkipFate::Taken => TAKEN_MARK,
        SkipFate::Late => LATE_MARK,
    }
}

/// How far the zone of settings lies east of the westernmost one, in minutes.
fn zone_number(settings: Settings) -> u16
    ensures { result ≡ zone_number settings }
{
    settings.zone_minutes().abs_diff(ZONE_MIN_MINUTES) as u16
}

fn put_settings(out: &mut Vec<u8>, settings: Settings) -> Result<(), Memory>
    ensures { OnOk result (out.new.items ≡ out.old.items ++ settings_bytes settings) }
{
    put_u32(out, settings.lease_ms())?;
    put_u16(out, settings.daily() as u16)?;
    put_u16(out, zone_number(settings))
}

fn put_suspect(out: &mut Vec<u8>, suspect: Suspect) -> Result<(), Memory>
    requires { suspect.weight < 2 ^ 16 }
    ensures { OnOk result (out.new.items ≡ out.old.items ++ suspect_bytes suspect) }
{
    put_id(out, suspect.commit)?;
    put_u16(out, suspect.weight as u16)
}

fn put_suspects(out: &mut Vec<u8>, suspects: &[Suspect]) -> Result<(), Memory>
    requires { All (λ suspect. suspect.weight < 2 ^ 16) suspects.now }
    ensures { OnOk result (out.new.items ≡ out.old.items ++ flat_map suspect_bytes suspects.now) }
{
    for suspect in suspects {
        put_suspect(out, *suspect)?;
    }
    Ok(())
}

fn put_range(out: &mut Vec<u8>, range: &SuspectRange) -> Result<(), Memory>
    ensures bytes { OnOk result (out.new.items ≡ out.old.items ++ range_bytes range.now) }
    ensures legal { IsSuspectRange range.now.base range.now.suspects range.now.calm }
{
    let suspects = range.suspects();
    put_id(out, range.commit(0))?;
    put_u32(out, range.calm())?;
    put_u16(out, suspects.len() as u16)?;
    put_suspects(out, suspects)
}

fn put_rate(out: &mut Vec<u8>, rate: Rate) -> Result<(), Memory>
    ensures { OnOk result (out.new.items ≡ out.old.items ++ rate_bytes rate) }
{
    put_u16(out, rate.a() as u16)?;
    put_u16(out, rate.b() as u16)
}

fn put_miss(out: &mut Vec<u8>, miss: Miss) -> Result<(), Memory>
    ensures { OnOk result (out.new.items ≡ out.old.items ++ miss_bytes miss) }
{
    if miss.c() == 0 {
        return Ok(());
    }
    put_u8(out, miss.c() as u8)?;
    put_u8(out, miss.d() as u8)
}

fn put_bar(out: &mut Vec<u8>, bar: Bar) -> Result<(), Memory>
    ensures { OnOk result (out.new.items ≡ out.old.items ++ bar_bytes bar) }
{
    put_u16(out, bar.t() as u16)?;
    put_u16(out, bar.u() as u16)
}

fn put_opening(out: &mut Vec<u8>, opening: &Opening) -> Result<(), Memory>
    requires { IsOpenedWithin opening.now }
    ensures bytes { OnOk result (out.new.items ≡ out.old.items ++ opening_bytes opening.now) }
    ensures spelled { OnOk result (IsOpening opening.now) }
{
    put_u128(out, opening.key.0)?;
    put_u32(out, opening.search)?;
    put_name(out, &opening.test)?;
    put_range(out, &opening.range)?;
    put_rate(out, opening.rate)?;
    put_miss(out, opening.miss)?;
    put_bar(out, opening.bar)?;
    put_u8(out, opening.width)?;
    put_u8(out, opening.reruns)
}

/// The tag of an entry.
fn tag_of(what: &What) -> u8
    ensures { result ≡ tag_of what.now }
{
    match what {
        What::Founded { .. } => FOUNDED_TAG,
        What::Opened(opening) => {
            if opening.deref().miss.c() == 0 {
                OPENED_TAG
            } else {
                OPENED_WITH_MISS_TAG
            }
        }
        What::Leased { .. } => LEASED_TAG,
        What::Reported { .. } => REPORTED_TAG,
        What::Skipped { .. } => SKIPPED_TAG,
        What::Cancelled { .. } => CANCELLED_TAG,
        What::Ordered { .. } => ORDERED_TAG,
        What::Carried { .. } => CARRIED_TAG,
        What::Closed => CLOSED_TAG,
    }
}

/// What stands after the tag of an entry.
fn put_fields(out: &mut Vec<u8>, what: &What) -> Result<(), Memory>
    requires { IsWithinLimits what.now }
    ensures bytes { OnOk result (out.new.items ≡ out.old.items ++ fields_of what.now) }
    ensures spelled { OnOk result (HasSpelling what.now) }
{
    match what {
        What::Founded { settings } => put_settings(out, *settings),
        What::Opened(opening) => put_opening(out, opening.deref()),
        What::Leased {
            key,
            worker,
            run,
            search,
            stage,
            position,
            deadline,
        } => {
            put_u128(out, key.0)?;
            put_name(out, worker)?;
            put_u32(out, *run)?;
            put_u32(out, *search)?;
            put_u8(out, stage_mark(*stage))?;
            put_u16(out, *position)?;
            put_u64(out, *deadline)
        }
        What::Reported { run, verdict, fate } => {
            put_u32(out, *run)?;
            put_u8(out, verdict_mark(*verdict))?;
            put_u8(out, fate_mark(*fate))
        }
        What::Skipped { run, fate } => {
            put_u32(out, *run)?;
            put_u8(out, skip_fate_mark(*fate))
        }
        What::Cancelled { key, search } => {
            put_u128(out, key.0)?;
            put_u32(out, *search)
        }
        What::Ordered {
            key,
            agent,
            order,
            commit,
            search,
            day,
        } => {
            put_u128(out, key.0)?;
            put_name(out, agent)?;
            put_u32(out, *order)?;
            put_id(out, *commit)?;
            put_u32(out, *search)?;
            put_u32(out, *day)
        }
        What::Carried { commit, day } => {
            put_id(out, *commit)?;
            put_u32(out, *day)
        }
        What::Closed => Ok(()),
    }
}

pub(crate) fn put_entry(out: &mut Vec<u8>, entry: &Entry) -> Result<(), Memory>
    requires { IsWithinLimits entry.now.what }
    ensures bytes { OnOk result (out.new.items ≡ out.old.items ++ entry_bytes entry.now) }
    ensures spelled { OnOk result (HasSpelling entry.now.what) }
{
    put_u64(out, entry.at.ms())?;
    put_u8(out, tag_of(&entry.what))?;
    put_fields(out, &entry.what)
}

/// The spelling of entries, of which each opening is as in every legal history: its width and reruns are within their
/// limits, and its miss rate fits its flake rate.
pub fn write_entries(alloc: Global, entries: &[Entry]) -> Result<Vec<u8>, Memory>
    requires { All (λ entry. IsWithinLimits entry.what) entries.now }
    ensures spelled { IfOk result (λ bytes. bytes.items ≡ spelling entries.now) }
    // Each of them has a spelling, so that reading gives these entries and no others.
    ensures readable { OnOk result (AreSpelled entries.now) }
{
    let mut out = Vec::with_capacity(alloc, SHORT_ENTRIES)?;
    write_entries_into(&mut out, entries)?;
    Ok(out)
}

/// Makes of some bytes, whose room serves for it, the spelling of entries: the same as [`write_entries`] gives.
pub fn write_entries_into(out: &mut Vec<u8>, entries: &[Entry]) -> Result<(), Memory>
    requires { All (λ entry. IsWithinLimits entry.what) entries.now }
    ensures spelled { OnOk result (out.new.items ≡ spelling entries.now) }
    ensures readable { OnOk result (AreSpelled entries.now) }
{
    out.clear();
    for entry in entries {
        put_entry(out, entry)?;
    }
    Ok(())
}
