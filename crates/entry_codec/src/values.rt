//! Values from the numbers that spell them. Each is made by its type's own call, which tests its limits.

ghost use Rattle.std.specs.Prelude.{◌≡◌, Some};
ghost use Rattle.entry_codec.specs.Gives.{Gives};
ghost use Rattle.entry_codec.specs.Values.{fate_of, fitting_miss, id_of, lowest_miss, lowest_rate, moment_of, name_of, range_of, settings_of, skip_fate_of, stage_of};
ghost use Rattle.entry_codec.specs.Values.{up_to, verdict_of};
ghost use Rattle.farm_entry.specs.Ask.{bar_of};

use crate::fault::Unread;
use crate::marks::{
    COUNTED_MARK, FAIL_MARK, LATE_MARK, OVER_MARK, PASS_MARK, SEARCH_MARK, TAKEN_MARK, VERIFY_MARK,
};
use farm_entry::{Fate, Settings, SkipFate};
use farm_types::{CommitId, ID_BYTES, Moment, Name, NameFault, Stage, ZONE_MIN_MINUTES};
use flake_rate::{Bar, Miss, Rate};
use std::alloc::Global;
use std::str;
use suspect_range::{Suspect, SuspectRange};
use weight_exact::Verdict;

/// The moment at a number of milliseconds.
pub(crate) fn moment_of(ms: u64) -> Option<Moment>
    ensures { result ≡ moment_of ms }
{
    match Moment::of(ms) {
        Ok(moment) => Some(moment),
        Err(_) => None,
    }
}

/// The id with these bytes.
pub(crate) fn id_of(bytes: &[u8; ID_BYTES]) -> CommitId
    ensures { id_of bytes.now ≡ Some result }
{
    CommitId::of(*bytes)
}

/// The name with these bytes.
pub(crate) fn name_of(alloc: Global, bytes: &[u8]) -> Result<Name, Unread>
    ensures { Gives (λ name. name) result (name_of bytes.now) }
{
    let Ok(text) = str::from_utf8(bytes) else {
        return Err(Unread::Malformed);
    };
    match Name::of(alloc, text) {
        Ok(name) => Ok(name),
        Err(NameFault::Memory) => Err(Unread::OutOfMemory),
        Err(_) => Err(Unread::Malformed),
    }
}

/// What a run is for.
pub(crate) fn stage_of(mark: u8) -> Option<Stage>
    ensures { result ≡ stage_of mark }
{
    match mark {
        SEARCH_MARK => Some(Stage::Search),
        VERIFY_MARK => Some(Stage::Verify),
        _ => None,
    }
}

/// What a test said.
pub(crate) fn verdict_of(mark: u8) -> Option<Verdict>
    ensures { result ≡ verdict_of mark }
{
    match mark {
        PASS_MARK => Some(Verdict::Pass),
        FAIL_MARK => Some(Verdict::Fail),
        _ => None,
    }
}

/// What a report did.
pub(crate) fn fate_of(mark: u8) -> Option<Fate>
    ensures { result ≡ fate_of mark }
{
    match mark {
        COUNTED_MARK => Some(Fate::Counted),
        LATE_MARK => Some(Fate::Late),
        OVER_MARK => Some(Fate::Over),
        _ => None,
    }
}

/// What a report did that says that a tree can't be tested.
pub(crate) fn skip_fate_of(mark: u8) -> Option<SkipFate>
    ensures { result ≡ skip_fate_of mark }
{
    match mark {
        TAKEN_MARK => Some(SkipFate::Taken),
        LATE_MARK => Some(SkipFate::Late),
        _ => None,
    }
}

/// The settings with three numbers, of which the last counts minutes from the westernmost zone.
pub(crate) fn settings_of(lease_ms: u32, daily: u16, zone: u16) -> Option<Settings>
    ensures { result ≡ settings_of lease_ms daily zone }
{
    let zone_minutes = i32::from(zone) + ZONE_MIN_MINUTES;
    match Settings::of(lease_ms, u32::from(daily), zone_minutes) {
        Ok(settings) => Some(settings),
        Err(_) => None,
    }
}

/// The flake rate a/b, where these are its numbers in lowest terms.
pub(crate) fn lowest_rate(a: u16, b: u16) -> Option<Rate>
    ensures { result ≡ lowest_rate a b }
{
    let (a, b) = (u32::from(a), u32::from(b));
    let Ok(rate) = Rate::of(a, b) else {
        return None;
    };
    if rate.a() == a && rate.b() == b {
        Some(rate)
    } else {
        None
    }
}

/// The miss rate c/d, where these are its numbers in lowest terms.
pub(crate) fn lowest_miss(c: u8, d: u8) -> Option<Miss>
    ensures { result ≡ lowest_miss c d }
{
    let (c, d) = (u32::from(c), u32::from(d));
    let Ok(miss) = Miss::of(c, d) else {
        return None;
    };
    if miss.c() == c && miss.d() == d {
        Some(miss)
    } else {
        None
    }
}

/// The miss rate c/d above 0, where these are its numbers in lowest terms and it fits a flake rate.
pub(crate) fn fitting_miss(rate: Rate, c: u8, d: u8) -> Option<Miss>
    ensures { result ≡ fitting_miss rate c d }
{
    let miss = lowest_miss(c, d)?;
    if 1 <= c && miss.fits(&rate) {
        Some(miss)
    } else {
        None
    }
}

/// The bar t/u.
pub(crate) fn bar_of(t: u16, u: u16) -> Option<Bar>
    ensures { result ≡ bar_of t u }
{
    match Bar::of(u32::from(t), u32::from(u)) {
        Ok(bar) => Some(bar),
        Err(_) => None,
    }
}

/// A number from 1 to a limit.
pub(crate) fn up_to(limit: u32, number: u8) -> Option<u8>
    ensures { result ≡ up_to limit number }
{
    if 1 <= number && u32::from(number) <= limit {
        Some(number)
    } else {
        None
    }
}

/// The range with these parts.
pub(crate) fn range_of(base: CommitId, calm: u32, suspects: Vec<Suspect>) -> Option<SuspectRange>
    ensures { result ≡ range_of base calm suspects.items }
{
    match SuspectRange::of(base, suspects, calm) {
        Ok(range) => Some(range),
        Err(_) => None,
    }
}
