//! Values from the numbers and the bytes that they are written as. Each is made by its type's own call, which tests its
//! limits.

ghost use Rattle.std.specs.Prelude.{◌≡◌, Some};
ghost use Rattle.entry_codec.specs.Values.{fate_of, fitting_miss, id_of, lowest_miss, lowest_rate, moment_of, name_of, settings_of, skip_fate_of, stage_of, verdict_of};
ghost use Rattle.farm_entry.specs.Ask.{bar_of};
ghost use Rattle.audit_check.specs.Reads.{Reads};

use crate::stop::Stop;
use farm_entry::{Fate, Settings, SkipFate};
use farm_types::{CommitId, Moment, Name, NameFault, Stage, ZONE_MIN_MINUTES};
use flake_rate::{Bar, Miss, Rate};
use std::alloc::Global;
use std::str;
use weight_exact::Verdict;

/// The moment that lies so many milliseconds after the start of 1970 in UTC.
pub(crate) fn moment_of(ms: u64) -> Option<Moment>
    ensures { result ≡ moment_of ms }
{
    match Moment::of(ms) {
        Ok(moment) => Some(moment),
        Err(_) => None,
    }
}

/// The id of a commit with these bytes.
pub(crate) fn id_of(bytes: &[u8; 20]) -> CommitId
    ensures { id_of bytes.now ≡ Some result }
{
    CommitId::of(*bytes)
}

/// The name with these bytes.
pub(crate) fn name_of(alloc: Global, bytes: &[u8]) -> Result<Name, Stop>
    ensures { Reads (λ name. name) result (name_of bytes.now) }
{
    let Ok(text) = str::from_utf8(bytes) else {
        return Err(Stop::Malformed);
    };
    match Name::of(alloc, text) {
        Ok(name) => Ok(name),
        Err(NameFault::Memory) => Err(Stop::OutOfMemory),
        Err(_) => Err(Stop::Malformed),
    }
}

/// What a run is for: 1 to find the culprit, 2 to verify it.
pub(crate) fn stage_of(mark: u8) -> Option<Stage>
    ensures { result ≡ stage_of mark }
{
    match mark {
        1 => Some(Stage::Search),
        2 => Some(Stage::Verify),
        _ => None,
    }
}

/// What a test said: 1 that it passed, 2 that it failed.
pub(crate) fn verdict_of(mark: u8) -> Option<Verdict>
    ensures { result ≡ verdict_of mark }
{
    match mark {
        1 => Some(Verdict::Pass),
        2 => Some(Verdict::Fail),
        _ => None,
    }
}

/// What a report did: 1 that it counted, 2 that it came late, 3 that it went over the budget.
pub(crate) fn fate_of(mark: u8) -> Option<Fate>
    ensures { result ≡ fate_of mark }
{
    match mark {
        1 => Some(Fate::Counted),
        2 => Some(Fate::Late),
        3 => Some(Fate::Over),
        _ => None,
    }
}

/// What a report did that said that the tree can't be tested: 1 that it was taken, 2 that it came late.
pub(crate) fn skip_fate_of(mark: u8) -> Option<SkipFate>
    ensures { result ≡ skip_fate_of mark }
{
    match mark {
        1 => Some(SkipFate::Taken),
        2 => Some(SkipFate::Late),
        _ => None,
    }
}

/// Settings: the lease time in milliseconds, the orders of a day, the zone in minutes from the westernmost one.
pub(crate) fn settings_of(lease_ms: u32, daily: u16, zone: u16) -> Option<Settings>
    ensures { result ≡ settings_of lease_ms daily zone }
{
    let zone_minutes = i32::from(zone) + ZONE_MIN_MINUTES;
    match Settings::of(lease_ms, u32::from(daily), zone_minutes) {
        Ok(settings) => Some(settings),
        Err(_) => None,
    }
}

/// The flake rate a/b, which is written in lowest terms.
pub(crate) fn rate_of(a: u16, b: u16) -> Option<Rate>
    ensures { result ≡ lowest_rate a b }
{
    let (a, b) = (u32::from(a), u32::from(b));
    let Ok(rate) = Rate::of(a, b) else {
        return None;
    };
    if rate.a() == a && rate.b() == b {
        Some(rate)
    } else {
        None
    }
}

/// The miss rate c/d, which is written in lowest terms.
fn lowest_miss(c: u8, d: u8) -> Option<Miss>
    ensures { result ≡ lowest_miss c d }
{
    let (c, d) = (u32::from(c), u32::from(d));
    let Ok(miss) = Miss::of(c, d) else {
        return None;
    };
    if miss.c() == c && miss.d() == d {
        Some(miss)
    } else {
        None
    }
}

/// The miss rate c/d above 0, which fits a flake rate.
pub(crate) fn miss_of(rate: Rate, c: u8, d: u8) -> Option<Miss>
    ensures { result ≡ fitting_miss rate c d }
{
    let miss = lowest_miss(c, d)?;
    if 1 <= c && miss.fits(&rate) {
        Some(miss)
    } else {
        None
    }
}

/// The bar t/u.
pub(crate) fn bar_of(t: u16, u: u16) -> Option<Bar>
    ensures { result ≡ bar_of t u }
{
    match Bar::of(u32::from(t), u32::from(u)) {
        Ok(bar) => Some(bar),
        Err(_) => None,
    }
}
