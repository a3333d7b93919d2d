//! The subcommand that the program's words name.

ghost use Rattle.std.specs.Prelude.{◌≡◌, ◌≤◌, ◌^◌, ℕ, ℤ, pos, Some, IfOk, IfSome, IfNone, map, string_bytes};
ghost use Rattle.std.specs.Option.{option_map};
ghost use Rattle.farm_entry.specs.Limits.{IsZone};
ghost use Rattle.common_types.specs.Decimals.{number};
ghost use Rattle.finder_words.specs.Words.{
  HasRanges,
  asked,
  asked_by,
  asked_of,
  count_named,
  drill_asked,
  evidence_asked,
  follow_asked,
  founding_asked,
  inheriting_asked,
  names_runner,
  serve_asked,
  work_asked,
  zone_named,
};
ghost use Rattle.finder_words.specs.Forms.{words_of};

use crate::counts::{MAX_HANDLERS, MAX_LINKS, MAX_NUMBER, MAX_ROUNDS, MAX_RUNS, read_count};
use crate::{Matched, match_words};
use common_types::number;
use drill_plan::MAX_WORKERS;
use farm_entry::{MAX_SEARCHES, Settings};
use farm_types::{Memory, Name, NameFault};
use std::alloc::Global;

/// A subcommand of the program.
#[derive(Drop)]
pub enum Subcommand {
    /// `judge`: answers one search's lines.
    Judge,
    /// `run`: answers a script's lines from a farm in memory.
    Run,
    /// `found JOURNAL LEASE_MS DAILY ZONE`: founds a journal with these settings.
    Found(Settings),
    /// `show JOURNAL`: shows the farm of a journal and its searches.
    Show,
    /// `run JOURNAL`: answers a script's lines from the farm of a journal.
    RunJournal,
    /// `audit`: says what a journal's bytes hold.
    Audit,
    /// `serve JOURNAL ADDRESS HANDLERS LINKS`: answers the calls of a journal's farm over HTTP.
    Serve {
        /// How many threads serve, from 1 to [`MAX_HANDLERS`].
        handlers: u8,
        /// How many accepts are made at most, from 1 to [`MAX_LINKS`].
        links: u64,
    },
    /// `work ADDRESS WORKER RUNS RUNNER`: leases runs, and reports what a runner says.
    Work {
        /// The worker's name.
        worker: Name,
        /// How many runs are leased at most, from 1 to [`MAX_RUNS`].
        runs: u32,
    },
    /// `rates JOURNAL`: tells the flake rates that a journal's ended searches tell of.
    Rates,
    /// `drill SEARCHES WORKERS`: plays a whole farm from two numbers.
    Drill {
        /// How many searches it opens, from 1 to [`MAX_SEARCHES`].
        searches: u32,
        /// How many workers it has, from 1 to [`MAX_WORKERS`].
        workers: u32,
    },
    /// `follow JOURNAL ADDRESS ROUNDS`: copies the journal of a service.
    Follow {
        /// How often it asks for entries at most, from 1 to [`MAX_ROUNDS`].
        rounds: u32,
    },
    /// `evidence JOURNAL SEARCH`: writes the evidence of a search, as `judge` reads it.
    Evidence {
        /// The number of the search, from 1 to [`MAX_NUMBER`].
        search: u32,
    },
    /// `close JOURNAL`: closes the farm of a journal, and writes what it hands over.
    Close,
    /// `inherit JOURNAL LEASE_MS DAILY ZONE`: founds a journal with these settings and with the orders that the input
    /// hands over.
    Inherit(Settings),
}

/// The subcommand that these words name, if they name one.
///
/// # Errors
///
/// [`Memory`].
pub fn read_subcommand(alloc: Global, words: &[String]) -> Result<Option<Subcommand>, Memory>
    ensures asked { IfOk result (λ subcommand. option_map asked_by subcommand ≡ asked (map string_bytes words.now)) }
    ensures ranges { IfOk result (λ subcommand. IfSome subcommand HasRanges) }
{
    match match_words(alloc, words)? {
        Some(matched) => read_matched(alloc, matched),
        None => Ok(None),
    }
}

/// The subcommand that matched words name, where each number is in its range.
pub(crate) fn read_matched(alloc: Global, matched: Matched) -> Result<Option<Subcommand>, Memory>
    ensures asked { IfOk result (λ subcommand. option_map asked_by subcommand ≡ asked_of (words_of matched.entry)) }
    ensures ranges { IfOk result (λ subcommand. IfSome subcommand HasRanges) }
{
    match matched {
        Matched::Judge => Ok(Some(Subcommand::Judge)),
        Matched::Run => Ok(Some(Subcommand::Run)),
        Matched::RunJournal { .. } => Ok(Some(Subcommand::RunJournal)),
        Matched::Found {
            lease_ms,
            daily,
            zone,
            ..
        } => Ok(read_founding(lease_ms, daily, zone)),
        Matched::Show { .. } => Ok(Some(Subcommand::Show)),
        Matched::Audit => Ok(Some(Subcommand::Audit)),
        Matched::Serve {
            handlers,
            links,
            ..
        } => Ok(read_serve(handlers, links)),
        Matched::Work {
            worker,
            runs,
            runner,
            ..
        } => read_work(alloc, worker, runs, runner),
        Matched::Rates { .. } => Ok(Some(Subcommand::Rates)),
        Matched::Drill { searches, workers } => Ok(read_drill(searches, workers)),
        Matched::Follow { rounds, .. } => Ok(read_follow(rounds)),
        Matched::Evidence { search, .. } => Ok(read_evidence(search)),
        Matched::Close { .. } => Ok(Some(Subcommand::Close)),
        Matched::Inherit {
            lease_ms,
            daily,
            zone,
            ..
        } => Ok(read_inheriting(lease_ms, daily, zone)),
    }
}

/// `serve` with the numbers that two words write, where they are in range.
fn read_serve(handlers: &str, links: &str) -> Option<Subcommand>
    ensures asked { option_map asked_by result
        ≡ serve_asked (count_named MAX_HANDLERS handlers.now) (count_named MAX_LINKS links.now) }
    ensures ranges { IfSome result HasRanges }
{
    let handlers = read_count(handlers, MAX_HANDLERS)?;
    let links = read_count(links, MAX_LINKS)?;
    Some(Subcommand::Serve {
        handlers: handlers as u8,
        links: u64::from(links),
    })
}

/// `work` under the name that a word spells, with the number that another writes, where they are a name and in range,
/// and a third names a runner.
fn read_work(
    alloc: Global,
    worker: &str,
    runs: &str,
    runner: &str,
) -> Result<Option<Subcommand>, Memory>
    ensures asked { IfOk result (λ subcommand. option_map asked_by subcommand
        ≡ work_asked worker.now (count_named MAX_RUNS runs.now) runner.now) }
    ensures ranges { IfOk result (λ subcommand. IfSome subcommand HasRanges) }
{
    if !names_runner(runner.as_bytes()) {
        return Ok(None);
    }
    let Some(runs) = read_count(runs, MAX_RUNS) else {
        return Ok(None);
    };
    match Name::of(alloc, worker) {
        Ok(worker) => Ok(Some(Subcommand::Work { worker, runs })),
        Err(NameFault::Memory) => Err(Memory),
        Err(_) => Ok(None),
    }
}

/// `drill` with the numbers that two words write, where they are in range.
fn read_drill(searches: &str, workers: &str) -> Option<Subcommand>
    ensures asked { option_map asked_by result
        ≡ drill_asked (count_named MAX_SEARCHES searches.now) (count_named MAX_WORKERS workers.now) }
    ensures ranges { IfSome result HasRanges }
{
    let searches = read_count(searches, MAX_SEARCHES)?;
    let workers = read_count(workers, MAX_WORKERS)?;
    Some(Subcommand::Drill { searches, workers })
}

/// `follow` with the number that a word writes, where it is in range.
fn read_follow(rounds: &str) -> Option<Subcommand>
    ensures asked { option_map asked_by result ≡ follow_asked (count_named MAX_ROUNDS rounds.now) }
    ensures ranges { IfSome result HasRanges }
{
    let rounds = read_count(rounds, MAX_ROUNDS)?;
    Some(Subcommand::Follow { rounds })
}

/// `evidence` with the number that a word writes, where it is in range.
fn read_evidence(search: &str) -> Option<Subcommand>
    ensures asked { option_map asked_by result ≡ evidence_asked (count_named MAX_NUMBER search.now) }
    ensures ranges { IfSome result HasRanges }
{
    let search = read_count(search, MAX_NUMBER)?;
    Some(Subcommand::Evidence { search })
}

/// Whether a word names a runner: `table:` or `host:`, and what follows.
fn names_runner(word: &[u8]) -> bool
    ensures { result ≡ names_runner word.now }
{
    word.starts_with(b"table:") && 6 < word.len() || word.starts_with(b"host:") && 5 < word.len()
}

/// `found` with the settings that three words write, if they write settings.
fn read_founding(lease_ms: &str, daily: &str, zone: &str) -> Option<Subcommand>
    ensures asked { option_map asked_by result
        ≡ founding_asked (number lease_ms.now) (number daily.now) (zone_named zone.now) }
    ensures ranges { IfSome result HasRanges }
{
    Some(Subcommand::Found(read_settings(lease_ms, daily, zone)?))
}

/// `inherit` with the settings that three words write, if they write settings.
fn read_inheriting(lease_ms: &str, daily: &str, zone: &str) -> Option<Subcommand>
    ensures asked { option_map asked_by result
        ≡ inheriting_asked (number lease_ms.now) (number daily.now) (zone_named zone.now) }
    ensures ranges { IfSome result HasRanges }
{
    Some(Subcommand::Inherit(read_settings(lease_ms, daily, zone)?))
}

/// The settings that three words write, if they write settings.
fn read_settings(lease_ms: &str, daily: &str, zone: &str) -> Option<Settings>
    ensures founding { option_map (λ settings. asked_by (Subcommand.Found settings)) result
        ≡ founding_asked (number lease_ms.now) (number daily.now) (zone_named zone.now) }
    ensures inheriting { option_map (λ settings. asked_by (Subcommand.Inherit settings)) result
        ≡ inheriting_asked (number lease_ms.now) (number daily.now) (zone_named zone.now) }
{
    let lease_ms = number(lease_ms.as_bytes())?;
    let daily = number(daily.as_bytes())?;
    let zone = read_zone(zone.as_bytes())?;
    Settings::of(lease_ms, daily, zone).ok()
}

/// How far the zone that a word names lies east of UTC, in minutes. `None` where it names none, and where that is
/// farther than any zone.
fn read_zone(word: &[u8]) -> Option<i32>
    ensures zone { IfSome result (λ zone. zone_named word.now ≡ Some zone) }
    ensures none { IfNone result ((zone : ℤ) → zone_named word.now ≡ Some zone → ¬ IsZone zone) }
{
    if let Some(minutes) = word.strip_prefix(b"east:") {
        read_minutes(minutes)
    } else {
        Some(-read_minutes(word.strip_prefix(b"west:")?)?)
    }
}

/// The minutes that a word writes.
fn read_minutes(word: &[u8]) -> Option<i32>
    ensures minutes { IfSome result (λ minutes. option_map pos (number word.now) ≡ Some minutes) }
    ensures none { IfNone result ((minutes : ℕ) → number word.now ≡ Some minutes → 2 ^ 31 ≤ minutes) }
{
    i32::try_from(number(word)?).ok()
}
