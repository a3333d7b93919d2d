//! The matches of the words.

ghost use Rattle.std.specs.Prelude.{◌≡◌, ◌≢◌, [], IfOk, MatchOption, codes, map, option_map, string_bytes, true};
ghost use Rattle.std.specs.List.{list_all};
ghost use Rattle.clap.specs.Words.{fault_of, first_of, found_of, rows_of, subcommand_of, subcommand_rows_of};
ghost use Rattle.finder_words.specs.CommandLine.{command_line, drill_ids, evidence_ids, follow_ids, found_ids, inherit_ids, rates_ids, read_named, read_of, read_rows, read_run, serve_ids, work_ids};
ghost use Rattle.finder_words.specs.Forms.{fitting, is_plain, words_of};

use crate::command_line::command_line;
use crate::matched::Matched;
use clap::ArgMatches;
use clap::error::ErrorKind;
use common_types::Memory;
use std::alloc::Global;

/// The command that these words name, with the words that follow its name, where they fit one.
///
/// # Errors
///
/// [`Memory`].
pub fn match_words<'a>(alloc: Global, words: &'a [String]) -> Result<Option<Matched<'a>>, Memory>
    ensures { IfOk result (λ matched. option_map words_of matched ≡ fitting (map string_bytes words.now)) }
{
    if are_plain(words) {
        match_plain(alloc, words)
    } else {
        Ok(None)
    }
}

/// The same for words that are all plain.
fn match_plain<'a>(alloc: Global, words: &'a [String]) -> Result<Option<Matched<'a>>, Memory>
    requires { list_all is_plain (map string_bytes words.now) ≡ true }
    ensures { IfOk result (λ matched. option_map words_of matched ≡ fitting (map string_bytes words.now)) }
{
    match parse(alloc, words)? {
        Some(matches) => Ok(read_matches(&matches)),
        None => Ok(None),
    }
}

/// Whether each word is plain.
fn are_plain(words: &[String]) -> bool
    ensures { result ≡ list_all (λ word. is_plain (string_bytes word)) words.now }
{
    words.iter().all(|word| is_plain(word.as_str()))
}

/// Whether a word is one that a command takes: it isn't empty, and doesn't begin with a dash.
fn is_plain(word: &str) -> bool
    ensures { result ≡ is_plain word.now }
{
    match word.as_bytes() {
        [] | [b'-', ..] => false,
        _ => true,
    }
}

/// What `clap` makes of the words, if it takes them.
fn parse<'a>(alloc: Global, words: &'a [String]) -> Result<Option<ArgMatches<'a>>, Memory>
    ensures { IfOk result (λ parsed. MatchOption parsed
        (fault_of command_line (map string_bytes words.now) ≢ [])
        (λ matches. (fault_of command_line (map string_bytes words.now) ≡ [])
        × (subcommand_rows_of matches ≡ subcommand_of command_line (map string_bytes words.now)))) }
{
    match command_line(alloc)?.try_get_matches_from(words) {
        Ok(matches) => Ok(Some(matches)),
        Err(error) => match error.kind() {
            ErrorKind::OutOfMemory => Err(Memory),
            _ => Ok(None),
        },
    }
}

/// The command that was matched.
fn read_matches<'a>(matches: &ArgMatches<'a>) -> Option<Matched<'a>>
    ensures { option_map words_of result ≡ read_rows (subcommand_rows_of matches.now) }
{
    let (name, words) = matches.subcommand()?;
    read_command(name, words)
}

/// The command of this name, with the words that were found.
fn read_command<'a>(name: &str, words: &ArgMatches<'a>) -> Option<Matched<'a>>
    ensures { option_map words_of result ≡ read_of name.now (rows_of (found_of words.now)) }
{
    match name {
        "judge" => Some(Matched::Judge),
        "run" => Some(read_run(words)),
        "found" => read_found(words),
        "show" => Some(Matched::Show {
            journal: word(words, "journal")?,
        }),
        "audit" => Some(Matched::Audit),
        "serve" => read_serve(words),
        "work" => read_work(words),
        "rates" => read_rates(words),
        "drill" => read_drill(words),
        "follow" => read_follow(words),
        "evidence" => read_evidence(words),
        "close" => Some(Matched::Close {
            journal: word(words, "journal")?,
        }),
        "inherit" => read_inherit(words),
        _ => None,
    }
}

/// The word found under an id.
fn word<'a>(words: &ArgMatches<'a>, id: &str) -> Option<&'a str>
    ensures { option_map (λ word. word.now) result ≡ first_of id.now (rows_of (found_of words.now)) }
{
    words.get_str(id)
}

/// `run`, where a journal may be named.
fn read_run<'a>(words: &ArgMatches<'a>) -> Matched<'a>
    ensures { words_of result ≡ read_run (first_of (codes "journal") (rows_of (found_of words.now))) }
{
    match word(words, "journal") {
        Some(journal) => Matched::RunJournal { journal },
        None => Matched::Run,
    }
}

/// `found`.
fn read_found<'a>(words: &ArgMatches<'a>) -> Option<Matched<'a>>
    ensures { option_map words_of result ≡ read_named (codes "found") found_ids (rows_of (found_of words.now)) }
{
    Some(Matched::Found {
        journal: word(words, "journal")?,
        lease_ms: word(words, "lease_ms")?,
        daily: word(words, "daily")?,
        zone: word(words, "zone")?,
    })
}

/// `serve`.
fn read_serve<'a>(words: &ArgMatches<'a>) -> Option<Matched<'a>>
    ensures { option_map words_of result ≡ read_named (codes "serve") serve_ids (rows_of (found_of words.now)) }
{
    Some(Matched::Serve {
        journal: word(words, "journal")?,
        address: word(words, "address")?,
        handlers: word(words, "handlers")?,
        links: word(words, "links")?,
    })
}

/// `work`.
fn read_work<'a>(words: &ArgMatches<'a>) -> Option<Matched<'a>>
    ensures { option_map words_of result ≡ read_named (codes "work") work_ids (rows_of (found_of words.now)) }
{
    Some(Matched::Work {
        address: word(words, "address")?,
        worker: word(words, "worker")?,
        runs: word(words, "runs")?,
        runner: word(words, "runner")?,
    })
}

/// `rates`.
fn read_rates<'a>(words: &ArgMatches<'a>) -> Option<Matched<'a>>
    ensures { option_map words_of result ≡ read_named (codes "rates") rates_ids (rows_of (found_of words.now)) }
{
    Some(Matched::Rates {
        journal: word(words, "journal")?,
    })
}

/// `drill`.
fn read_drill<'a>(words: &ArgMatches<'a>) -> Option<Matched<'a>>
    ensures { option_map words_of result ≡ read_named (codes "drill") drill_ids (rows_of (found_of words.now)) }
{
    Some(Matched::Drill {
        searches: word(words, "searches")?,
        workers: word(words, "workers")?,
    })
}

/// `follow`.
fn read_follow<'a>(words: &ArgMatches<'a>) -> Option<Matched<'a>>
    ensures { option_map words_of result ≡ read_named (codes "follow") follow_ids (rows_of (found_of words.now)) }
{
    Some(Matched::Follow {
        journal: word(words, "journal")?,
        address: word(words, "address")?,
        rounds: word(words, "rounds")?,
    })
}

/// `inherit`.
fn read_inherit<'a>(words: &ArgMatches<'a>) -> Option<Matched<'a>>
    ensures { option_map words_of result ≡ read_named (codes "inherit") inherit_ids (rows_of (found_of words.now)) }
{
    Some(Matched::Inherit {
        journal: word(words, "journal")?,
        lease_ms: word(words, "lease_ms")?,
        daily: word(words, "daily")?,
        zone: word(words, "zone")?,
    })
}

/// `evidence`.
fn read_evidence<'a>(words: &ArgMatches<'a>) -> Option<Matched<'a>>
    ensures { option_map words_of result ≡ read_named (codes "evidence") evidence_ids (rows_of (found_of words.now)) }
{
    Some(Matched::Evidence {
        journal: word(words, "journal")?,
        search: word(words, "search")?,
    })
}
