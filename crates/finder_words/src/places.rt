//! What the program's words name outside: a journal, an address and a runner.

ghost use Rattle.std.specs.Prelude.{◌≡◌, IfOk, map, string_bytes};
ghost use Rattle.finder_words.specs.Named.{seen};
ghost use Rattle.finder_words.specs.Words.{nowhere, places_asked, places_in, places_named};
ghost use Rattle.finder_words.specs.Forms.{words_of};

use crate::subcommand::read_matched;
use crate::{Matched, match_words};
use farm_types::Memory;
use std::alloc::Global;

/// What the words name outside. Each text is empty where they name none, and where they ask for nothing.
#[derive(Drop)]
pub struct Places {
    /// The path of the journal.
    pub journal: String,
    /// The address at which a service listens.
    pub address: String,
    /// What runs the tests: `table:` and the path of a table, or `host:` and the address of a host.
    pub runner: String,
}

/// The same as words.
#[derive(Clone, Copy)]
pub(crate) struct Named<'a> {
    pub(crate) journal: &'a str,
    pub(crate) address: &'a str,
    pub(crate) runner: &'a str,
}

/// What the words name outside, for the objects that `finder` is handed.
///
/// # Errors
///
/// [`Memory`].
pub fn read_places(alloc: Global, words: &[String]) -> Result<Places, Memory>
    ensures journal { IfOk result (λ places.
        string_bytes places.journal ≡ (places_named (map string_bytes words.now)).journal) }
    ensures address { IfOk result (λ places.
        string_bytes places.address ≡ (places_named (map string_bytes words.now)).address) }
    ensures runner { IfOk result (λ places.
        string_bytes places.runner ≡ (places_named (map string_bytes words.now)).runner) }
{
    let named = find_places(alloc, words)?;
    Ok(Places {
        journal: String::from_str(alloc, named.journal)?,
        address: String::from_str(alloc, named.address)?,
        runner: String::from_str(alloc, named.runner)?,
    })
}

/// The words that name something outside.
fn find_places<'a>(alloc: Global, words: &'a [String]) -> Result<Named<'a>, Memory>
    ensures { IfOk result (λ named. seen named ≡ places_named (map string_bytes words.now)) }
{
    match match_words(alloc, words)? {
        Some(matched) => matched_places(alloc, matched),
        None => Ok(nowhere()),
    }
}

/// The same among words that fit a command.
fn matched_places<'a>(alloc: Global, matched: Matched<'a>) -> Result<Named<'a>, Memory>
    ensures { IfOk result (λ named. seen named ≡ places_asked (words_of matched.entry)) }
{
    match read_matched(alloc, matched)? {
        Some(_) => Ok(places_in(matched)),
        None => Ok(nowhere()),
    }
}

/// Nothing.
fn nowhere<'a>() -> Named<'a>
    ensures { seen result ≡ nowhere }
{
    Named {
        journal: "",
        address: "",
        runner: "",
    }
}

/// The words of a command that name something outside.
fn places_in<'a>(matched: Matched<'a>) -> Named<'a>
    ensures { seen result ≡ places_in (words_of matched.entry) }
{
    match matched {
        Matched::RunJournal { journal }
        | Matched::Found { journal, .. }
        | Matched::Show { journal }
        | Matched::Rates { journal }
        | Matched::Evidence { journal, .. }
        | Matched::Close { journal }
        | Matched::Inherit { journal, .. } => Named {
            journal,
            address: "",
            runner: "",
        },
        Matched::Serve {
            journal,
            address,
            ..
        }
        | Matched::Follow {
            journal,
            address,
            ..
        } => Named {
            journal,
            address,
            runner: "",
        },
        Matched::Work {
            address,
            runner,
            ..
        } => Named {
            journal: "",
            address,
            runner,
        },
        Matched::Judge | Matched::Run | Matched::Audit | Matched::Drill { .. } => nowhere(),
    }
}
