//! The text of the evidence.

ghost use Rattle.std.specs.Prelude.{◌≡◌, Contains, IfOk, string_bytes};
ghost use Rattle.std.specs.Option.{option_map};
ghost use Rattle.farm_entry.specs.History.{openings};
ghost use Rattle.farm_entry.specs.Legal.{IsLegal};
ghost use Rattle.search_evidence.specs.Evidence.{evidence_of, evidence_text};

use crate::lines::{push_miss, push_runs, push_search};
use crate::runs::evidence_runs;
use farm_entry::{Entry, Opening};
use farm_types::Memory;
use plain_history::opening_numbered;
use std::alloc::Global;

/// The evidence of the search with a number, where the history has it: `miss C D` where a broken test may pass,
/// `search A B T U CALM WEIGHT ..`, and `run R K pass` or `run R K fail` for each report that is evidence, R counting
/// from 1. Each line ends with a line feed.
///
/// # Errors
///
/// [`Memory`].
pub fn evidence_text(
    alloc: Global,
    history: &[Entry],
    search: u32,
) -> Result<Option<String>, Memory>
    requires { IsLegal history.now }
    ensures { IfOk result (λ text. option_map string_bytes text ≡ evidence_text history.now search) }
{
    match opening_numbered(history, search) {
        Some(opening) => Ok(Some(evidence_of(alloc, history, opening)?)),
        None => Ok(None),
    }
}

/// The evidence of a search that was opened.
fn evidence_of(alloc: Global, history: &[Entry], opening: &Opening) -> Result<String, Memory>
    requires legal { IsLegal history.now }
    requires opened { Contains (openings history.now) opening.now }
    ensures { IfOk result (λ text. string_bytes text ≡ evidence_of history.now opening.now) }
{
    let runs = evidence_runs(alloc, history, opening)?;
    let mut text = String::new(alloc);
    push_miss(&mut text, opening.miss)?;
    push_search(&mut text, opening)?;
    push_runs(&mut text, &runs)?;
    Ok(text)
}
