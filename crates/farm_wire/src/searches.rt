//! The list of searches as JSON.

ghost use Rattle.std.specs.Prelude.{◌≡◌, ◌++◌, IfOk, OnOk, string_bytes};
ghost use Rattle.serde_json.specs.Written.{compact_text};
ghost use Rattle.farm_wire.specs.Pieces.{array_on, array_text, counted_name};
ghost use Rattle.farm_wire.specs.Replies.{reply_data, search_data};

use crate::standing::standing_word;
use crate::text::JsonText;
use farm_entry::{Reply, SearchLine, SearchList};
use farm_types::{CommitId, Memory};
use std::alloc::Global;

/// Searches of a farm, as a text in this room.
pub(crate) fn searches_text(
    alloc: Global,
    room: String,
    page: &SearchList,
) -> Result<String, Memory>
    ensures { IfOk result (λ text. string_bytes text ≡ compact_text (reply_data (Reply.Searches page.now))) }
{
    let mut out = JsonText::within(alloc, room)?;
    out.put_number("{\"from\":", page.from as u64)?;
    out.put(",\"reply\":\"list\",\"searches\":")?;
    put_searches(&mut out, page.searches.as_slice())?;
    out.put("}")?;
    Ok(out.into_text())
}

/// Puts searches as an array.
fn put_searches(out: &mut JsonText, lines: &[SearchLine]) -> Result<(), Memory>
    ensures { OnOk result (out.new ≡ out.old ++ array_text search_data lines.now) }
{
    match lines.split_first() {
        Some((first, more)) => {
            put_search(out, "[", first)?;
            put_more(out, more)
        }
        None => out.put("[]"),
    }
}

/// Puts what that array goes on with, behind its first search.
fn put_more(out: &mut JsonText, lines: &[SearchLine]) -> Result<(), Memory>
    ensures { OnOk result (out.new ≡ out.old ++ array_on search_data lines.now) }
{
    for line in lines {
        put_search(out, ",", line)?;
    }
    out.put("]")
}

/// Puts a search behind a piece.
fn put_search(out: &mut JsonText, piece: &str, line: &SearchLine) -> Result<(), Memory>
    ensures { OnOk result (out.new ≡ out.old ++ (piece.now ++ compact_text (search_data line.now))) }
{
    out.put(piece)?;
    out.put_commit_if("{\"commit\":", &line.commit)?;
    out.put_number(counted_name(&line.commit), line.counted as u64)?;
    out.put_culprit(",\"culprit\":", line.standing)?;
    out.put_number(",\"leases\":", line.leases as u64)?;
    out.put_number(",\"opened\":", line.opened.ms())?;
    out.put_number_if(",\"order\":", line.order)?;
    out.put_number(",\"search\":", line.search as u64)?;
    out.put_text(",\"standing\":", standing_word(line.standing))?;
    out.put_number(",\"suspects\":", line.suspects as u64)?;
    out.put_text(",\"test\":", line.test.text())?;
    out.put("}")
}

/// What stands before the number of runs that count: the object's beginning, where no commit is named.
fn counted_name(commit: &Option<CommitId>) -> &'static str
    ensures { result.now ≡ counted_name commit.now }
{
    match commit {
        Some(_) => ",\"counted\":",
        None => "{\"counted\":",
    }
}
