//! What a farm over a store shows of itself.

ghost use Rattle.std.specs.Prelude.{◌≡◌, ◌++◌, [], length, IfOk, OnOk, string_bytes};
ghost use Rattle.farm_entry.specs.History.{opening_numbered, openings};
ghost use Rattle.farm_entry.specs.Legal.{IsLegal};
ghost use Rattle.farm_entry.specs.declared.reply.Reply.{Reply};
ghost use Rattle.farm_laws.specs.Days.{HasDays};
ghost use Rattle.farm_script.specs.Shown.{shown_line, shown_opening, shown_text};

use farm_disk::Disk;
use farm_entry::Reply;
use farm_store::Store;
use farm_types::Memory;
use farm_wire::reply_text;
use std::alloc::Global;

/// The text that the farm of a store shows of itself while nothing is pending: its own reply line, and then that of
/// each search, by number. The disk is not asked.
pub fn shown_text<D: Disk>(alloc: Global, store: &mut Store<D>) -> Result<String, Memory>
    requires { store.old.pending ≡ [] }
    ensures text { IfOk result (λ text. string_bytes text ≡ shown_text store.old.history) }
    ensures kept { store.new ≡ store.old }
{
    let count = searches_count(store);
    let mut text = shown_line(alloc, &Reply::Farm(store.totals()))?;
    for before in 0..count {
        push_search(alloc, &mut text, store, before + 1)?;
    }
    Ok(text)
}

/// How many searches were opened.
fn searches_count<D: Disk>(store: &Store<D>) -> u32
    ensures count { result ≡ length (openings store.now.history) }
    ensures legal { IsLegal store.now.history }
{
    // Its history is legal, so that the count is small.
    let _history = store.history();
    store.totals().searches as u32
}

/// Adds the line of the search with a number, if there is one.
fn push_search<D: Disk>(
    alloc: Global,
    text: &mut String,
    store: &mut Store<D>,
    search: u32,
) -> Result<(), Memory>
    requires { store.old.pending ≡ [] }
    ensures text { OnOk result (string_bytes text.new
        ≡ string_bytes text.old ++ shown_opening store.old.history (opening_numbered store.old.history search)) }
    ensures kept { store.new ≡ store.old }
{
    match store.page(search)? {
        None => Ok(()),
        Some(page) => {
            let line = shown_line(alloc, &Reply::Search(page))?;
            text.push_str(line.as_str())?;
            Ok(())
        }
    }
}

/// The line of a reply.
fn shown_line(alloc: Global, reply: &Reply) -> Result<String, Memory>
    requires { HasDays reply.now }
    ensures { IfOk result (λ line. string_bytes line ≡ shown_line reply.now) }
{
    let mut line = reply_text(alloc, reply)?;
    line.push('\n')?;
    Ok(line)
}
