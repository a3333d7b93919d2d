//! The pages in which a history is handed on.

ghost use Rattle.std.specs.Prelude.{◌≡◌, ◌≤◌, ◌<◌, ◌↔◌, ◌-◌, [], All, IfOk, OnOk, drop, length};
ghost use Rattle.entry_codec.specs.Grammar.{AreSpelled, IsWithinLimits};
ghost use Rattle.entry_codec.specs.LogPage.{front_within, log_page, page_entries};
ghost use Rattle.entry_codec.specs.Spelling.{spelling};
ghost use Rattle.entry_codec.specs.declared.limits.TheConstants.{MAX_ENTRY_BYTES};

use crate::limits::LOG_PAGE_BYTES;
use crate::writing::put_entry;
use farm_entry::Entry;
use farm_types::Memory;
use std::alloc::Global;

/// The spelling of the most entries at the front that have together at most so many bytes.
fn write_front(alloc: Global, entries: &[Entry], most: usize) -> Result<Vec<u8>, Memory>
    requires within { All (λ entry. IsWithinLimits entry.what) entries.now }
    requires room { MAX_ENTRY_BYTES ≤ most }
    ensures spelled { IfOk result (λ bytes. bytes.items ≡ spelling (front_within most entries.now)) }
    ensures readable { OnOk result (AreSpelled (front_within most entries.now)) }
    ensures some { IfOk result (λ bytes. bytes.items ≡ [] → entries.now ≡ []) }
{
    let mut out = Vec::new(alloc);
    for entry in entries {
        let before = out.len();
        put_entry(&mut out, entry)?;
        if out.len() > most {
            out.truncate(before);
            return Ok(out);
        }
    }
    Ok(out)
}

/// The entries of a history from this one on, counted from 1.
fn entries_from(history: &[Entry], from: u32) -> &[Entry]
    requires { 1 ≤ from }
    ensures value { result.now ≡ drop (from - 1) history.now }
    ensures none { (result.now ≡ []) ↔ (length history.now < from) }
{
    let before = from as usize - 1;
    if before < history.len() {
        &history[before..]
    } else {
        &[]
    }
}

/// The bytes of a log page: the spelling of the most entries of a history, from this one on, counted from 1, that have
/// together at most [`LOG_PAGE_BYTES`](crate::LOG_PAGE_BYTES). Each opening of the history is as in every legal one.
#[tactic(auto, unfolding(crate::specs::LogPage::log_page, crate::specs::LogPage::page_entries))]
pub fn write_log_page(alloc: Global, history: &[Entry], from: u32) -> Result<Vec<u8>, Memory>
    requires within { All (λ entry. IsWithinLimits entry.what) history.now }
    requires from { 1 ≤ from }
    ensures page { IfOk result (λ bytes. bytes.items ≡ log_page from history.now) }
    ensures readable { OnOk result (AreSpelled (page_entries from history.now)) }
    // It has no bytes exactly where the history has no such entry.
    ensures none { IfOk result (λ bytes. (bytes.items ≡ []) ↔ (length history.now < from)) }
{
    write_front(alloc, entries_from(history, from), LOG_PAGE_BYTES)
}
