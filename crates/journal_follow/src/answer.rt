//! What a response to an ask says.

ghost use Rattle.std.specs.Prelude.{◌≡◌, ◌↔◌, IfOk, IsTrue, Some, option_map};
ghost use Rattle.farm_wire.specs.Reading.{object_in};
ghost use Rattle.serde_json.specs.View.{view};
ghost use Rattle.journal_follow.specs.Asks.{Reads};
ghost use Rattle.journal_follow.specs.Pages.{IsFound, ReadsHex, ReadsText, first_in, text_in};

use crate::FollowFault;
use common_types::{ItemList, Memory};
use entry_codec::{CodecFault, read_entries};
use farm_entry::Entry;
use farm_journal::MAX_PAYLOAD;
use hex::{FromHexError, decode};
use http_exchange::{Response, status_number};
use http_words::StatusCode;
use serde_json::Value;
use std::alloc::Global;

/// The entries of a page.
pub(crate) type Page = ItemList<Entry>;

/// The entries of the page that a response is to an ask for the entries from this one on.
pub(crate) fn page_in(alloc: Global, from: u32, response: &Response) -> Result<Page, FollowFault>
    ensures { Reads from response.now result }
{
    let status = response.status;
    if status != status_number(StatusCode::Ok) {
        return Err(FollowFault::Peer(status));
    }
    match page_of(alloc, from, response.body.as_slice())? {
        Some(entries) => Ok(entries),
        None => Err(FollowFault::Peer(status)),
    }
}

/// The entries of the page that a body is, where it is the page from this entry on.
fn page_of(alloc: Global, from: u32, body: &[u8]) -> Result<Option<Page>, Memory>
    ensures { IfOk result (IsFound from body.now) }
{
    let Some(object) = object_of(alloc, body)? else {
        return Ok(None);
    };
    if !is_from(&object, from) {
        return Ok(None);
    }
    entries_of(alloc, &object)
}

/// The JSON object that a body is.
#[tactic(auto, unfolding(farm_wire::specs::Reading::object_in))]
fn object_of(alloc: Global, body: &[u8]) -> Result<Option<Value>, Memory>
    ensures { IfOk result (λ found. option_map view found ≡ object_in body.now) }
{
    match Value::from_slice(alloc, body) {
        Ok(value) => {
            if value.is_object() {
                Ok(Some(value))
            } else {
                Ok(None)
            }
        }
        Err(error) => {
            if error.is_memory() {
                Err(Memory)
            } else {
                Ok(None)
            }
        }
    }
}

/// Whether an object names this number.
#[tactic(auto, unfolding(crate::specs::Pages::first_in))]
fn is_from(object: &Value, from: u32) -> bool
    ensures { IsTrue result ↔ (first_in (view object.now) ≡ Some from) }
{
    match object.get("from") {
        Some(value) => value.as_u64() == Some(u64::from(from)),
        None => false,
    }
}

/// The entries whose bytes an object tells.
#[tactic(auto, unfolding(crate::specs::Pages::text_in))]
fn entries_of(alloc: Global, object: &Value) -> Result<Option<Page>, Memory>
    ensures { IfOk result (ReadsText (text_in (view object.now))) }
{
    let Some(value) = object.get("entries") else {
        return Ok(None);
    };
    match value.as_str() {
        Some(text) => entries_in(alloc, text),
        None => Ok(None),
    }
}

/// The entries whose bytes stand there in hexadecimal digits.
fn entries_in(alloc: Global, text: &str) -> Result<Option<Page>, Memory>
    ensures { IfOk result (ReadsHex text.now) }
{
    let bytes = match decode(alloc, text) {
        Ok(bytes) => bytes,
        Err(FromHexError::OutOfMemory) => return Err(Memory),
        Err(_) => return Ok(None),
    };
    if bytes.len() > MAX_PAYLOAD {
        return Ok(None);
    }
    match read_entries(alloc, &bytes) {
        Ok(entries) => Ok(Some(Page::of(entries))),
        Err(CodecFault::Bad(_)) => Ok(None),
        Err(CodecFault::Memory) => Err(Memory),
    }
}
