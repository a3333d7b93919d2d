//! Entries from bytes.

ghost use Rattle.std.specs.Prelude.{◌≡◌, ℕ, List, IfOk, IfErr, MatchResult};
ghost use Rattle.entry_codec.specs.Grammar.{AreSpelled, IsBadAt, IsBadOrMemory, IsFaultOf};
ghost use Rattle.entry_codec.specs.Spelling.{spelling};
ghost use Rattle.entry_codec.specs.declared.fault.CodecFault.TheVariants.{Memory};

use crate::entries::entry_at;
use crate::fault::{CodecFault, Unread};
use farm_entry::Entry;
use std::alloc::Global;

/// The entries that bytes spell, or the offset at which the first one that is none begins.
fn entries_of(alloc: Global, bytes: &[u8]) -> Result<Vec<Entry>, CodecFault>
    ensures found { IfOk result (λ entries. AreSpelled entries.items × (bytes.now ≡ spelling entries.items)) }
    ensures bad { IfErr result (IsFaultOf bytes.now) }
{
    let mut entries = Vec::new(alloc);
    let mut rest = bytes;
    while !rest.is_empty() {
        match entry_at(alloc, rest) {
            Ok((entry, after)) => {
                entries.push(entry)?;
                rest = after;
            }
            Err(Unread::Malformed) => return Err(CodecFault::Bad(bytes.len() - rest.len())),
            Err(Unread::OutOfMemory) => return Err(CodecFault::Memory),
        }
    }
    Ok(entries)
}

/// The entries that bytes spell, one after the other, each in its one spelling. It goes over the bytes once, and copies
/// none of them but into the entries.
///
/// # Errors
///
/// [`CodecFault::Bad`] exactly where the bytes aren't the spelling of entries, with the offset up to which they are and
/// at which no other one begins; or [`CodecFault::Memory`].
pub fn read_entries(alloc: Global, bytes: &[u8]) -> Result<Vec<Entry>, CodecFault>
    // What is read is spelled so, each byte of it.
    ensures found { IfOk result (λ entries. AreSpelled entries.items × (bytes.now ≡ spelling entries.items)) }
    // What is spelled so is read.
    ensures only { (entries : List Entry) → AreSpelled entries → bytes.now ≡ spelling entries
        → MatchResult result (λ read. read.items ≡ entries) (λ fault. fault ≡ Memory) }
    // The offset is that of the first fault.
    ensures bad { IfErr result (IsFaultOf bytes.now) }
    // Each fault is told.
    ensures bad_only { (offset : ℕ) → IsBadAt bytes.now offset → MatchResult result (λ _. ⊥) (IsBadOrMemory offset) }
{
    entries_of(alloc, bytes)
}
