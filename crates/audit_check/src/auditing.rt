//! The audit of a journal.

ghost use Rattle.std.specs.Prelude.{◌≡◌, length, string_bytes, IfOk};
ghost use Rattle.audit_check.specs.Audited.{IsAuditLine};
ghost use Rattle.audit_check.specs.Verdict.{IsFinding, IsFindingOn};

use crate::finding::{Finding, MAX_AUDITED};
use crate::gates::{Told, tell};
use farm_entry::Entry;
use farm_types::Memory;
use plain_farm::first_illegal;
use plain_history::{openings_count, orders_count};
use std::alloc::Global;

/// What is found of entries.
fn finding_on(alloc: Global, entries: &[Entry]) -> Result<Finding, Memory>
    ensures { IfOk result (IsFindingOn entries.now) }
{
    if MAX_AUDITED < entries.len() {
        return Ok(Finding::Long(entries.len() as u64));
    }
    match first_illegal(alloc, entries)? {
        Some(place) => Ok(Finding::Illegal(place as u64)),
        None => Ok(Finding::Legal {
            entries: entries.len() as u64,
            searches: openings_count(entries) as u64,
            orders: orders_count(entries) as u64,
        }),
    }
}

/// What is found of the bytes of a journal: whether they stand for a legal history, and else where they fail. A
/// history of at most [`MAX_AUDITED`] entries is gone through entry by entry, and its time grows with the square of
/// their number.
///
/// # Errors
///
/// Running out of memory, and nothing else.
pub fn audit(alloc: Global, bytes: &[u8]) -> Result<Finding, Memory>
    // What is found is so.
    ensures found { IfOk result (IsFinding bytes.now) }
    // And what is so is found: no other finding is right.
    ensures only { (finding : Finding) → IsFinding bytes.now finding → IfOk result (λ found. found ≡ finding) }
{
    match tell(alloc, bytes)? {
        Told::Unborn => Ok(Finding::Unborn),
        Told::Broken(offset) => Ok(Finding::Broken(offset)),
        Told::Entries(entries) => finding_on(alloc, &entries),
    }
}

/// The line of what is found of the bytes of a journal, its line feed included.
///
/// # Errors
///
/// Running out of memory, and nothing else.
pub fn audit_line(alloc: Global, bytes: &[u8]) -> Result<String, Memory>
    ensures { IfOk result (λ text. IsAuditLine bytes.now (string_bytes text)) }
{
    let finding = audit(alloc, bytes)?;
    Ok(format!(in alloc; "{finding}\n")?)
}
