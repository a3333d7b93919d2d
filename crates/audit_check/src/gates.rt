//! The file of a journal: its header, and its records from gate to gate.

ghost use Rattle.std.specs.Prelude.{◌≡◌, ◌≤◌, false, length, drop, IfNone, IfOk, IfSome};
ghost use Rattle.farm_journal.specs.Layout.{header_fault, is_unborn, is_whole, records};
ghost use Rattle.audit_check.specs.Told.{opening_tells, told};
ghost use Rattle.audit_check.specs.Held.{IsPayloadOf, IsReadOn, told_before, told_in};

use crate::entries::add_entries;
use farm_entry::Entry;
use farm_types::Memory;
use std::alloc::Global;

/// Bytes 1 to 14 of a journal.
const MAGIC: [u8; 14] = *b"CulpritFinder ";

/// The offset of the version byte, which may be any.
const VERSION_PLACE: usize = 15;

/// The offset of the first gate.
const FIRST_GATE: usize = 16;

/// The most bytes of a payload; the fewest is one.
const MAX_PAYLOAD: usize = 1_048_576;

/// What the bytes of a journal tell.
#[derive(Drop)]
pub(crate) enum Told {
    /// Nothing: it was never founded.
    Unborn,
    /// They break at this offset.
    Broken(u64),
    /// These entries.
    Entries(Vec<Entry>),
}

/// Whether a file was never founded: it has no birth byte and one more, or its birth byte is 0.
fn is_unborn(bytes: &[u8]) -> bool
    ensures { result ≡ is_unborn bytes.now }
{
    bytes.len() <= 1 || bytes[0] == 0
}

/// The offset of the first byte of the header, from 1 on, that is missing or isn't as it has to be.
fn header_fault(bytes: &[u8]) -> Option<usize>
    ensures { result ≡ header_fault bytes.now }
{
    for before in 0..MAGIC.len() {
        if bytes.len() <= before + 1 {
            return Some(before + 1);
        }
        if bytes[before + 1] != MAGIC[before] {
            return Some(before + 1);
        }
    }
    if VERSION_PLACE < bytes.len() {
        None
    } else {
        Some(VERSION_PLACE)
    }
}

/// The payload of the record that some bytes begin with, where it is whole.
fn payload(bytes: &[u8]) -> Option<&[u8]>
    ensures none { IfNone result (is_whole bytes.now ≡ false) }
    ensures some { IfSome result (λ found. IsPayloadOf bytes.now found.now) }
{
    let (length, rest) = bytes.split_first_chunk()?;
    let length = u32::from_be_bytes(*length) as usize;
    if 1 <= length && length <= MAX_PAYLOAD && length <= rest.len() {
        Some(&rest[..length])
    } else {
        None
    }
}

/// Adds the entries of a payload to those before it, where all of these could be read, and says which gate is the first
/// whose record couldn't.
fn read_on(
    alloc: Global,
    payload: &[u8],
    gate: usize,
    unread: Option<usize>,
    entries: &mut Vec<Entry>,
) -> Result<Option<usize>, Memory>
    ensures { IfOk result (IsReadOn payload.now gate entries.old.items entries.new.items unread) }
{
    if unread.is_some() {
        return Ok(unread);
    }
    if add_entries(alloc, payload, entries)? {
        Ok(None)
    } else {
        Ok(Some(gate))
    }
}

/// What the records before a closed gate tell.
fn told_before(gate: usize, unread: Option<usize>, entries: Vec<Entry>) -> Told
    ensures { told_in result ≡ told_before gate unread entries.items }
{
    if gate == FIRST_GATE {
        return Told::Broken(gate as u64);
    }
    match unread {
        Some(first) => Told::Broken(first as u64),
        None => Told::Entries(entries),
    }
}

/// What the records tell, from the first gate on.
fn tell_records(alloc: Global, bytes: &[u8]) -> Result<Told, Memory>
    requires { FIRST_GATE ≤ length bytes.now }
    ensures { IfOk result (λ found. told_in found
        ≡ opening_tells (records (length bytes.now) FIRST_GATE (drop FIRST_GATE bytes.now))) }
{
    let mut entries = Vec::new(alloc);
    let mut unread = None;
    let mut gate = FIRST_GATE;
    while gate < bytes.len() {
        if bytes[gate] == 0 {
            return Ok(told_before(gate, unread, entries));
        }
        let Some(payload) = payload(&bytes[gate + 1..]) else {
            return Ok(Told::Broken(gate as u64));
        };
        unread = read_on(alloc, payload, gate, unread, &mut entries)?;
        gate += 5 + payload.len();
    }
    Ok(Told::Broken(gate as u64))
}

/// What the bytes of a journal tell.
pub(crate) fn tell(alloc: Global, bytes: &[u8]) -> Result<Told, Memory>
    ensures { IfOk result (λ found. told_in found ≡ told bytes.now) }
{
    if is_unborn(bytes) {
        return Ok(Told::Unborn);
    }
    match header_fault(bytes) {
        Some(offset) => Ok(Told::Broken(offset as u64)),
        None => tell_records(alloc, bytes),
    }
}
