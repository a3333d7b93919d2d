//! Reading what the bytes of a journal hold.
ghost use Rattle.std.specs.Prelude.{◌≡◌, ◌≤◌, ◌<◌, ◌+◌, ◌^◌, ℕ, List, true, false, MatchOption, length, drop};
ghost use Rattle.farm_journal.specs.Layout.{header_fault, is_whole, told_length};
ghost use Rattle.farm_journal.specs.Found.{Finds, Scans};
ghost use Rattle.farm_journal.specs.declared.reading.Missed.TheVariants.{Memory};
ghost use Rattle.farm_journal.specs.declared.layout.TheConstants.{FIRST_GATE};

use crate::disk_calls::DiskFault;
use crate::fault::OpeningFault;
use crate::layout::{FIRST_GATE, MAGIC, MAX_PAYLOAD};
use crate::payload::Payload;
use crate::payloads::Payloads;
use common_types::ToldList;
use std::alloc::Global;

/// What was found: the payloads, the same for contracts alone, and the offset of the closed gate.
#[derive(Drop)]
pub(super) struct Found {
    pub(super) payloads: Payloads,
    pub(super) past: ToldList<Payload>,
    pub(super) gate: u64,
}

/// What stands in the bytes of a file.
pub(super) fn find(alloc: Global, bytes: &[u8]) -> Result<Found, Missed>
    ensures { Finds result bytes.now }
{
    if bytes.len() <= 1 || bytes[0] == 0 {
        return Err(Missed::Unborn);
    }
    if let Some(at) = find_header_fault(bytes) {
        return Err(Missed::Damaged(at));
    }
    scan(alloc, bytes)
}

/// Why nothing was found.
#[derive(Clone, Copy)]
pub(super) enum Missed {
    Unborn,
    Damaged(u64),
    Memory,
}

impl From<std::alloc::AllocError> for Missed {
    ghost from_gives = { λ _ e. e ≡ Memory };

    fn from(_: std::alloc::AllocError) -> Self {
        Missed::Memory
    }
}

impl<T: Drop> From<std::alloc::AllocFailed<T>> for Missed {
    ghost from_gives = { λ _ e. e ≡ Memory };

    fn from(_: std::alloc::AllocFailed<T>) -> Self {
        Missed::Memory
    }
}

impl From<farm_disk::Memory> for Missed {
    ghost from_gives = { λ _ e. e ≡ Memory };

    fn from(_: farm_disk::Memory) -> Self {
        Missed::Memory
    }
}

// The offset of the first byte of the header that is wrong or missing.
fn find_header_fault(bytes: &[u8]) -> Option<u64>
    ensures { result ≡ header_fault bytes.now }
{
    for i in 0..MAGIC.len() {
        if i + 1 >= bytes.len() {
            return Some(i as u64 + 1);
        }
        if bytes[i + 1] != MAGIC[i] {
            return Some(i as u64 + 1);
        }
    }
    if bytes.len() > 15 { None } else { Some(15) }
}

// The length of the payload of a whole record at the front.
fn whole_length(bytes: &[u8]) -> Option<usize>
    ensures { MatchOption result
        ((is_whole bytes.now ≡ false)) (λ n. (is_whole bytes.now ≡ true) × (n ≡ told_length bytes.now)) }
{
    if bytes.len() < 4 {
        return None;
    }
    let length = u32::from_be_bytes([bytes[0], bytes[1], bytes[2], bytes[3]]) as usize;
    if 1 <= length && length <= MAX_PAYLOAD && length <= bytes.len() - 4 {
        Some(length)
    } else {
        None
    }
}

// The records from the first gate on.
fn scan(alloc: Global, bytes: &[u8]) -> Result<Found, Missed>
    requires { FIRST_GATE ≤ length bytes.now }
    ensures { Scans result bytes.now }
{
    let mut payloads = Payloads::none(alloc);
    let mut past = ToldList::new();
    let mut payload = Payload::of(Vec::new(alloc));
    let mut at = FIRST_GATE as usize;
    'gates: while at < bytes.len() {
        if bytes[at] == 0 {
            return Ok(Found {
                payloads,
                past,
                gate: at as u64,
            });
        }
        let Some(length) = whole_length(&bytes[at + 1..]) else {
            return Err(Missed::Damaged(at as u64));
        };
        let record = &bytes[at + 5..at + 5 + length];
        payload.set(record)?;
        past.tell(&payload);
        payloads.push(record)?;
        at += 5 + length;
    }
    Err(Missed::Damaged(at as u64))
}
