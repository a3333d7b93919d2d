//! The farm of the payloads of a journal, and of entries that came from elsewhere.

ghost use Rattle.std.specs.Prelude.{◌≡◌, ◌≢◌, ◌≤◌, [], All, length, take, IfOk, IfErr, OnOk};
ghost use Rattle.entry_codec.specs.Grammar.{AreSpelled};
ghost use Rattle.entry_codec.specs.Spelling.{spelling};
ghost use Rattle.farm_entry.specs.Legal.{IsLegal};
ghost use Rattle.farm_journal.specs.Layout.{IsPayload, gate_of};
ghost use Rattle.farm_store.specs.Admitted.{Adds, GoesOn, IsMisfit, IsMissed, MakesFarm, SpellsNone};
ghost use Rattle.farm_store.specs.StoreInside.{Keeps};

use entry_codec::{CodecFault, read_entries};
use farm_core::{AdmitFault, Farm};
use farm_entry::Entry;
use farm_journal::{FIRST_GATE, OpeningFault, Payloads};
use farm_types::Memory;
use std::alloc::Global;

/// The farm whose history these payloads spell, or the gate of the first record that doesn't fit.
pub fn farm_of(alloc: Global, payloads: &Payloads) -> Result<Farm, OpeningFault>
    requires { All IsPayload payloads.now }
    ensures farm { IfOk result (λ farm. Keeps payloads.now farm.history) }
    ensures missed { IfErr result (IsMissed payloads.now) }
{
    if payloads.len() == 0 {
        return Err(OpeningFault::Damaged(FIRST_GATE));
    }
    let first = payloads.at(0);
    match begin(alloc, first) {
        Ok(farm) => grow(alloc, farm, FIRST_GATE + 5 + first.len() as u64, payloads),
        Err(AdmitFault::Illegal) => Err(OpeningFault::Damaged(FIRST_GATE)),
        Err(AdmitFault::Memory) => Err(OpeningFault::Memory),
    }
}

/// The farm of the first payload with the entries of all others; the gate is that of the second record.
fn grow(alloc: Global, farm: Farm, gate: u64, payloads: &Payloads) -> Result<Farm, OpeningFault>
    requires fit { All IsPayload payloads.now }
    requires some { 1 ≤ length payloads.now }
    requires begun { Keeps (take 1 payloads.now) farm.history }
    requires behind { gate ≡ gate_of (take 1 payloads.now) }
    ensures farm { IfOk result (λ grown. Keeps payloads.now grown.history) }
    ensures missed { IfErr result (IsMissed payloads.now) }
{
    let mut farm = farm;
    let mut gate = gate;
    for i in 1..payloads.len() {
        let payload = payloads.at(i);
        match go_on(alloc, &mut farm, payload) {
            Ok(()) => gate += 5 + payload.len() as u64,
            Err(AdmitFault::Illegal) => return Err(OpeningFault::Damaged(gate)),
            Err(AdmitFault::Memory) => return Err(OpeningFault::Memory),
        }
    }
    Ok(farm)
}

/// The farm whose history a payload begins.
fn begin(alloc: Global, payload: &[u8]) -> Result<Farm, AdmitFault>
    ensures farm { IfOk result (λ farm. GoesOn payload.now [] farm.history) }
    ensures misfit { IfErr result (IsMisfit payload.now []) }
{
    let mut entries = entries_of(alloc, payload)?;
    if entries.is_empty() {
        return Err(AdmitFault::Illegal);
    }
    let first = entries.remove(0);
    let mut farm = Farm::founded_by(alloc, &first)?;
    farm.admit_all(entries)?;
    Ok(farm)
}

/// Goes on with the entries of a further payload.
fn go_on(alloc: Global, farm: &mut Farm, payload: &[u8]) -> Result<(), AdmitFault>
    requires { IsLegal farm.old.history }
    ensures farm { OnOk result (GoesOn payload.now farm.old.history farm.new.history) }
    ensures misfit { IfErr result (IsMisfit payload.now farm.old.history) }
{
    let entries = entries_of(alloc, payload)?;
    farm.admit_all(entries)
}

/// The entries that a payload spells.
fn entries_of(alloc: Global, payload: &[u8]) -> Result<Vec<Entry>, AdmitFault>
    ensures spelled { IfOk result (λ entries. AreSpelled entries.items) }
    ensures is { IfOk result (λ entries. payload.now ≡ spelling entries.items) }
    ensures none { IfErr result (SpellsNone payload.now) }
{
    match read_entries(alloc, payload) {
        Ok(entries) => Ok(entries),
        Err(CodecFault::Bad(_)) => Err(AdmitFault::Illegal),
        Err(CodecFault::Memory) => Err(AdmitFault::Memory),
    }
}

/// The farm whose history is copies of these entries, or the index of the first of them that can't come next.
pub fn farm_by(alloc: Global, entries: &[Entry]) -> Result<Result<Farm, usize>, Memory>
    requires { entries.now ≢ [] }
    ensures { MakesFarm entries.now result }
{
    let Some((first, others)) = entries.split_first() else {
        unreachable!();
    };
    let mut farm = match Farm::founded_by(alloc, first) {
        Ok(farm) => farm,
        Err(AdmitFault::Illegal) => return Ok(Err(0)),
        Err(AdmitFault::Memory) => return Err(Memory),
    };
    match add_all(alloc, &mut farm, others) {
        Ok(Ok(())) => Ok(Ok(farm)),
        Ok(Err(index)) => Ok(Err(index + 1)),
        Err(memory) => Err(memory),
    }
}

/// Adds copies of entries to a farm. Where one of them can't come next, none is added, and its index is told.
pub fn add_all(
    alloc: Global,
    farm: &mut Farm,
    entries: &[Entry],
) -> Result<Result<(), usize>, Memory>
    ensures adds { Adds entries.now farm.old.history result farm.new.history }
    ensures legal { IsLegal farm.new.history }
{
    let start = farm.history().len();
    let Ok(made) = copies(alloc, entries) else {
        return Err(Memory);
    };
    match farm.admit_all(made) {
        Ok(()) => Ok(Ok(())),
        Err(fault) => {
            let count = farm.history().len() - start;
            farm.retract(count);
            match fault {
                AdmitFault::Illegal => Ok(Err(count)),
                AdmitFault::Memory => Err(Memory),
            }
        }
    }
}

/// Copies of entries, in their order.
pub fn copies(alloc: Global, entries: &[Entry]) -> Result<Vec<Entry>, Memory>
    ensures { IfOk result (λ made. made.items ≡ entries.now) }
{
    let mut made = Vec::new(alloc);
    for entry in entries {
        made.push(entry.copy()?)?;
    }
    Ok(made)
}
