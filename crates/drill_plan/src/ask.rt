//! The open of a search of a drill.

ghost use Rattle.std.specs.Prelude.{◌≡◌, ◌≤◌, ◌<◌, codes, map, IfOk};
ghost use Rattle.std.specs.List.{range_with_len};
ghost use Rattle.farm_entry.specs.declared.limits.TheConstants.{MAX_SEARCHES};
ghost use Rattle.drill_plan.specs.Digits.{two_digits};
ghost use Rattle.drill_plan.specs.Plan.{commit_numbered, planned_ask, planned_suspect, planned_suspects};

use crate::limits::SEARCH_SPAN;
use crate::truth::planned_suspects;
use farm_entry::{OpenAsk, Suspects};
use farm_types::{CommitId, ID_BYTES, Key, Memory, Name, NameFault};
use std::alloc::Global;
use suspect_range::Suspect;

/// The test that each search of a drill is about.
const TEST: &str = "drill";

/// The open of a search, under its number as the key.
pub fn planned_ask(alloc: Global, search: u32) -> Result<OpenAsk, Memory>
    requires { search ≤ MAX_SEARCHES }
    ensures { IfOk result (λ ask. ask ≡ planned_ask search) }
{
    let suspects = planned_suspects(search);
    Ok(OpenAsk {
        key: Key(u128::from(search)),
        test: test_name(alloc)?,
        base: commit_numbered(search * SEARCH_SPAN),
        suspects: suspects_of(alloc, search)?,
        calm: 1 + suspects / 2,
        rate: (1, 5 + search % 4),
        miss: (0, 1),
        bar: (99, 100),
        width: 1 + search % 8,
        reruns: 1 + search % 3,
    })
}

/// The name of the test.
fn test_name(alloc: Global) -> Result<Name, Memory>
    ensures { IfOk result (λ name. name ≡ codes "drill") }
{
    match Name::of(alloc, TEST) {
        Ok(name) => Ok(name),
        Err(NameFault::Memory) => Err(Memory),
        Err(_) => unreachable!(),
    }
}

/// The suspects of a search.
fn suspects_of(alloc: Global, search: u32) -> Result<Suspects, Memory>
    requires { search ≤ MAX_SEARCHES }
    ensures { IfOk result
        (λ suspects. suspects ≡ map (planned_suspect search) (range_with_len 1 (planned_suspects search))) }
{
    let count = planned_suspects(search);
    let mut suspects = Vec::with_capacity(alloc, count as usize)?;
    for before in 0..count {
        suspects.push(suspect(search, before + 1))?;
    }
    Ok(Suspects::of(suspects))
}

/// The suspect of a search at a position.
fn suspect(search: u32, position: u32) -> Suspect
    requires search { search ≤ MAX_SEARCHES }
    requires position { position < SEARCH_SPAN }
    ensures { result ≡ planned_suspect search position }
{
    Suspect {
        commit: commit_numbered(search * SEARCH_SPAN + position),
        weight: 1 + position * search % 7,
    }
}

/// The commit whose 40 digits are a number in decimal.
fn commit_numbered(number: u32) -> CommitId
    requires { number < 100_000_000 }
    ensures { result ≡ commit_numbered number }
{
    let mut bytes = [0; ID_BYTES];
    bytes[16] = two_digits(number / 1_000_000);
    bytes[17] = two_digits(number / 10_000);
    bytes[18] = two_digits(number / 100);
    bytes[19] = two_digits(number);
    CommitId::of(bytes)
}

/// The byte whose two hexadecimal digits are the last two decimal digits of a number.
fn two_digits(number: u32) -> u8
    ensures { result ≡ two_digits number }
{
    (number / 10 % 10 * 16 + number % 10) as u8
}
