//! The powers of one number, as a table.

ghost use Rattle.std.specs.Prelude.{◌≡◌, ℕ, ◌+◌, ◌*◌, ◌^◌, ◌<◌, ◌≤◌, ◌↔◌, IsTrue, IfOk, length};
ghost use Rattle.weight_exact.specs.PowerTable.{AreFirstPowers};

use std::alloc::{AllocError, Global};
use std::marker::Model;

/// The greatest exponent to which a base of at least 2 may have a power below 2^128.
const MAX_EXPONENT: u32 = u128::BITS - 1;

/// The powers of a number that are below 2^128, up to an exponent.
///
/// The powers of 0 and 1 go without a table, so that one has at most 128 entries whatever the limit.
#[derive(Drop)]
pub(crate) struct PowerTable {
    base: u32,
    limit: u32,
    powers: Vec<u128>,
}

impl Model for PowerTable {
    ghost use Rattle.weight_exact.specs.PowerTable.{PowersOfBase, ServesPowers};

    ghost Value = { PowersOfBase };

    ghost view = { λ t. record { base = t.base; limit = t.limit } };

    ghost invariant = { λ t. ServesPowers t.base t.limit t.powers.items };
}

impl PowerTable {
    /// The powers of `base` to exponents up to `limit`.
    pub(crate) fn of(alloc: Global, base: u32, limit: u32) -> Result<PowerTable, AllocError>
        ensures { IfOk result (λ table. table ≡ record { base = base; limit = limit }) }
    {
        let powers = powers_up_to(alloc, base, last_exponent(base, limit))?;
        Ok(PowerTable {
            base,
            limit,
            powers,
        })
    }

    /// Whether the power is 0.
    pub(crate) fn vanishes(&self, exponent: u32) -> bool
        ensures { IsTrue result ↔ (self.now.base ^ exponent ≡ 0) }
    {
        self.base == 0 && 0 < exponent
    }

    /// The base to the power `exponent`.
    pub(crate) fn power(&self, exponent: u32) -> u128
        requires within { exponent ≤ self.now.limit }
        requires fits { self.now.base ^ exponent < 2 ^ 128 }
        ensures { result ≡ self.now.base ^ exponent }
    {
        if self.base < 2 && 0 < exponent {
            u128::from(self.base)
        } else {
            self.powers[exponent as usize]
        }
    }
}

/// The greatest exponent that a table goes up to, where its power is below 2^128: up to the limit, or 0 for a base that
/// needs no table.
fn last_exponent(base: u32, limit: u32) -> u32
    ensures few { result < 128 }
    ensures enough { 2 ≤ base → (e : ℕ) → e ≤ limit → base ^ e < 2 ^ 128 → e ≤ result }
{
    if base < 2 { 0 } else { limit.min(MAX_EXPONENT) }
}

/// The powers to the exponents 0 to `last` that are below 2^128, each made from the one before.
fn powers_up_to(alloc: Global, base: u32, last: u32) -> Result<Vec<u128>, AllocError>
    ensures some { IfOk result (λ powers. 0 < length powers.items) }
    ensures few { IfOk result (λ powers. length powers.items ≤ last + 1) }
    ensures powers { IfOk result (λ powers. AreFirstPowers base powers.items) }
    ensures all { IfOk result (λ powers.
        2 ≤ base → (e : ℕ) → e ≤ last → base ^ e < 2 ^ 128 → e < length powers.items) }
{
    let factor = u128::from(base);
    let mut power = 1_u128;
    let mut powers = Vec::with_capacity(alloc, last as usize + 1)?;
    powers.push(power)?;
    for _exponent in 0..last {
        let Some(next) = power.checked_mul(factor) else {
            return Ok(powers);
        };
        power = next;
        powers.push(power)?;
    }
    Ok(powers)
}
