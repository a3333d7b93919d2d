//! The cumulative sums of a search's weights.

ghost use Rattle.std.specs.Prelude.{◌≡◌, ◌+◌, ◌-◌, ◌*◌, ◌^◌, ◌<◌, ◌≤◌, ℕ, length, slice_index, slice_set, replicate, IfOk};
ghost use Rattle.weight_exact.specs.Cumulative.{AreSumsOf, AreRising, reweighed, reweighed_total};

use crate::Memory;
use crate::steps::Steps;
use std::alloc::Global;
use std::marker::Model;
use std::sync::ledger::Ledger;

/// One number for each hypothesis, 1 to n + 1: room for the cumulative sums of the weights of n suspects and of
/// "no culprit". A contract sees it as their list, which is never empty.
#[derive(Drop)]
pub struct Sums {
    numbers: Vec<u128>,
}

impl Model for Sums {
    ghost use Rattle.std.specs.Prelude.{List, ℕ, ◌<◌, vec_len};

    ghost Value = { List ℕ };

    ghost view = { λ s. s.numbers.items };

    ghost invariant = { λ s. 0 < vec_len s.numbers };
}

impl Sums {
    /// Room for n + 1 numbers, all 0.
    ///
    /// # Errors
    ///
    /// [`Memory`], where the room can't be had.
    pub fn room(alloc: Global, n: usize) -> Result<Sums, Memory>
        ensures { IfOk result (λ sums. sums ≡ replicate (n + 1) 0) }
    {
        let length = n.checked_add(1).ok_or(Memory)?;
        let numbers = vec![in alloc; 0; length]?;
        Ok(Sums { numbers })
    }

    /// Writes the number of hypothesis `i`, at the cost of one step.
    pub fn set<L: Ledger>(&mut self, i: usize, sum: u128, steps: &mut Steps<L>)
        requires first { 1 ≤ i }
        requires last { i ≤ length self.old }
        ensures after { self.new ≡ slice_set self.old (i - 1) sum }
        ensures cost { steps.new ≡ steps.old + 1 }
    {
        steps.tick();
        self.numbers[i - 1] = sum;
    }

    /// Multiplies the weights that these numbers are the sums of, in place: those of hypotheses up to `position` by
    /// `inside`, and the others by `outside`. Up to `floor` nothing weighs anything, so the numbers there stay as they
    /// are. Each of the others is changed, at the cost of one step.
    pub fn multiply<L: Ledger>(
        &mut self,
        floor: usize,
        position: usize,
        inside: u32,
        outside: u32,
        steps: &mut Steps<L>,
    )
        requires above { floor < position }
        requires last { position ≤ length self.old }
        requires none { (i : ℕ) → 1 ≤ i → i ≤ floor → slice_index self.old (i - 1) ≡ 0 }
        requires rising { AreRising self.old }
        requires room { reweighed_total self.old position inside outside < 2 ^ 128 }
        ensures length { length self.new ≡ length self.old }
        ensures sums { (w : ℕ → ℕ) → AreSumsOf w self.old → AreSumsOf (reweighed w position inside outside) self.new }
        ensures cost { steps.new ≡ steps.old + (length self.old - floor) }
    {
        steps.tick_each(self.numbers.len() - floor);
        reweigh(&mut self.numbers, floor, position, inside, outside);
    }

    /// The number of hypothesis `i`, at the cost of one step. No other call reads a single number but the last.
    pub fn at<L: Ledger>(&self, i: usize, steps: &mut Steps<L>) -> u128
        requires first { 1 ≤ i }
        requires last { i ≤ length self.now }
        ensures value { result ≡ slice_index self.now (i - 1) }
        ensures cost { steps.new ≡ steps.old + 1 }
    {
        steps.tick();
        self.numbers[i - 1]
    }

    /// The last number: where the others are cumulative, the total.
    pub fn total(&self) -> u128
        ensures { result ≡ slice_index self.now (length self.now - 1) }
    {
        self.numbers[self.numbers.len() - 1]
    }

    /// The number of suspects, n: one less than there are numbers.
    pub fn suspects(&self) -> usize
        ensures { result + 1 ≡ length self.now }
    {
        self.numbers.len() - 1
    }
}

/// Multiplies the weights that cumulative sums are made of: those up to a position by one number, and the others by
/// another. Up to the floor nothing weighs anything.
fn reweigh(sums: &mut [u128], floor: usize, position: usize, inside: u32, outside: u32)
    requires above { floor < position }
    requires last { position ≤ length sums.old }
    requires none { (i : ℕ) → 1 ≤ i → i ≤ floor → slice_index sums.old (i - 1) ≡ 0 }
    requires rising { AreRising sums.old }
    requires room { reweighed_total sums.old position inside outside < 2 ^ 128 }
    ensures { (w : ℕ → ℕ) → AreSumsOf w sums.old → AreSumsOf (reweighed w position inside outside) sums.new }
{
    let below = sums[position - 1];
    let base = below * u128::from(inside);
    scale(sums, floor, position, inside);
    spread(sums, position, below, base, outside);
}

/// Multiplies the numbers from index `start` up to index `end`, which isn't one of them.
fn scale(numbers: &mut [u128], start: usize, end: usize, factor: u32)
    requires order { start ≤ end }
    requires end { end ≤ length numbers.old }
    requires room { (k : ℕ) → start ≤ k → k < end → slice_index numbers.old k * factor < 2 ^ 128 }
    ensures within { (k : ℕ) → start ≤ k → k < end → slice_index numbers.new k ≡ slice_index numbers.old k * factor }
    ensures before { (k : ℕ) → k < start → slice_index numbers.new k ≡ slice_index numbers.old k }
    ensures after { (k : ℕ) → end ≤ k → slice_index numbers.new k ≡ slice_index numbers.old k }
{
    let factor = u128::from(factor);
    for index in start..end {
        numbers[index] *= factor;
    }
}

/// Multiplies by how much the numbers from index `start` on are more than `below`, and puts that on top of `base`.
fn spread(numbers: &mut [u128], start: usize, below: u128, base: u128, factor: u32)
    requires start { start ≤ length numbers.old }
    requires above { (k : ℕ) → start ≤ k → k < length numbers.old → below ≤ slice_index numbers.old k }
    requires room { (k : ℕ) → start ≤ k → k < length numbers.old →
        base + (slice_index numbers.old k - below) * factor < 2 ^ 128 }
    ensures above { (k : ℕ) → start ≤ k → k < length numbers.old →
        slice_index numbers.new k ≡ base + (slice_index numbers.old k - below) * factor }
    ensures before { (k : ℕ) → k < start → slice_index numbers.new k ≡ slice_index numbers.old k }
{
    let factor = u128::from(factor);
    for index in start..numbers.len() {
        numbers[index] = base + (numbers[index] - below) * factor;
    }
}
