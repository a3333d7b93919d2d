//! The runs of a belief, counted by position.

ghost use Rattle.std.specs.Prelude.{◌≡◌, ◌+◌, ◌-◌, ◌<◌, ◌≤◌, ◌^◌, ◌↔◌, ℕ, length, vec_len, slice_index, slice_set, replicate, EachIndex, IfOk, IsTrue, if◌then◌else◌};
ghost use Rattle.std.specs.Bool.{OnTrue};
ghost use Rattle.weight_exact.specs.Load.{is_fail};
ghost use Rattle.posterior.specs.Kept.{at};
ghost use Rattle.posterior.specs.Counted.{AreCleared, counted};

use std::alloc::{AllocError, Global};
use weight_exact::Verdict;

/// How many runs failed, and how many passed, at each position from 1 to n. Up to the floor none is counted. All that
/// are counted are at most the budget of a search, which fits a byte.
#[derive(Drop)]
pub struct Tallies {
    pub floor: u16,
    pub fails: Vec<u8>,
    pub passes: Vec<u8>,
    pub failed: u32,
    pub passed: u32,
    pub ghost same_length: { vec_len passes ≡ vec_len fails },
    pub ghost in_range: { floor ≤ vec_len fails },
    pub ghost all_fails: { failed ≡ counted fails.items },
    pub ghost all_passes: { passed ≡ counted passes.items },
    pub ghost fails_cleared: { AreCleared floor fails.items },
    pub ghost passes_cleared: { AreCleared floor passes.items },
}

impl Tallies {
    /// No runs, at `n` positions.
    pub fn none(alloc: Global, n: usize) -> Result<Tallies, AllocError>
        ensures fails { IfOk result (λ t. t.fails.items ≡ replicate n 0) }
        ensures passes { IfOk result (λ t. t.passes.items ≡ replicate n 0) }
        ensures floor { IfOk result (λ t. t.floor ≡ 0) }
        ensures none { IfOk result (λ t. t.failed + t.passed ≡ 0) }
    {
        Ok(Tallies {
            floor: 0,
            fails: zeros(alloc, n)?,
            passes: zeros(alloc, n)?,
            failed: 0,
            passed: 0,
        })
    }

    /// Counts a run at a position above the floor.
    pub fn count(&mut self, position: u16, verdict: Verdict)
        requires above { self.old.floor < position }
        requires last { position ≤ vec_len self.old.fails }
        requires room { self.old.failed + self.old.passed + 1 < 2 ^ 8 }
        ensures floor { self.new.floor ≡ self.old.floor }
        ensures fails { self.new.fails.items ≡ (if is_fail verdict
            then slice_set self.old.fails.items (position - 1) (at self.old.fails.items position + 1)
            else self.old.fails.items) }
        ensures passes { self.new.passes.items ≡ (if is_fail verdict
            then self.old.passes.items
            else slice_set self.old.passes.items (position - 1) (at self.old.passes.items position + 1)) }
        ensures one { self.new.failed + self.new.passed ≡ self.old.failed + self.old.passed + 1 }
    {
        match verdict {
            Verdict::Fail => self.failed = count_at(&mut self.fails, self.failed, position),
            Verdict::Pass => self.passed = count_at(&mut self.passes, self.passed, position),
        }
    }

    /// Whether no fail is counted up to a position.
    pub fn has_no_fail_to(&self, position: u16) -> bool
        requires above { self.now.floor ≤ position }
        requires last { position ≤ vec_len self.now.fails }
        ensures { OnTrue result (AreCleared position self.now.fails.items) }
    {
        are_zeros(&self.fails[usize::from(self.floor)..usize::from(position)])
    }

    /// Raises the floor to a position. The runs up to there are counted no more.
    pub fn raise_floor(&mut self, position: u16)
        requires above { self.old.floor ≤ position }
        requires last { position ≤ vec_len self.old.fails }
        ensures floor { self.new.floor ≡ position }
        ensures fails { (p : ℕ) → position < p → at self.new.fails.items p ≡ at self.old.fails.items p }
        ensures passes { (p : ℕ) → position < p → at self.new.passes.items p ≡ at self.old.passes.items p }
        ensures length { vec_len self.new.fails ≡ vec_len self.old.fails }
        ensures fewer_fails { self.new.failed ≤ self.old.failed }
        ensures fewer_passes { self.new.passed ≤ self.old.passed }
    {
        let (floor, end) = (usize::from(self.floor), usize::from(position));
        self.failed = clear_between(&mut self.fails, self.failed, floor, end);
        self.passed = clear_between(&mut self.passes, self.passed, floor, end);
        self.floor = position;
    }

    /// Counts no run any more, with the floor at 0.
    pub fn clear(&mut self)
        ensures floor { self.new.floor ≡ 0 }
        ensures fails { AreCleared (vec_len self.new.fails) self.new.fails.items }
        ensures passes { AreCleared (vec_len self.new.fails) self.new.passes.items }
        ensures length { vec_len self.new.fails ≡ vec_len self.old.fails }
        ensures none { self.new.failed + self.new.passed ≡ 0 }
    {
        let (floor, n) = (usize::from(self.floor), self.fails.len());
        self.failed = clear_between(&mut self.fails, self.failed, floor, n);
        self.passed = clear_between(&mut self.passes, self.passed, floor, n);
        self.floor = 0;
    }
}

/// As many zeros.
fn zeros(alloc: Global, n: usize) -> Result<Vec<u8>, AllocError>
    ensures { IfOk result (λ v. v.items ≡ replicate n 0) }
{
    vec![in alloc; 0; n]
}

/// Counts one run more at a position, and gives the new number of all.
fn count_at(counts: &mut [u8], all: u32, position: u16) -> u32
    requires all { all ≡ counted counts.old }
    requires room { all + 1 < 2 ^ 8 }
    requires first { 1 ≤ position }
    requires last { position ≤ length counts.old }
    ensures after { counts.new ≡ slice_set counts.old (position - 1) (at counts.old position + 1) }
    ensures all { result ≡ counted counts.new }
    ensures one { result ≡ all + 1 }
{
    counts[position as usize - 1] += 1;
    all + 1
}

/// Whether nothing is counted.
fn are_zeros(counts: &[u8]) -> bool
    ensures { IsTrue result ↔ EachIndex counts.now (λ k. slice_index counts.now k ≡ 0) }
{
    counts.iter().all(|count| *count == 0)
}

/// Counts nothing any more at the positions above `start` and up to `end`, where nothing is counted below them, and
/// gives the number of those that stay.
fn clear_between(counts: &mut [u8], all: u32, start: usize, end: usize) -> u32
    requires all { all ≡ counted counts.old }
    requires none { AreCleared start counts.old }
    requires order { start ≤ end }
    requires end { end ≤ length counts.old }
    ensures cleared { AreCleared end counts.new }
    ensures above { (p : ℕ) → end < p → at counts.new p ≡ at counts.old p }
    ensures all { result ≡ counted counts.new }
    ensures fewer { result ≤ all }
{
    // (passes are counted only where a broken test may pass)
    if all == 0 {
        return 0;
    }
    let mut left = all;
    for index in start..end {
        left -= u32::from(counts[index]);
        counts[index] = 0;
    }
    left
}
