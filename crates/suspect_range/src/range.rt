ghost use Rattle.std.specs.Prelude.{◌≡◌, ◌≤◌, ◌<◌, ◌+◌, length, map, position, take, Some, None, IfSome, OnOk, IfOk, IfErr};
ghost use Rattle.suspect_range.specs.Faults.{first_bad_weight, first_repeat, has_bad_weight, is_among, is_repeat, range_fault};
ghost use Rattle.suspect_range.specs.Marks.{AreMarked};
ghost use Rattle.suspect_range.specs.Range.{commits_of};

use crate::marks::Marks;
use crate::{RangeFault, Suspect};
use farm_types::{CommitId, Memory};
use std::alloc::Global;
use std::marker::Model;
use weight_exact::{MAX_CALM, MAX_SUSPECTS, MAX_WEIGHT};

/// A base commit, the suspects that stand above it in commit order, and the calm weight, which says how likely it is
/// that no suspect is the culprit. Position 0 is the base, and position k is the tree with suspects 1 to k applied.
///
/// There are 1 to [`MAX_SUSPECTS`] suspects, their weights are 1 to [`MAX_WEIGHT`] and the calm weight 1 to
/// [`MAX_CALM`], and all commits differ, the base's among them.
pub struct SuspectRange {
    base: CommitId,
    suspects: Vec<Suspect>,
    calm: u32,
}

// Written out, so that the crates above cite its proof, and prove none of its fields' drops again.
impl Drop for SuspectRange {
    fn drop(self) {
        let SuspectRange {
            base: _,
            suspects: _,
            calm: _,
        } = self;
    }
}

impl Model for SuspectRange {
    ghost use Rattle.suspect_range.specs.Range.{RangeView, IsSuspectRange};

    ghost Value = { RangeView };

    ghost view = { λ range. record { base = range.base; suspects = range.suspects.items; calm = range.calm } };

    ghost invariant = { λ range. IsSuspectRange range.base range.suspects.items range.calm };
}

impl PartialEq for SuspectRange {
    ghost use Rattle.std.specs.Cmp.{partial_equiv_from_equiv};
    ghost use Rattle.suspect_range.specs.SameRange.{same_range, same_range-equiv};

    ghost eq = { same_range };

    ghost laws = { partial_equiv_from_equiv same_range-equiv };

    fn eq(&self, other: &SuspectRange) -> bool {
        self.base == other.base && self.suspects == other.suspects && self.calm == other.calm
    }
}

impl Eq for SuspectRange {
    ghost use Rattle.suspect_range.specs.SameRange.{same_range-equiv};

    ghost laws = { same_range-equiv };
}

impl SuspectRange {
    ghost use Rattle.suspect_range.specs.Range.{IsSuspectRange, commit_at, weight_at};
    ghost use Rattle.weight_exact.specs.Limits.{ArePriors, IsCalm, IsWeight};

    /// The range of these suspects, in commit order above the base, which takes no memory. The first fault in the order
    /// of [`RangeFault`] is answered.
    pub fn of(base: CommitId, suspects: Vec<Suspect>, calm: u32) -> Result<SuspectRange, RangeFault>
        ensures taken { OnOk result (range_fault base suspects.items calm ≡ None) }
        ensures kept { IfOk result (λ range. range ≡ record { base = base; suspects = suspects.items; calm = calm }) }
        ensures refused { IfErr result (λ fault. range_fault base suspects.items calm ≡ Some fault) }
    {
        if suspects.is_empty() {
            return Err(RangeFault::NoSuspects);
        }
        if suspects.len() > MAX_SUSPECTS {
            return Err(RangeFault::TooManySuspects(suspects.len()));
        }
        if let Some(position) = first_bad_weight(&suspects) {
            return Err(RangeFault::WeightRange(position));
        }
        if !(1..=MAX_CALM).contains(&calm) {
            return Err(RangeFault::CalmRange(calm));
        }
        if let Some(position) = first_repeat(base, &suspects) {
            return Err(RangeFault::RepeatedCommit(position));
        }
        Ok(SuspectRange {
            base,
            suspects,
            calm,
        })
    }

    /// How many suspects there are, which is the greatest position.
    pub fn len(&self) -> usize
        ensures len { result ≡ length self.now.suspects }
        ensures in_range { (1 ≤ result) × (result ≤ MAX_SUSPECTS) }
    {
        self.suspects.len()
    }

    /// The commit at a position: the base's at 0, else the suspect's.
    pub fn commit(&self, position: usize) -> CommitId
        requires { position ≤ length self.now.suspects }
        ensures { result ≡ commit_at self.now.base self.now.suspects position }
    {
        match position.checked_sub(1) {
            Some(index) => self.suspects[index].commit,
            None => self.base,
        }
    }

    /// The weight of the suspect at a position from 1 on.
    pub fn weight(&self, position: usize) -> u32
        requires low { 1 ≤ position }
        requires high { position ≤ length self.now.suspects }
        ensures weight { result ≡ weight_at self.now.suspects position }
        ensures in_range { IsWeight result }
    {
        self.suspects[position - 1].weight
    }

    /// The suspects in commit order; the one at position k is at index k - 1.
    pub fn suspects(&self) -> &[Suspect]
        ensures suspects { result.now ≡ self.now.suspects }
        ensures legal { IsSuspectRange self.now.base self.now.suspects self.now.calm }
    {
        &self.suspects
    }

    /// The weights of all suspects in commit order, as a list of their own. With the calm weight they are the priors
    /// of a search.
    pub fn weights(&self, alloc: Global) -> Result<Vec<u32>, Memory>
        ensures weights { IfOk result (λ weights. weights.items ≡ map (λ suspect. suspect.weight) self.now.suspects) }
        ensures priors { IfOk result (λ weights. ArePriors weights.items self.now.calm) }
    {
        let weights = self.suspects.iter().map(|suspect| suspect.weight);
        Ok(weights.collect(alloc)?)
    }

    /// The calm weight.
    pub fn calm(&self) -> u32
        ensures calm { result ≡ self.now.calm }
        ensures in_range { IsCalm result }
    {
        self.calm
    }

    /// A copy of the range, on the allocator of the range itself.
    pub fn copy(&self) -> Result<SuspectRange, Memory>
        ensures { IfOk result (λ range. range ≡ self.now) }
    {
        Ok(SuspectRange {
            base: self.base,
            suspects: Vec::from_slice(*self.suspects.allocator(), &self.suspects)?,
            calm: self.calm,
        })
    }
}

/// The position of the first suspect whose weight is out of range.
fn first_bad_weight(suspects: &[Suspect]) -> Option<usize>
    ensures { result ≡ first_bad_weight suspects.now }
{
    bad_weight_index(suspects).map(|index| index + 1)
}

/// The index of the first suspect whose weight is out of range.
fn bad_weight_index(suspects: &[Suspect]) -> Option<usize>
    ensures index { result ≡ position has_bad_weight suspects.now }
    ensures within { IfSome result (λ index. index < length suspects.now) }
{
    suspects
        .iter()
        .position(|suspect| !(1..=MAX_WEIGHT).contains(&suspect.weight))
}

/// The position of the first suspect whose commit stands below it too. It takes no memory. A commit is compared with
/// all below it only where one of them has its mark, as few have.
fn first_repeat(base: CommitId, suspects: &[Suspect]) -> Option<usize>
    ensures { result ≡ first_repeat base suspects.now }
{
    let mut below = Marks::new();
    below.put(base);
    for index in 0..suspects.len() {
        if repeats(&below, base, suspects, index) {
            return Some(index + 1);
        }
        below.put(suspects[index].commit);
    }
    None
}

/// Whether the commit of the suspect at this index is the base or an earlier suspect's, by the marks of those.
fn repeats(below: &Marks, base: CommitId, suspects: &[Suspect], index: usize) -> bool
    requires within { index < length suspects.now }
    requires marked { AreMarked below.now.words (take (index + 1) (commits_of base suspects.now)) }
    ensures { result ≡ is_repeat base suspects.now (index + 1) }
{
    if below.has(suspects[index].commit) {
        is_repeat(base, suspects, index)
    } else {
        false
    }
}

/// Whether the commit of the suspect at this index is the base or an earlier suspect's.
fn is_repeat(base: CommitId, suspects: &[Suspect], index: usize) -> bool
    requires { index < length suspects.now }
    ensures { result ≡ is_repeat base suspects.now (index + 1) }
{
    let commit = suspects[index].commit;
    base == commit || is_among(commit, &suspects[..index])
}

/// Whether a commit is one of the suspects'.
fn is_among(commit: CommitId, suspects: &[Suspect]) -> bool
    ensures { result ≡ is_among commit suspects.now }
{
    suspects.iter().any(|suspect| suspect.commit == commit)
}
