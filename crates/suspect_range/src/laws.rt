//! Facts about ranges, each of them the contract of a call that does nothing.

ghost use Rattle.std.specs.Prelude.{◌≡◌, ◌↔◌, ℕ, List, None, IsTrue};
ghost use Rattle.suspect_range.specs.Faults.{range_fault};
ghost use Rattle.suspect_range.specs.Range.{IsSuspectRange};
ghost use Rattle.suspect_range.specs.SameRange.{same_range, same_suspect};

use crate::{Suspect, SuspectRange};
use farm_types::CommitId;

/// Suspects make a range exactly where there are some, no more than a search may have, each weight and the calm weight
/// are in range, and all commits differ, the base's among them.
pub fn ranges_have_no_fault()
    ensures { (base : CommitId) (suspects : List Suspect) (calm : ℕ) →
        (range_fault base suspects calm ≡ None) ↔ IsSuspectRange base suspects calm }
{}

/// Suspects and ranges are equal, as `==` tells, exactly where what they hold is the same.
pub fn equal_by_contents()
    ensures suspects { (a b : Suspect) → IsTrue (same_suspect a b) ↔ (a ≡ b) }
    ensures ranges { (a b : SuspectRange) → IsTrue (same_range a b) ↔ (a ≡ b) }
{}
