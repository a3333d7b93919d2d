//! Laws of the values that a farm holds: within which limits numbers are settings, and when values are equal.

ghost use Rattle.std.specs.Prelude.{◌≡◌, ◌↔◌, ℕ, ℤ, None, IsTrue};
ghost use Rattle.farm_entry.specs.Limits.{IsDailyLimit, IsLeaseTime, IsZone};
ghost use Rattle.farm_entry.specs.Settings.{settings_fault};

use farm_entry::{Entry, Opening};

/// Three numbers are settings exactly where each of them is within its limits.
pub fn settings_have_no_fault()
    ensures { (lease_ms daily : ℕ) (zone_minutes : ℤ) → (settings_fault lease_ms daily zone_minutes ≡ None)
        ↔ (IsLeaseTime lease_ms × IsDailyLimit daily × IsZone zone_minutes) }
{}

/// Openings and entries are equal, as `==` tells, exactly where all that they hold is the same.
pub fn equal_by_contents()
    ensures openings { (a b : Opening) → IsTrue (⟦<Opening as PartialEq>⟧.eq a b) ↔ (a ≡ b) }
    ensures entries { (a b : Entry) → IsTrue (⟦<Entry as PartialEq>⟧.eq a b) ↔ (a ≡ b) }
{}
