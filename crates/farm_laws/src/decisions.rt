//! Laws of the decisions: what was answered stays.

ghost use Rattle.std.specs.Prelude.{◌≡◌, ℕ, ◌<◌, List, ◌++◌, length, slice_get, Some};
ghost use Rattle.farm_entry.specs.Legal.{IsLegal, command_of};
ghost use Rattle.farm_entry.specs.Reply.{reply_at};

use farm_entry::{Command, Entry, Reply};

/// Each entry that a command made has a reply, which stays the same whatever comes later.
pub fn replies_stay()
    ensures there { (H : List Entry) (place : ℕ) (e : Entry) (q : Command) → IsLegal H → slice_get H place ≡ Some e
        → command_of e.what ≡ Some q → (r : Reply) × (reply_at H place ≡ Some r) }
    ensures same { (H K : List Entry) (place : ℕ) → place < length H → reply_at (H ++ K) place ≡ reply_at H place }
{}
