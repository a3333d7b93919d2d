//! What becomes of a history as commands are decided one after the other.
ghost use Rattle.std.specs.Prelude.{◌≡◌, ℕ, ◌+◌, ◌≤◌, List, ◌++◌, length};
ghost use Rattle.farm_entry.specs.Decision.{decide};
ghost use Rattle.farm_entry.specs.Legal.{IsLegal};
ghost use Rattle.farm_entry.specs.Playing.{after, played};

use farm_entry::{Command, Entry};
use farm_types::Moment;

/// Whatever commands come, at whatever moments, the history stays legal, and only grows at its end: by at most one
/// entry for each command.
pub fn played_histories_are_legal()
    ensures one { (H : List Entry) (q : Command) (m : Moment) → IsLegal H → IsLegal (after H (decide H q m)) }
    ensures legal { (H : List Entry) (asked : List (Command × Moment)) → IsLegal H → IsLegal (played H asked) }
    ensures extended { (H : List Entry) (asked : List (Command × Moment))
        → (more : List Entry) × (played H asked ≡ H ++ more) × (length more ≤ length asked) }
{}
