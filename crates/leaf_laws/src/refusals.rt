//! When a command is refused.
ghost use Rattle.std.specs.Prelude.{◌≡◌, ◌↔◌, ℕ, List};
ghost use Rattle.farm_entry.specs.Decision.{decide};
ghost use Rattle.farm_entry.specs.Legal.{IsLegal};
ghost use Rattle.leaf_laws.specs.Causes.{CauseOf, HasEnded, HasManySearches, HasNoRevert, HasNoRun, IsClash, IsFull, IsOfNoLease, IsOfNoSearch, IsOutside, IsOverDay, IsRefusedClosed};

use farm_entry::{Command, Decision, Entry, Refusal};
use farm_types::Moment;

/// A command is refused exactly where the history holds the refusal's cause, whatever the refusal. So a farm that
/// refused one entry, one search or one order early, or late, would break this law.
pub fn refusals_have_their_causes()
    ensures { (H : List Entry) (q : Command) (m : Moment) (r : Refusal) → IsLegal H
        → (decide H q m ≡ Decision.Refuse r) ↔ CauseOf r H q m }
{}
