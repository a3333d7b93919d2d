//! What the plan of a drill comes to. A function here does nothing: its contract is the law.

ghost use Rattle.std.specs.Prelude.{◌≡◌, ◌≤◌, ◌+◌, ℕ, List, [], ◌∷◌, ◌++◌};
ghost use Rattle.farm_entry.specs.Decision.{decide};
ghost use Rattle.farm_entry.specs.declared.command.Command.TheVariants.{Open};
ghost use Rattle.farm_entry.specs.declared.decision.Decision.TheVariants.{New};
ghost use Rattle.farm_entry.specs.declared.limits.TheConstants.{MAX_SEARCHES};
ghost use Rattle.drill_plan.specs.Plan.{planned_ask};
ghost use Rattle.drill_plan.specs.Start.{IsStart, IsOpened, drill_moment};

use farm_entry::Entry;

/// No open of a drill is refused: where all searches before it are opened, the farm opens it.
pub fn planned_opens_are_taken()
    ensures { (H : List Entry) (before : ℕ) → IsStart before H → before + 1 ≤ MAX_SEARCHES
        → (e : Entry) × IsOpened (before + 1) e
        × (decide H (Open (planned_ask (before + 1))) drill_moment ≡ New e)
        × IsStart (before + 1) (H ++ e ∷ []) }
{}
