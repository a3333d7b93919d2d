//! The law of a handover. A function here does nothing: its contract is the law.

ghost use Rattle.std.specs.Prelude.{◌≡◌, ◌≤◌, List, length, Ok};
ghost use Rattle.farm_entry.specs.Legal.{IsLegal};
ghost use Rattle.farm_entry.specs.Orders.{orders};
ghost use Rattle.farm_entry.specs.declared.limits.TheConstants.{MAX_CARRIED};
ghost use Rattle.farm_handover.specs.Handover.{handed_over, handover_of};

use farm_entry::Entry;

/// What a farm hands over is read as the orders that stand in it, where the next one may carry as many.
pub fn what_is_handed_over_is_read()
    ensures { (H : List Entry) → IsLegal H → length (orders H) ≤ MAX_CARRIED
        → handed_over (handover_of H) ≡ Ok (orders H) }
{}
