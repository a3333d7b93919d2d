//! The laws of a chain of farms. A function here does nothing: its contract is the law.

ghost use Rattle.std.specs.Prelude.{◌≡◌, ◌≢◌, ℕ, ◌<◌, ◌≤◌, false, List, [], ◌∷◌, ◌++◌, AllPairs};
ghost use Rattle.farm_rules.specs.Orders.{Ordered, orders_of};
ghost use Rattle.farm_entry.specs.Closing.{is_busy};
ghost use Rattle.farm_entry.specs.History.{daily_limit};
ghost use Rattle.farm_entry.specs.Legal.{IsLegal, IsNext};
ghost use Rattle.farm_entry.specs.Orders.{carried, given, orders};
ghost use Rattle.farm_entry.specs.declared.entry.What.TheVariants.{Closed};
ghost use Rattle.leaf_laws.specs.Chain.{IsChain, all_given, all_orders};

use farm_entry::Entry;

/// No commit is ordered twice by farms that follow one another, neither in one of them nor in two.
pub fn each_commit_is_ordered_once_for_good()
    ensures given { (farms : List (List Entry)) → IsChain farms
        → AllPairs (λ (a b : Ordered). a.commit ≢ b.commit) (all_given farms) }
    ensures carried_over { (farms : List (List Entry)) → IsChain farms
        → AllPairs (λ (a b : Ordered). a.commit ≢ b.commit) (all_orders farms) }
{}

/// No day has more orders, in all farms that follow one another, than the daily limit of the farm in which the last of
/// them was taken.
pub fn no_day_is_over_its_last_limit()
    ensures { (before after : List (List Entry)) (H : List Entry) (day : ℕ) → IsChain (before ++ H ∷ after)
        → 0 < orders_of day (given H) → orders_of day (all_given after) ≡ 0
        → orders_of day (all_given (before ++ H ∷ after)) ≤ daily_limit H }
{}

/// The last farm of a chain has all orders of the chain: what was carried over into the first, and what each farm gave,
/// in that order. In each farm those that were carried over stand before those that it gave.
pub fn each_farm_has_the_orders_before_it()
    ensures one { (H : List Entry) → IsLegal H → orders H ≡ carried H ++ given H }
    ensures all { (before : List (List Entry)) (H : List Entry) → IsChain (before ++ H ∷ [])
        → orders H ≡ all_orders (before ++ H ∷ []) }
{}

/// Nothing may come behind a closing, and a farm isn't busy as it is closed.
pub fn a_closed_farm_is_idle_for_good()
    ensures last { (H : List Entry) (e next : Entry) → e.what ≡ Closed → IsLegal (H ++ e ∷ [])
        → IsNext (H ++ e ∷ []) next → ⊥ }
    ensures idle { (H : List Entry) (e : Entry) → e.what ≡ Closed → IsLegal (H ++ e ∷ []) → is_busy H ≡ false }
{}
