//! Laws of every legal history: what stands in it once, in which order, and how much.

ghost use Rattle.std.specs.Prelude.{◌≡◌, ◌≢◌, ◌↔◌, ℕ, ◌+◌, ◌<◌, ◌≤◌, false, List, [], ◌∷◌, ◌++◌, length, map, AllPairs};
ghost use Rattle.std.specs.List.{range_with_len};
ghost use Rattle.farm_rules.specs.Orders.{Ordered, orders_of};
ghost use Rattle.farm_types.specs.Moment.{moment_ms};
ghost use Rattle.farm_entry.specs.History.{all_leases, daily_limit, is_closed, openings, order_lines};
ghost use Rattle.farm_entry.specs.Legal.{IsLegal, IsNext};
ghost use Rattle.farm_entry.specs.Orders.{given, orders};
ghost use Rattle.farm_entry.specs.declared.limits.TheConstants.{MAX_ENTRIES, MAX_SEARCHES};

use farm_entry::{Entry, LeasedRun, Opening, OrderLine};

/// A legal history grows by entries that may come next, one after the other, and each beginning of it is legal.
pub fn legal_histories_grow_by_entries()
    ensures one_more { (H : List Entry) (e : Entry) → IsLegal H → IsLegal (H ++ e ∷ []) ↔ IsNext H e }
    ensures beginning { (H K : List Entry) → H ≢ [] → IsLegal (H ++ K) → IsLegal H }
{}

/// Moments never fall from entry to entry.
pub fn moments_never_fall()
    ensures { (H : List Entry) → IsLegal H → AllPairs (λ (a b : Entry). moment_ms a.at ≤ moment_ms b.at) H }
{}

/// Searches, runs and orders are numbered 1, 2, 3 and so on, in the order of their entries.
pub fn numbered_in_order()
    ensures searches { (H : List Entry) → IsLegal H
        → map (λ (o : Opening). o.search) (openings H) ≡ range_with_len 1 (length (openings H)) }
    ensures runs { (H : List Entry) → IsLegal H
        → map (λ (l : LeasedRun). l.run) (all_leases H) ≡ range_with_len 1 (length (all_leases H)) }
    ensures orders { (H : List Entry) → IsLegal H
        → map (λ (x : OrderLine). x.order) (order_lines H) ≡ range_with_len 1 (length (order_lines H)) }
{}

/// A history has at most a million entries, and its closing behind them where it is closed; and at most two thousand
/// searches.
pub fn histories_are_bounded()
    ensures entries { (H : List Entry) → IsLegal H → length H ≤ MAX_ENTRIES + 1 }
    ensures unclosed { (H : List Entry) → IsLegal H → is_closed H ≡ false → length H ≤ MAX_ENTRIES }
    ensures searches { (H : List Entry) → IsLegal H → length (openings H) ≤ MAX_SEARCHES }
{}

/// Each commit is ordered to be reverted at most once, whatever the number of searches that found it, and never where
/// an order for it was carried over.
pub fn each_commit_is_ordered_once()
    ensures given { (H : List Entry) → IsLegal H
        → AllPairs (λ (a b : OrderLine). a.commit ≢ b.commit) (order_lines H) }
    ensures carried { (H : List Entry) → IsLegal H → AllPairs (λ (a b : Ordered). a.commit ≢ b.commit) (orders H) }
{}

/// The farm gives no day more orders than the limit that it was founded with; and a day on which it gives one has no
/// more than that with those that were carried over.
pub fn no_day_is_over_its_limit()
    ensures given { (H : List Entry) (day : ℕ) → IsLegal H → orders_of day (given H) ≤ daily_limit H }
    ensures carried { (H : List Entry) (day : ℕ) → IsLegal H → 0 < orders_of day (given H)
        → orders_of day (orders H) ≤ daily_limit H }
{}
