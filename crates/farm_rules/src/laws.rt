//! Worked numbers, and laws that say what characterises the rules. A function here does nothing: its contract is the
//! law.

ghost use Rattle.std.specs.Prelude.{◌≡◌, ◌≢◌, ◌↔◌, ℕ, ◌+◌, ◌<◌, ◌≤◌, ℤ, ◌*ℤ◌, ◌≤ℤ◌, ◌<ℤ◌, List, [], ◌∷◌, ◌++◌, All, IsPermutation, Some, None, Ok, Err, pos, negsuc};
ghost use Rattle.std.specs.List.{Contains};
ghost use Rattle.farm_types.specs.Limits.{IsMoment};
ghost use Rattle.weight_exact.specs.Example.{fail_at, pass_at};
ghost use Rattle.farm_rules.specs.Due.{struck, due_search, due_verify};
ghost use Rattle.farm_rules.specs.Reruns.{outcome, confirmed, vindicating, verifying, after_reruns};
ghost use Rattle.farm_rules.specs.Orders.{Ordered, candidates, draft_for, earliest, next_draft, orders_of};
ghost use Rattle.farm_rules.specs.NextOrder.{IsNextOrder};
ghost use Rattle.farm_rules.specs.Day.{day_at, local_ms};

use crate::{Candidate, Draft, MS_PER_DAY, NoOrder};
use farm_types::{CommitId, LAST_DAY, ZONE_MAX_MINUTES, ZONE_MIN_MINUTES};

/// The rules on numbers that were worked out by hand.
pub fn worked_numbers()
    ensures struck_once { struck (1 ∷ 2 ∷ 2 ∷ 4 ∷ []) (2 ∷ 4 ∷ []) ≡ 1 ∷ 2 ∷ [] }
    ensures due_first { due_search (1 ∷ 2 ∷ 4 ∷ []) (1 ∷ []) ≡ Some 2 }
    ensures due_past_a_stray_run { due_search (2 ∷ 3 ∷ []) (7 ∷ []) ≡ Some 2 }
    ensures none_due { due_search (2 ∷ []) (7 ∷ []) ≡ None }
    ensures culprit_before_parent { due_verify 3 1 0 (3 ∷ []) 2 ≡ Some 2 }
    ensures verified_enough { due_verify 3 2 1 (2 ∷ []) 2 ≡ None }
    ensures confirmed_by_both_sides { outcome 2 1 (fail_at 2 ∷ pass_at 1 ∷ []) ≡ confirmed }
    ensures one_side_is_not_enough { outcome 2 1 (fail_at 2 ∷ []) ≡ verifying }
    ensures a_pass_vindicates { outcome 2 2 (pass_at 2 ∷ []) ≡ vindicating }
    ensures a_fail_below_vindicates { outcome 2 2 (fail_at 2 ∷ fail_at 1 ∷ []) ≡ vindicating }
    ensures a_third_fail_is_late { after_reruns 2 1 [] (fail_at 2 ∷ fail_at 2 ∷ pass_at 1 ∷ [])
        ≡ fail_at 2 ∷ pass_at 1 ∷ [] }
    ensures smallest_number_first { (c d : CommitId) →
        next_draft (record { search = 7; commit = c } ∷ record { search = 4; commit = d } ∷ []) [] 0 20 1
        ≡ Ok (draft_for (record { search = 4; commit = d }) 1 20) }
    ensures first_on_a_tie { (c d : CommitId) →
        next_draft (record { search = 4; commit = c } ∷ record { search = 4; commit = d } ∷ []) [] 0 20 1
        ≡ Ok (draft_for (record { search = 4; commit = c }) 1 20) }
    ensures none_left_on_a_full_day { (c : CommitId) →
        next_draft (record { search = 4; commit = c } ∷ []) (record { commit = c; day = 20 } ∷ []) 1 20 1
        ≡ Err NoOrder.NoRevert }
    ensures a_day_is_full { (c d : CommitId) → c ≢ d →
        next_draft (record { search = 4; commit = c } ∷ []) (record { commit = d; day = 20 } ∷ []) 1 20 1
        ≡ Err (NoOrder.DailyLimit 20 1) }
    ensures another_day_is_free { (c d : CommitId) → c ≢ d →
        next_draft (record { search = 4; commit = c } ∷ []) (record { commit = d; day = 19 } ∷ []) 1 20 1
        ≡ Ok (draft_for (record { search = 4; commit = c }) 2 20) }
    ensures a_carried_order_has_no_number { (c d : CommitId) → c ≢ d →
        next_draft (record { search = 4; commit = c } ∷ []) (record { commit = d; day = 19 } ∷ []) 0 20 1
        ≡ Ok (draft_for (record { search = 4; commit = c }) 1 20) }
    ensures a_carried_order_fills_its_day { (c d : CommitId) → c ≢ d →
        next_draft (record { search = 4; commit = c } ∷ []) (record { commit = d; day = 20 } ∷ []) 0 20 1
        ≡ Err (NoOrder.DailyLimit 20 1) }
    ensures a_day_begins { day_at 86400000 (pos 0) ≡ 1 }
    ensures west_of_utc { day_at 86400000 (negsuc 719) ≡ 0 }
    ensures east_of_utc { day_at 122399999 (pos 840) ≡ 1 }
{}

/// What is due doesn't depend on the order in which the outstanding runs stand: each strikes an entry at its position,
/// so only how many there are at a position matters.
pub fn outstanding_runs_in_any_order()
    ensures left { (plan outstanding other : List ℕ) → IsPermutation outstanding other →
        struck plan other ≡ struck plan outstanding }
    ensures searching { (plan outstanding other : List ℕ) → IsPermutation outstanding other →
        due_search plan other ≡ due_search plan outstanding }
    ensures verifying { (culprit at_culprit at_parent reruns : ℕ) (outstanding other : List ℕ) →
        IsPermutation outstanding other →
        due_verify culprit at_culprit at_parent other reruns
        ≡ due_verify culprit at_culprit at_parent outstanding reruns }
{}

/// The earliest of a list of searches is one of them, none of them has a smaller number, and of those with its number
/// it is the first. There is one unless the list is empty.
pub fn earliest_is_the_first_with_the_least_number()
    ensures one_of_them { (searches : List Candidate) (c : Candidate) → earliest searches ≡ Some c → Contains searches c }
    ensures least { (searches : List Candidate) (c : Candidate) → earliest searches ≡ Some c →
        All (λ (o : Candidate). c.search ≤ o.search) searches }
    ensures first { (before after : List Candidate) (c : Candidate) →
        All (λ (o : Candidate). c.search < o.search) before → All (λ (o : Candidate). c.search ≤ o.search) after →
        earliest (before ++ c ∷ after) ≡ Some c }
    ensures none { (searches : List Candidate) → (earliest searches ≡ None) ↔ (searches ≡ []) }
{}

/// A draft is the next order: for a confirmed search whose commit has none, with the smallest number among those, with
/// the number behind those given, on a day that has room for it. There is no draft where no confirmed search is left,
/// and else none where the day has as many orders as its limit allows. Orders that were carried over take up commits and
/// days, and no numbers.
pub fn drafts_are_next_orders()
    ensures next { (searches : List Candidate) (orders : List Ordered) (given day limit : ℕ) (d : Draft) →
        next_draft searches orders given day limit ≡ Ok d → IsNextOrder searches orders given day limit d }
    ensures none_left { (searches : List Candidate) (orders : List Ordered) (given day limit : ℕ) →
        (next_draft searches orders given day limit ≡ Err NoOrder.NoRevert) ↔ (candidates searches orders ≡ []) }
    ensures full { (searches : List Candidate) (orders : List Ordered) (given day limit named count : ℕ) →
        next_draft searches orders given day limit ≡ Err (NoOrder.DailyLimit named count) →
        (named ≡ day) × (count ≡ orders_of day orders) × (limit ≤ orders_of day orders) }
{}

/// The day of a moment, by its milliseconds: it begins at or before the local time, the next one begins after it, and
/// it lies from day 0 to the last day.
pub fn days_have_their_milliseconds()
    ensures begins { (moment : ℕ) (zone : ℤ) → IsMoment moment → ZONE_MIN_MINUTES ≤ℤ zone →
        (pos (day_at moment zone) *ℤ MS_PER_DAY) ≤ℤ local_ms moment zone }
    ensures ends { (moment : ℕ) (zone : ℤ) → IsMoment moment → ZONE_MIN_MINUTES ≤ℤ zone →
        local_ms moment zone <ℤ (pos (day_at moment zone + 1) *ℤ MS_PER_DAY) }
    ensures few { (moment : ℕ) (zone : ℤ) → IsMoment moment → zone ≤ℤ ZONE_MAX_MINUTES →
        day_at moment zone ≤ LAST_DAY }
{}
