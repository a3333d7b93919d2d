//! Whom orders are against, and how many there are.
ghost use Rattle.std.specs.Prelude.{◌≡◌, ◌≢◌, ℕ, ◌≤◌, List, length, AllPairs, Contains, Some};
ghost use Rattle.farm_entry.specs.History.{opening_numbered, openings, order_lines};
ghost use Rattle.farm_entry.specs.Legal.{IsLegal};
ghost use Rattle.farm_entry.specs.Setup.{commit_of};
ghost use Rattle.farm_entry.specs.Standing.{standing};
ghost use Rattle.farm_entry.specs.declared.limits.TheConstants.{MAX_SEARCHES};
ghost use Rattle.farm_entry.specs.declared.standing.Standing.TheVariants.{Confirmed};

use farm_entry::{Entry, Opening, OrderLine};

/// Each order names a search whose culprit is confirmed, and it is for that culprit's commit.
pub fn orders_are_for_confirmed_culprits()
    ensures { (H : List Entry) (x : OrderLine) → IsLegal H → Contains (order_lines H) x
        → (o : Opening) × (culprit : ℕ) × (opening_numbered H x.search ≡ Some o) × (standing H o ≡ Confirmed culprit)
        × (x.commit ≡ commit_of o culprit) }
{}

/// A search has at most one order, so there are at most as many orders as searches, and at most two thousand.
pub fn orders_are_few()
    ensures one_for_a_search { (H : List Entry) → IsLegal H
        → AllPairs (λ (a b : OrderLine). a.search ≢ b.search) (order_lines H) }
    ensures no_more_than_searches { (H : List Entry) → IsLegal H → length (order_lines H) ≤ length (openings H) }
    ensures bounded { (H : List Entry) → IsLegal H → length (order_lines H) ≤ MAX_SEARCHES }
{}
