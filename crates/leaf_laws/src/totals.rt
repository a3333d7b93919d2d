//! What the totals of a farm add up to.
ghost use Rattle.std.specs.Prelude.{◌≡◌, ℕ, ◌+◌, ◌≤◌, List};
ghost use Rattle.farm_entry.specs.Decision.{decide};
ghost use Rattle.farm_entry.specs.Legal.{IsLegal};
ghost use Rattle.farm_entry.specs.Pages.{totals};
ghost use Rattle.farm_entry.specs.declared.command.Command.TheVariants.{ShowSearch, ShowFarm, ShowOrders, ShowRuns, ShowSearches};

use farm_entry::Entry;
use farm_types::Moment;

/// The searches are those that search, those that verify, those that are confirmed and those that ended otherwise.
pub fn standings_add_up_to_the_searches()
    ensures { (H : List Entry) → let t = totals H in t.searching + t.verifying + t.confirmed + t.ended ≡ t.searches }
{}

/// There are at most as many orders as searches whose culprit is confirmed.
pub fn orders_are_at_most_the_confirmed_searches()
    ensures { (H : List Entry) → IsLegal H → (totals H).orders ≤ (totals H).confirmed }
{}

/// What is shown doesn't depend on the moment at which it is asked for.
pub fn what_is_shown_does_not_depend_on_the_moment()
    ensures search { (H : List Entry) (m n : Moment) (search : ℕ)
        → decide H (ShowSearch search) m ≡ decide H (ShowSearch search) n }
    ensures farm { (H : List Entry) (m n : Moment) → decide H ShowFarm m ≡ decide H ShowFarm n }
    ensures orders { (H : List Entry) (m n : Moment) → decide H ShowOrders m ≡ decide H ShowOrders n }
    ensures runs { (H : List Entry) (m n : Moment) (search from : ℕ)
        → decide H (ShowRuns search from) m ≡ decide H (ShowRuns search from) n }
    ensures searches { (H : List Entry) (m n : Moment) (from : ℕ)
        → decide H (ShowSearches from) m ≡ decide H (ShowSearches from) n }
{}
