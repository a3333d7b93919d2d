//! A farm that is closed, and one that follows it, which are played by evaluating the definitions of `farm_entry`. Each
//! law is the contract of a call that does nothing.

ghost use Rattle.std.specs.Prelude.{◌≡◌, ◌∷◌, [], ◌++◌, true, false, take, Some, None};
ghost use Rattle.weight_exact.specs.declared.run.Verdict.TheVariants.{Fail, Pass};
ghost use Rattle.farm_entry.specs.Closing.{has_active, has_order_to_take, is_busy, may_carry, may_close};
ghost use Rattle.farm_entry.specs.Decision.{decide};
ghost use Rattle.farm_entry.specs.Legal.{IsLegal};
ghost use Rattle.farm_entry.specs.Orders.{carried, given, orders, waiting_for_order};
ghost use Rattle.farm_entry.specs.Pages.{totals};
ghost use Rattle.farm_entry.specs.Reply.{reply_at};
ghost use Rattle.farm_entry.specs.declared.command.Command.TheVariants.{Open, Report as ReportRun, ShowFarm};
ghost use Rattle.farm_entry.specs.declared.decision.Decision.TheVariants.{New, Refuse, Repeat, Show};
ghost use Rattle.farm_entry.specs.declared.refusal.Refusal.TheVariants.{Closed, DailyLimit, NoRevert};
ghost use Rattle.farm_entry.specs.declared.reply.Reply.TheVariants as reply;
ghost use Rattle.leaf_laws.specs.WorkedFarms.{ask_for, at_first, confirmed_farm, lease_with, play, revert_with, the_commit};
ghost use Rattle.leaf_laws.specs.Following.{ask_about, before_first, carrying, closed_farm, following_farm, found_again_farm, full_day_farm, next_day};

/// The farm that confirms suspect 2 is busy while its search goes on, and then until the order is taken. From then on
/// it may be closed, once, at no moment before its last entry.
pub fn worked_closing()
    ensures busy_searching { is_busy (take 3 confirmed_farm) ≡ true }
    ensures no_longer_active { has_active (take 12 confirmed_farm) ≡ false }
    ensures busy_until_ordered { is_busy (take 12 confirmed_farm) ≡ true }
    ensures not_before { may_close (take 12 confirmed_farm) at_first ≡ false }
    ensures not_too_early { may_close confirmed_farm before_first ≡ false }
    ensures may_be_closed { may_close confirmed_farm at_first ≡ true }
    ensures is_legal { IsLegal closed_farm }
    ensures once { may_close closed_farm at_first ≡ false }
    ensures nothing_more { reply_at closed_farm 13 ≡ None }
    ensures all_orders { orders closed_farm ≡ record { commit = the_commit 2; day = 1 } ∷ [] }
{}

/// A closed farm refuses what would be new, still answers what it answered before, and shows.
pub fn worked_closed()
    ensures lease { decide closed_farm (lease_with 8) at_first ≡ Refuse Closed }
    ensures revert { decide closed_farm (revert_with 8) at_first ≡ Refuse Closed }
    ensures same_open { decide closed_farm (Open (ask_for 4 1 1)) at_first ≡ Repeat 1 }
    ensures same_report { decide closed_farm (ReportRun 5 Pass) at_first ≡ Repeat 11 }
    ensures page { decide closed_farm ShowFarm at_first ≡ Show (reply.Farm (record {
      entries = 14;
      searches = 1;
      searching = 0;
      verifying = 0;
      confirmed = 1;
      ended = 0;
      counted = 5;
      orders = 1;
    })) }
{}

/// The farm that follows carries the order over, for its commit and its day, without a number. No other one for the
/// commit may stand there, none at another moment, none of a day that no moment has, and none behind a search.
pub fn worked_carrying()
    ensures may_be_first { may_carry (take 1 carrying) at_first (the_commit 2) 1 ≡ true }
    ensures is_legal { IsLegal carrying }
    ensures no_reply { reply_at carrying 1 ≡ None }
    ensures no_number { (totals carrying).orders ≡ 0 }
    ensures not_twice { may_carry carrying at_first (the_commit 2) 2 ≡ false }
    ensures another { may_carry carrying at_first (the_commit 3) 1 ≡ true }
    ensures not_later { may_carry carrying next_day (the_commit 3) 1 ≡ false }
    ensures last_day { may_carry carrying at_first (the_commit 3) 47482 ≡ true }
    ensures no_day { may_carry carrying at_first (the_commit 3) 47483 ≡ false }
    ensures not_behind { may_carry (take 3 found_again_farm) at_first (the_commit 3) 1 ≡ false }
    ensures not_busy { may_close carrying at_first ≡ true }
{}

/// With one order a day: where a search finds the commit of the carried order again, it is no candidate, and the farm
/// isn't busy. The carried order fills its day, so that commit 3 is ordered on the next one, with number 1.
pub fn worked_following()
    ensures made { play at_first carrying (Open (ask_about 1 2)
        ∷ lease_with 2 ∷ ReportRun 1 Fail
        ∷ lease_with 3 ∷ ReportRun 2 Pass ∷ []) ≡ found_again_farm }
    ensures no_candidate { waiting_for_order found_again_farm ≡ [] }
    ensures no_order { decide found_again_farm (revert_with 7) at_first ≡ Refuse NoRevert }
    ensures may_be_closed { may_close found_again_farm at_first ≡ true }
    ensures made_full { play at_first found_again_farm (Open (ask_about 4 3)
        ∷ lease_with 5 ∷ ReportRun 3 Fail
        ∷ lease_with 6 ∷ ReportRun 4 Pass ∷ []) ≡ full_day_farm }
    ensures full_day { decide full_day_farm (revert_with 7) at_first ≡ Refuse (DailyLimit 1 1) }
    ensures to_take { has_order_to_take full_day_farm ≡ true }
    ensures may_not_close { may_close full_day_farm at_first ≡ false }
    ensures made_next { play next_day full_day_farm (revert_with 8 ∷ []) ≡ following_farm }
    ensures reply { reply_at following_farm 12 ≡ Some (reply.Ordered 1 (the_commit 3) 2 2) }
    ensures is_legal { IsLegal following_farm }
    ensures taken { may_close following_farm next_day ≡ true }
    ensures carried_over { carried following_farm ≡ record { commit = the_commit 2; day = 1 } ∷ [] }
    ensures given_here { given following_farm ≡ record { commit = the_commit 3; day = 2 } ∷ [] }
    ensures all_orders { orders following_farm
        ≡ record { commit = the_commit 2; day = 1 } ∷ record { commit = the_commit 3; day = 2 } ∷ [] }
{}
