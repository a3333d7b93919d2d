//! Farms that are played by evaluating the definitions of `farm_entry`: numbers that were worked out by hand, and that
//! the definitions compute. Each law is the contract of a call that does nothing.
//!
//! `specs/WorkedFarms` has the farms, `specs/Untestable` those on which trees can't be tested, `specs/Following` a
//! closed one and one that follows it, `proofs/LargeFarm` and `proofs/Thousand` what is proved of the one with a
//! thousand suspects, which is too large to be played whole. [`serving`] has a worker that serves a farm of these.

pub mod serving;
pub mod shown;
pub mod skips;
pub mod succession;

ghost use Rattle.std.specs.Prelude.{◌≡◌, true, false, List, ◌∷◌, [], ◌++◌, map, take, replicate, Ok, Some, None};
ghost use Rattle.farm_types.specs.declared.stage.Stage.TheVariants.{Search, Verify};
ghost use Rattle.weight_exact.specs.Example.{fail_at};
ghost use Rattle.weight_exact.specs.Load.{load};
ghost use Rattle.weight_exact.specs.Plan.{distance};
ghost use Rattle.weight_exact.specs.Weights.{cumulative, weight};
ghost use Rattle.weight_exact.specs.declared.run.Verdict.TheVariants.{Fail, Pass};
ghost use Rattle.farm_entry.specs.Decision.{decide, is_past_budget};
ghost use Rattle.farm_entry.specs.declared.decision.Decision.TheVariants.{New, Refuse, Repeat};
ghost use Rattle.farm_entry.specs.Ask.{opening_of};
ghost use Rattle.leaf_laws.specs.WorkedFarms.{ask_for, at_end, at_first, at_last, confirmed_farm, counted_report, fates, founded, large_farm, large_opening, lease_with, leased, opening_for, play, positions, recorded, replies, revert_with, sure_farm, the_agent, the_commit, the_key, the_test, the_worker, vindicated_farm, wide_farm};
ghost use Rattle.farm_entry.specs.History.{runs};
ghost use Rattle.farm_entry.specs.Legal.{IsLegal};
ghost use Rattle.farm_entry.specs.Pages.{page_of, totals};
ghost use Rattle.farm_entry.specs.Reply.{reply_at};
ghost use Rattle.farm_entry.specs.Setup.{budget_of_search, setup_of};
ghost use Rattle.farm_entry.specs.Standing.{standing};
ghost use Rattle.farm_entry.specs.declared.command.Command.TheVariants.{Cancel, Lease as LeaseRun, Open, Report as ReportRun};
ghost use Rattle.farm_entry.specs.declared.entry.Fate.TheVariants.{Counted, Late, Over};
ghost use Rattle.farm_entry.specs.declared.entry.What.TheVariants.{Leased, Opened};
ghost use Rattle.farm_entry.specs.declared.refusal.OpenFault.TheVariants.{Width};
ghost use Rattle.farm_entry.specs.declared.refusal.Refusal.TheVariants.{BadOpen, KeyClash, NoRevert, NoRun};
ghost use Rattle.farm_entry.specs.declared.reply.Reply.TheVariants as reply;
ghost use Rattle.farm_entry.specs.declared.standing.Standing.TheVariants.{Confirmed, Inconclusive, NoCulprit, Searching, Verifying, Vindicated};

/// Four suspects of weight 1 and a calm weight of 1, with a flake rate of 1/10 and a bar of 9/10: the search is opened,
/// its first run is at position 2, on a tie with 3, and fails.
pub fn worked_first_run()
    ensures opening { opening_of (ask_for 4 1 1) 1 ≡ Ok (opening_for 4 1 1) }
    ensures opened { decide founded (Open (ask_for 4 1 1)) at_first ≡ New (recorded (Opened (opening_for 4 1 1))) }
    ensures budget { reply_at confirmed_farm 1 ≡ Some (reply.Opened 1 33 Searching) }
    ensures tie { distance 5 1 1 (cumulative (setup_of (opening_for 4 1 1)) [] 2)
        ≡ distance 5 1 1 (cumulative (setup_of (opening_for 4 1 1)) [] 3) }
    ensures first_run { decide (take 2 confirmed_farm) (lease_with 2) at_first ≡ New (leased 2 1 Search 2) }
    ensures run_reply { reply_at confirmed_farm 2 ≡ Some (reply.Leased 1 1 Search 2 (the_commit 2) the_test 100060000) }
    ensures reported { decide (take 3 confirmed_farm) (ReportRun 1 Fail) at_first ≡ New (counted_report 1 Fail) }
    ensures goes_on { reply_at confirmed_farm 3 ≡ Some (reply.Reported 1 1 Fail Counted Searching) }
    ensures weights { map (weight (setup_of (opening_for 4 1 1)) (runs (take 4 confirmed_farm) 1))
        (1 ∷ 2 ∷ 3 ∷ 4 ∷ 5 ∷ [])
        ≡ 10 ∷ 10 ∷ 1 ∷ 1 ∷ 1 ∷ [] }
{}

/// The search goes on, by a pass at 1 and a fail at 2, until suspect 2 is named; a fail at it and a pass just below
/// confirm it, and its commit is ordered to be reverted.
pub fn worked_search()
    ensures made { play at_first founded (Open (ask_for 4 1 1)
        ∷ lease_with 2 ∷ ReportRun 1 Fail
        ∷ lease_with 3 ∷ ReportRun 2 Pass
        ∷ lease_with 4 ∷ ReportRun 3 Fail
        ∷ lease_with 5 ∷ ReportRun 4 Fail
        ∷ lease_with 6 ∷ ReportRun 5 Pass
        ∷ revert_with 7 ∷ []) ≡ confirmed_farm }
    ensures is_legal { IsLegal confirmed_farm }
    ensures page_after_two { page_of (take 6 confirmed_farm) (opening_for 4 1 1) ≡ record {
      search = 1;
      test = the_test;
      budget = 33;
      leases = 2;
      counted = 2;
      verified = 0;
      standing = Searching;
      commit = None;
      shares = 0 ∷ 7692 ∷ 769 ∷ 769 ∷ 769 ∷ [];
      untestable = [];
    } }
    ensures page_after_three { page_of (take 8 confirmed_farm) (opening_for 4 1 1) ≡ record {
      search = 1;
      test = the_test;
      budget = 33;
      leases = 3;
      counted = 3;
      verified = 0;
      standing = Verifying 2;
      commit = Some (the_commit 2);
      shares = 0 ∷ 9708 ∷ 97 ∷ 97 ∷ 97 ∷ [];
      untestable = [];
    } }
    ensures all_replies { replies confirmed_farm ≡
        None
        ∷ Some (reply.Opened 1 33 Searching)
        ∷ Some (reply.Leased 1 1 Search 2 (the_commit 2) the_test 100060000)
        ∷ Some (reply.Reported 1 1 Fail Counted Searching)
        ∷ Some (reply.Leased 2 1 Search 1 (the_commit 1) the_test 100060000)
        ∷ Some (reply.Reported 2 1 Pass Counted Searching)
        ∷ Some (reply.Leased 3 1 Search 2 (the_commit 2) the_test 100060000)
        ∷ Some (reply.Reported 3 1 Fail Counted (Verifying 2))
        ∷ Some (reply.Leased 4 1 Verify 2 (the_commit 2) the_test 100060000)
        ∷ Some (reply.Reported 4 1 Fail Counted (Verifying 2))
        ∷ Some (reply.Leased 5 1 Verify 1 (the_commit 1) the_test 100060000)
        ∷ Some (reply.Reported 5 1 Pass Counted (Confirmed 2))
        ∷ Some (reply.Ordered 1 (the_commit 2) 1 1)
        ∷ [] }
    ensures counts { totals confirmed_farm ≡ record {
      entries = 13;
      searches = 1;
      searching = 0;
      verifying = 0;
      confirmed = 1;
      ended = 0;
      counted = 5;
      orders = 1;
    } }
{}

/// Where the last of these reruns fails, which is the one just below suspect 2, it is vindicated: the search ends, and
/// there is nothing to be reverted.
pub fn worked_vindication()
    ensures is_legal { IsLegal vindicated_farm }
    ensures reply { reply_at vindicated_farm 11 ≡ Some (reply.Reported 5 1 Fail Counted (Vindicated 2)) }
    ensures page { page_of vindicated_farm (opening_for 4 1 1) ≡ record {
      search = 1;
      test = the_test;
      budget = 33;
      leases = 5;
      counted = 3;
      verified = 2;
      standing = Vindicated 2;
      commit = Some (the_commit 2);
      shares = 0 ∷ 9708 ∷ 97 ∷ 97 ∷ 97 ∷ [];
      untestable = [];
    } }
    ensures no_order { decide vindicated_farm (revert_with 7) at_first ≡ Refuse NoRevert }
    ensures counts { totals vindicated_farm ≡ record {
      entries = 12;
      searches = 1;
      searching = 0;
      verifying = 0;
      confirmed = 0;
      ended = 1;
      counted = 5;
      orders = 0;
    } }
{}

/// The same search with three runs at once: they are at 1, 2 and 4, and there is no fourth. The first report is a pass
/// at 4, which clears all suspects, and a report after it is late.
pub fn worked_width()
    ensures made { play at_first founded (Open (ask_for 4 1 3)
        ∷ lease_with 2 ∷ lease_with 3 ∷ lease_with 4
        ∷ ReportRun 3 Pass ∷ ReportRun 1 Fail ∷ []) ≡ wide_farm }
    ensures is_legal { IsLegal wide_farm }
    ensures three_runs { positions wide_farm ≡ 1 ∷ 2 ∷ 4 ∷ [] }
    ensures no_fourth { decide (take 5 wide_farm) (lease_with 5) at_first ≡ Refuse NoRun }
    ensures pass_reply { reply_at wide_farm 5 ≡ Some (reply.Reported 3 1 Pass Counted NoCulprit) }
    ensures late_reply { reply_at wide_farm 6 ≡ Some (reply.Reported 1 1 Fail Late NoCulprit) }
    ensures all_fates { fates wide_farm ≡ Counted ∷ Late ∷ [] }
{}

/// One suspect of weight 1000 beside a calm weight of 1 is named by the prior alone, so that its reruns begin at once,
/// at the suspect and then at the base.
pub fn worked_prior()
    ensures made { play at_first founded
        (Open (ask_for 1 1000 1) ∷ lease_with 2 ∷ lease_with 3 ∷ lease_with 4 ∷ []) ≡ sure_farm }
    ensures is_legal { IsLegal sure_farm }
    ensures all_replies { replies sure_farm ≡
        None
        ∷ Some (reply.Opened 1 31 (Verifying 1))
        ∷ Some (reply.Leased 1 1 Verify 1 (the_commit 1) the_test 100060000)
        ∷ Some (reply.Leased 2 1 Verify 0 (the_commit 0) the_test 100060000)
        ∷ [] }
{}

/// A thousand suspects of the greatest weight, with the greatest calm weight and the least flake rate, have room for
/// eight fails. Nine runs are at position 508, each handed out when the time of the one before was over, and all fail:
/// eight of them count, and the ninth is over the budget and ends the search. The budget, the first plan and each
/// standing are computed; that so many commits make a range is proved.
pub fn worked_budget()
    ensures budget { budget_of_search large_opening ≡ 8 }
    ensures is_legal { IsLegal large_farm }
    ensures nine_runs { positions large_farm ≡ replicate 9 508 }
    ensures nine_fates { fates large_farm ≡ replicate 8 Counted ++ Over ∷ [] }
    ensures eight_fails { runs large_farm 1 ≡ replicate 8 (fail_at 508) }
    ensures load_of_eight { load (setup_of large_opening).factors (runs (take 19 large_farm) 1) ≡ 8 }
    ensures eighth_within { is_past_budget (take 18 large_farm) large_opening (fail_at 508) ≡ false }
    ensures ninth_past { is_past_budget (take 19 large_farm) large_opening (fail_at 508) ≡ true }
    ensures before { standing (take 19 large_farm) large_opening ≡ Searching }
    ensures over { reply_at large_farm 19 ≡ Some (reply.Reported 9 1 Fail Over Inconclusive) }
    ensures no_run { decide large_farm (lease_with 11) at_last ≡ Refuse NoRun }
    ensures ended { (totals large_farm).ended ≡ 1 }
{}

/// A lease of a minute is out until its last millisecond, and is then given again under a new run. The report of a run
/// that has one, and a lease with a key that stands, come to the entry that was made first; by another worker the key
/// is refused.
pub fn worked_repeats()
    ensures still_out { decide (take 3 confirmed_farm) (lease_with 3) at_last ≡ Refuse NoRun }
    ensures given_again { decide (take 3 confirmed_farm) (lease_with 3) at_end
        ≡ New (record { at = at_end; what = Leased (the_key 3) the_worker 2 1 Search 2 100120000 }) }
    ensures reported_again { decide (take 4 confirmed_farm) (ReportRun 1 Pass) at_end ≡ Repeat 3 }
    ensures reported_later { decide confirmed_farm (ReportRun 1 Pass) at_end ≡ Repeat 3 }
    ensures first_verdict { reply_at confirmed_farm 3 ≡ Some (reply.Reported 1 1 Fail Counted Searching) }
    ensures leased_again { decide (take 3 confirmed_farm) (lease_with 2) at_end ≡ Repeat 2 }
    ensures other_worker { decide (take 3 confirmed_farm) (LeaseRun (the_key 2) the_agent) at_end
        ≡ Refuse (KeyClash 2) }
{}

/// A key stands for one command alone. A search that is asked for again is compared by its rates in lowest terms, and
/// by its bar as given. An open that is outside the limits is refused for that, whatever its key.
pub fn worked_keys()
    ensures lease { decide (take 3 confirmed_farm) (lease_with 1) at_first ≡ Refuse (KeyClash 1) }
    ensures cancel { decide (take 3 confirmed_farm) (Cancel (the_key 2) 1) at_first ≡ Refuse (KeyClash 2) }
    ensures revert { decide (take 3 confirmed_farm) (revert_with 2) at_first ≡ Refuse (KeyClash 2) }
    ensures open_with_key_of_lease { decide (take 3 confirmed_farm)
        (Open (record (ask_for 4 1 1) { key = the_key 2 })) at_first ≡ Refuse (KeyClash 2) }
    ensures same_open { decide (take 3 confirmed_farm) (Open (ask_for 4 1 1)) at_first ≡ Repeat 1 }
    ensures other_width { decide (take 3 confirmed_farm) (Open (ask_for 4 1 2)) at_first ≡ Refuse (KeyClash 1) }
    ensures same_rate { decide (take 3 confirmed_farm) (Open (record (ask_for 4 1 1) { rate = (2, 20) })) at_first
        ≡ Repeat 1 }
    ensures other_bar { decide (take 3 confirmed_farm) (Open (record (ask_for 4 1 1) { bar = (18, 20) })) at_first
        ≡ Refuse (KeyClash 1) }
    ensures shape_first { decide (take 3 confirmed_farm) (Open (ask_for 4 1 0)) at_first ≡ Refuse (BadOpen (Width 0)) }
    ensures shape_before_clash { decide (take 3 confirmed_farm)
        (Open (record (ask_for 4 1 0) { key = the_key 2 })) at_first ≡ Refuse (BadOpen (Width 0)) }
{}
