//! Farms on which trees can't be tested, that are played by evaluating the definitions of `farm_entry`. Each law is the
//! contract of a call that does nothing.

ghost use Rattle.std.specs.Prelude.{◌≡◌, ◌∷◌, [], take, Some, None};
ghost use Rattle.farm_types.specs.declared.stage.Stage.TheVariants.{Search};
ghost use Rattle.weight_exact.specs.declared.run.Verdict.TheVariants.{Fail, Pass};
ghost use Rattle.farm_entry.specs.Decision.{decide};
ghost use Rattle.farm_entry.specs.Legal.{IsLegal};
ghost use Rattle.farm_entry.specs.Pages.{page_of, totals};
ghost use Rattle.farm_entry.specs.Reply.{reply_at};
ghost use Rattle.farm_entry.specs.declared.command.Command.TheVariants.{Open, Report as ReportRun, Skip as SkipRun};
ghost use Rattle.farm_entry.specs.declared.decision.Decision.TheVariants.{New, Refuse, Repeat};
ghost use Rattle.farm_entry.specs.declared.entry.Fate.TheVariants.{Counted, Late};
ghost use Rattle.farm_entry.specs.declared.entry.SkipFate.TheVariants as skip;
ghost use Rattle.farm_entry.specs.declared.refusal.Refusal.TheVariants.{NoRun, UnknownRun};
ghost use Rattle.farm_entry.specs.declared.reply.Reply.TheVariants as reply;
ghost use Rattle.farm_entry.specs.declared.standing.Standing.TheVariants.{Confirmed, Inconclusive, NoCulprit, Searching, Verifying};
ghost use Rattle.leaf_laws.specs.WorkedFarms.{ask_for, at_end, at_first, confirmed_farm, founded, lease_with, leased, opening_for, play, the_commit, the_test};
ghost use Rattle.leaf_laws.specs.Untestable.{cleared_farm, hidden_farm, proved_farm, single_farm, surer_farm, surer_opening, unprovable_base_farm, unprovable_farm, untestable_farm, wide_untestable_farm};

/// Among four suspects the first run is at position 2, whose tree can't be tested: the next one is at 3, as 2 isn't
/// open any more. Where no tree of the search can be tested it ends with the last of them; and so it does where a pass
/// at 3 leaves position 4 alone, and its tree can't be tested.
pub fn worked_skips()
    ensures made { play at_first founded (Open (ask_for 4 1 1)
        ∷ lease_with 2 ∷ SkipRun 1
        ∷ lease_with 3 ∷ SkipRun 2
        ∷ lease_with 4 ∷ SkipRun 3
        ∷ lease_with 5 ∷ SkipRun 4 ∷ []) ≡ untestable_farm }
    ensures is_legal { IsLegal untestable_farm }
    ensures first_skip { reply_at untestable_farm 3 ≡ Some (reply.Skipped 1 1 skip.Taken Searching) }
    ensures next_run { decide (take 4 untestable_farm) (lease_with 3) at_first ≡ New (leased 3 2 Search 3) }
    ensures page_after_one { page_of (take 5 untestable_farm) (opening_for 4 1 1) ≡ record {
      search = 1;
      test = the_test;
      budget = 33;
      leases = 2;
      counted = 0;
      verified = 0;
      standing = Searching;
      commit = None;
      shares = 2000 ∷ 2000 ∷ 2000 ∷ 2000 ∷ 2000 ∷ [];
      untestable = 2 ∷ [];
    } }
    ensures last_skip { reply_at untestable_farm 9 ≡ Some (reply.Skipped 4 1 skip.Taken Inconclusive) }
    ensures no_run { decide untestable_farm (lease_with 6) at_first ≡ Refuse NoRun }
    ensures page { page_of untestable_farm (opening_for 4 1 1) ≡ record {
      search = 1;
      test = the_test;
      budget = 33;
      leases = 4;
      counted = 0;
      verified = 0;
      standing = Inconclusive;
      commit = None;
      shares = 2000 ∷ 2000 ∷ 2000 ∷ 2000 ∷ 2000 ∷ [];
      untestable = 1 ∷ 2 ∷ 3 ∷ 4 ∷ [];
    } }
    ensures counts { totals untestable_farm ≡ record {
      entries = 10;
      searches = 1;
      searching = 0;
      verifying = 0;
      confirmed = 0;
      ended = 1;
      counted = 0;
      orders = 0;
    } }
    ensures cleared_is_legal { IsLegal cleared_farm }
    ensures pass_reply { reply_at cleared_farm 5 ≡ Some (reply.Reported 2 1 Pass Counted Searching) }
    ensures shares_after_pass { (page_of (take 6 cleared_farm) (opening_for 4 1 1)).shares
        ≡ 0 ∷ 0 ∷ 0 ∷ 5000 ∷ 5000 ∷ [] }
    ensures last_open { reply_at cleared_farm 7 ≡ Some (reply.Skipped 3 1 skip.Taken Inconclusive) }
{}

/// Where suspect 2 is at the bar and its rerun's tree can't be tested, or that of the one just below it, it can't be
/// confirmed any more. Where another rerun of the same tree has failed it can.
pub fn worked_unprovable()
    ensures is_legal { IsLegal unprovable_farm }
    ensures reply { reply_at unprovable_farm 9 ≡ Some (reply.Skipped 4 1 skip.Taken Inconclusive) }
    ensures no_run { decide unprovable_farm (lease_with 6) at_first ≡ Refuse NoRun }
    ensures page { page_of unprovable_farm (opening_for 4 1 1) ≡ record {
      search = 1;
      test = the_test;
      budget = 33;
      leases = 4;
      counted = 3;
      verified = 0;
      standing = Inconclusive;
      commit = None;
      shares = 0 ∷ 9708 ∷ 97 ∷ 97 ∷ 97 ∷ [];
      untestable = 2 ∷ [];
    } }
    ensures base_is_legal { IsLegal unprovable_base_farm }
    ensures base_reply { reply_at unprovable_base_farm 11 ≡ Some (reply.Skipped 5 1 skip.Taken Inconclusive) }
    ensures base_page { page_of unprovable_base_farm (opening_for 4 1 1) ≡ record {
      search = 1;
      test = the_test;
      budget = 33;
      leases = 5;
      counted = 3;
      verified = 1;
      standing = Inconclusive;
      commit = None;
      shares = 0 ∷ 9708 ∷ 97 ∷ 97 ∷ 97 ∷ [];
      untestable = 1 ∷ [];
    } }
    ensures proved_is_legal { IsLegal proved_farm }
    ensures rerun_reply { reply_at proved_farm 10 ≡ Some (reply.Reported 4 1 Fail Counted (Verifying 2)) }
    ensures skip_reply { reply_at proved_farm 11 ≡ Some (reply.Skipped 5 1 skip.Taken (Verifying 2)) }
    ensures confirmed_reply { reply_at proved_farm 13 ≡ Some (reply.Reported 6 1 Pass Counted (Confirmed 2)) }
    ensures proved_page { page_of proved_farm (opening_for 4 1 1) ≡ record {
      search = 1;
      test = the_test;
      budget = 33;
      leases = 6;
      counted = 3;
      verified = 2;
      standing = Confirmed 2;
      commit = Some (the_commit 2);
      shares = 0 ∷ 9708 ∷ 97 ∷ 97 ∷ 97 ∷ [];
      untestable = 2 ∷ [];
    } }
{}

/// With three runs at once a skip frees room for one at the next open position, and no more; what is skipped after the
/// end is late, and closes nothing. With two runs at one position a skip of the first ends the search, and the report
/// of the second is late.
pub fn worked_skips_at_once()
    ensures is_legal { IsLegal wide_untestable_farm }
    ensures no_fifth { decide (take 7 wide_untestable_farm) (lease_with 6) at_first ≡ Refuse NoRun }
    ensures pass_reply { reply_at wide_untestable_farm 7 ≡ Some (reply.Reported 3 1 Pass Counted NoCulprit) }
    ensures late_reply { reply_at wide_untestable_farm 8 ≡ Some (reply.Skipped 1 1 skip.Late NoCulprit) }
    ensures reported_again { decide wide_untestable_farm (ReportRun 1 Pass) at_first ≡ Repeat 8 }
    ensures untestable { (page_of wide_untestable_farm (opening_for 4 1 3)).untestable ≡ 2 ∷ [] }
    ensures single_is_legal { IsLegal single_farm }
    ensures single_skip { reply_at single_farm 4 ≡ Some (reply.Skipped 1 1 skip.Taken Inconclusive) }
    ensures single_report { reply_at single_farm 5 ≡ Some (reply.Reported 2 1 Fail Late Inconclusive) }
    ensures single_shares { (page_of single_farm (opening_for 1 1 2)).shares ≡ 5000 ∷ 5000 ∷ [] }
{}

/// A run has one report: what was reported with a verdict is answered so when it is skipped, and what was skipped when
/// it is reported. A run that was never handed out can't be skipped.
pub fn worked_skip_repeats()
    ensures skipped_again { decide (take 4 confirmed_farm) (SkipRun 1) at_end ≡ Repeat 3 }
    ensures reported_again { decide (take 4 untestable_farm) (ReportRun 1 Fail) at_end ≡ Repeat 3 }
    ensures unknown { decide (take 4 untestable_farm) (SkipRun 9) at_end ≡ Refuse (UnknownRun 9) }
{}

/// A culprit that a skipped position would have shown: once hypotheses 2 and 3 are at the bar together no run can tell
/// them apart, and the search ends. With a higher bar it goes on until they are.
pub fn worked_hidden_culprit()
    ensures is_legal { IsLegal hidden_farm }
    ensures fail_reply { reply_at hidden_farm 5 ≡ Some (reply.Reported 2 1 Fail Counted Searching) }
    ensures shares_after_fail { (page_of (take 6 hidden_farm) (opening_for 4 1 1)).shares
        ≡ 3125 ∷ 3125 ∷ 3125 ∷ 312 ∷ 312 ∷ [] }
    ensures pass_reply { reply_at hidden_farm 7 ≡ Some (reply.Reported 3 1 Pass Counted Inconclusive) }
    ensures no_run { decide hidden_farm (lease_with 5) at_first ≡ Refuse NoRun }
    ensures page { page_of hidden_farm (opening_for 4 1 1) ≡ record {
      search = 1;
      test = the_test;
      budget = 33;
      leases = 3;
      counted = 2;
      verified = 0;
      standing = Inconclusive;
      commit = None;
      shares = 0 ∷ 4545 ∷ 4545 ∷ 454 ∷ 454 ∷ [];
      untestable = 2 ∷ [];
    } }
    ensures surer_is_legal { IsLegal surer_farm }
    ensures goes_on { reply_at surer_farm 7 ≡ Some (reply.Reported 3 1 Pass Counted Searching) }
    ensures ends { reply_at surer_farm 9 ≡ Some (reply.Reported 4 1 Fail Counted Inconclusive) }
    ensures surer_shares { (page_of surer_farm surer_opening).shares ≡ 0 ∷ 4950 ∷ 4950 ∷ 49 ∷ 49 ∷ [] }
{}
