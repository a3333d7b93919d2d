//! What is shown of the runs of a search and of the searches of a farm, by evaluating the definitions of `farm_entry`.
//! Each law is the contract of a call that does nothing.

ghost use Rattle.std.specs.Prelude.{◌≡◌, ◌∷◌, [], map, take, Some, None};
ghost use Rattle.farm_types.specs.declared.stage.Stage.TheVariants.{Search, Verify};
ghost use Rattle.weight_exact.specs.declared.run.Verdict.TheVariants.{Pass};
ghost use Rattle.farm_entry.specs.Decision.{decide};
ghost use Rattle.farm_entry.specs.RunPages.{run_lines};
ghost use Rattle.farm_entry.specs.SearchLines.{search_list};
ghost use Rattle.farm_entry.specs.declared.command.Command.TheVariants.{ShowRuns, ShowSearches};
ghost use Rattle.farm_entry.specs.declared.decision.Decision.TheVariants.{Refuse, Show};
ghost use Rattle.farm_entry.specs.declared.entry.Fate.TheVariants.{Counted};
ghost use Rattle.farm_entry.specs.declared.entry.SkipFate.TheVariants.{Taken};
ghost use Rattle.farm_entry.specs.declared.refusal.Refusal.TheVariants.{UnknownSearch};
ghost use Rattle.farm_entry.specs.declared.reply.Reply.TheVariants as reply;
ghost use Rattle.farm_entry.specs.declared.run_page.RunOutcome.TheVariants.{Tested, Untestable};
ghost use Rattle.farm_entry.specs.declared.standing.Standing.TheVariants.{Confirmed, Searching};
ghost use Rattle.leaf_laws.specs.WorkedFarms.{at_first, confirmed_farm, opening_for, the_commit, the_test, the_worker};
ghost use Rattle.leaf_laws.specs.Untestable.{untestable_farm};

/// The search that confirms suspect 2 has five runs: from the fifth on the last rerun is shown alone, from the sixth on
/// nothing. There is no second search.
pub fn worked_runs()
    ensures all_five { map (λ line. line.run) (run_lines confirmed_farm (opening_for 4 1 1))
        ≡ 1 ∷ 2 ∷ 3 ∷ 4 ∷ 5 ∷ [] }
    ensures from_fifth { decide confirmed_farm (ShowRuns 1 5) at_first ≡ Show (reply.Runs (record {
      search = 1;
      from = 5;
      runs = record {
        run = 5;
        stage = Verify;
        position = 1;
        commit = the_commit 1;
        worker = the_worker;
        leased = at_first;
        deadline = 100060000;
        report = Some (record { at = at_first; outcome = Tested Pass Counted });
      } ∷ [];
    })) }
    ensures from_sixth { decide confirmed_farm (ShowRuns 1 6) at_first
        ≡ Show (reply.Runs (record { search = 1; from = 6; runs = [] })) }
    ensures unknown { decide confirmed_farm (ShowRuns 2 1) at_first ≡ Refuse (UnknownSearch 2) }
{}

/// A run whose tree can't be tested is shown with that report, and one that is out with none.
pub fn worked_runs_without_verdict()
    ensures { run_lines (take 5 untestable_farm) (opening_for 4 1 1) ≡
        record {
          run = 1;
          stage = Search;
          position = 2;
          commit = the_commit 2;
          worker = the_worker;
          leased = at_first;
          deadline = 100060000;
          report = Some (record { at = at_first; outcome = Untestable Taken });
        } ∷ record {
          run = 2;
          stage = Search;
          position = 3;
          commit = the_commit 3;
          worker = the_worker;
          leased = at_first;
          deadline = 100060000;
          report = None;
        } ∷ [] }
{}

/// The farm of that search lists it alone, with the commit and the order of its culprit; from search 2 on it lists
/// none. Before the verdicts and the order it lists neither.
pub fn worked_list()
    ensures from_first { decide confirmed_farm (ShowSearches 1) at_first ≡ Show (reply.Searches (record {
      from = 1;
      searches = record {
        search = 1;
        test = the_test;
        suspects = 4;
        opened = at_first;
        leases = 5;
        counted = 3;
        standing = Confirmed 2;
        commit = Some (the_commit 2);
        order = Some 1;
      } ∷ [];
    })) }
    ensures from_second { decide confirmed_farm (ShowSearches 2) at_first
        ≡ Show (reply.Searches (record { from = 2; searches = [] })) }
    ensures before { search_list (take 3 confirmed_farm) 1 ≡ record {
      from = 1;
      searches = record {
        search = 1;
        test = the_test;
        suspects = 4;
        opened = at_first;
        leases = 1;
        counted = 0;
        standing = Searching;
        commit = None;
        order = None;
      } ∷ [];
    } }
{}
