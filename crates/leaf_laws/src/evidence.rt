//! The laws of evidence. A function here does nothing: its contract is the law.
ghost use Rattle.std.specs.Prelude.{◌≡◌, ◌↔◌, ℕ, true, false, List, [], ◌∷◌, ◌++◌, Contains, Ok, Some};
ghost use Rattle.farm_types.specs.declared.stage.Stage.TheVariants.{Search};
ghost use Rattle.farm_entry.specs.Decision.{run_with};
ghost use Rattle.farm_entry.specs.History.{lease_of, opening_numbered, openings, report_in, runs, went_over};
ghost use Rattle.farm_entry.specs.Legal.{IsLegal};
ghost use Rattle.farm_entry.specs.Setup.{setup_of};
ghost use Rattle.farm_entry.specs.Standing.{standing};
ghost use Rattle.farm_entry.specs.declared.entry.Fate.TheVariants.{Late};
ghost use Rattle.farm_entry.specs.declared.standing.Standing.TheVariants.{NoCulprit, Searching};
ghost use Rattle.farm_laws.specs.Laws.{culprit_of};
ghost use Rattle.leaf_laws.specs.Judgements.{evidence_asks, judged_answer, judged_standing};
ghost use Rattle.leaf_laws.specs.Unseen.{HasEndedUnseen};
ghost use Rattle.judge.specs.Answer.{judged};
ghost use Rattle.judge.specs.Fates.{after_all, at_start, standing as judge_standing};
ghost use Rattle.judge.specs.Form.{inquiry};
ghost use Rattle.judge.specs.Text.{lines};
ghost use Rattle.judge.specs.declared.standing.JudgeStanding.TheVariants as judge;
ghost use Rattle.search_evidence.specs.Evidence.{evidence_of, evidence_text};
ghost use Rattle.search_evidence.specs.Written.{evidence_runs, is_evidence};

use farm_entry::{Entry, LeasedRun, Opening, ReportedRun};

/// The evidence of a search is in the form that judge reads. It asks for the search as it was opened, and for the runs
/// that are its evidence, numbered from 1.
pub fn evidence_is_in_judges_form()
    ensures { (H : List Entry) (o : Opening) → IsLegal H → Contains (openings H) o
        → inquiry (lines (evidence_of H o)) ≡ Ok (evidence_asks H o) }
{}

/// By the evidence of a search judge comes as far as the farm did: the same runs count, and it stands inconclusive
/// exactly where a report went over the budget. Its answer has the budget and the shares of the search's page, and for
/// each run the fate that the farm gave to its report.
pub fn evidence_is_judged_alike()
    ensures counted { (H : List Entry) (o : Opening) → IsLegal H → Contains (openings H) o
        → (after_all (setup_of o) at_start (evidence_asks H o).runs).counted ≡ runs H o.search }
    ensures over { (H : List Entry) (o : Opening) → IsLegal H → Contains (openings H) o
        → (after_all (setup_of o) at_start (evidence_asks H o).runs).over ≡ went_over H o.search }
    ensures standing { (H : List Entry) (o : Opening) → IsLegal H → Contains (openings H) o
        → judge_standing (setup_of o) (after_all (setup_of o) at_start (evidence_asks H o).runs)
        ≡ judged_standing H o }
    ensures answer { (H : List Entry) (o : Opening) → IsLegal H → Contains (openings H) o
        → judged (evidence_of H o) ≡ Ok (judged_answer H o) }
    ensures by_number { (H : List Entry) (search : ℕ) (text : List ℕ) → IsLegal H → evidence_text H search ≡ Some text
        → (o : Opening) × (opening_numbered H search ≡ Some o) × (judged text ≡ Ok (judged_answer H o)) }
{}

/// What a standing of the farm says of the belief, judge says of the evidence: which suspect is named, be it verified,
/// confirmed or vindicated by reruns; that there is no culprit; that it isn't known yet.
pub fn standings_are_judged_alike()
    ensures named { (H : List Entry) (o : Opening) (culprit : ℕ) → culprit_of (standing H o) ≡ Some culprit
        → judged_standing H o ≡ judge.Named culprit }
    ensures no_culprit { (H : List Entry) (o : Opening) → standing H o ≡ NoCulprit
        → judged_standing H o ≡ judge.NoCulprit }
    ensures searching { (H : List Entry) (o : Opening) → standing H o ≡ Searching
        → judged_standing H o ≡ judge.Searching }
{}

/// Each report of a run that is to find the culprit is evidence, unless the search had ended before in a way of which
/// its runs don't tell: it was cancelled, or skipped positions alone ended it. Behind such an end nothing more is
/// evidence, and what is left out came late in the farm.
pub fn reports_are_evidence_until_an_unseen_end()
    ensures written { (H : List Entry) (e : Entry) (o : Opening) (r : ReportedRun) (l : LeasedRun)
        → is_evidence H o ≡ true → report_in e.what ≡ Some r → lease_of H r.run ≡ Some l → l.search ≡ o.search
        → l.stage ≡ Search → evidence_runs (H ++ e ∷ []) o ≡ evidence_runs H o ++ run_with l r.verdict ∷ [] }
    ensures unseen_end { (H : List Entry) (o : Opening) → (is_evidence H o ≡ false) ↔ HasEndedUnseen H o }
    ensures left_out { (H K : List Entry) (o : Opening) → IsLegal (H ++ K) → Contains (openings H) o
        → is_evidence H o ≡ false → evidence_runs (H ++ K) o ≡ evidence_runs H o }
    ensures late { (H : List Entry) (e : Entry) (o : Opening) (r : ReportedRun) (l : LeasedRun)
        → IsLegal (H ++ e ∷ []) → Contains (openings H) o → is_evidence H o ≡ false → report_in e.what ≡ Some r
        → lease_of H r.run ≡ Some l → l.search ≡ o.search → l.stage ≡ Search → r.fate ≡ Late }
{}
