//! The laws that tie picks over sums to the plan of a search. A function here does nothing: its contract is the law.

ghost use Rattle.std.specs.Prelude.{◌≡◌, ℕ, ◌+◌, ◌*◌, ◌^◌, ◌<◌, ◌≤◌, List};
ghost use Rattle.threshold_pick.specs.Open.{open_pick, open_plan};
ghost use Rattle.threshold_pick.specs.HiddenBlocks.{is_hidden};
ghost use Rattle.weight_exact.specs.Load.{floor};
ghost use Rattle.weight_exact.specs.Plan.{pick, plan};
ghost use Rattle.weight_exact.specs.Weights.{Setup, suspects, total};
ghost use Rattle.weight_exact.specs.declared.run.Run.{Run};
ghost use Rattle.threshold_pick.specs.Picks.{IsPick, ArePicks, open_pick_in, open_plan_in};
ghost use Rattle.threshold_pick.specs.Blocks.{is_hidden_in};
ghost use Rattle.threshold_pick.specs.Cumulative.{AreCumulative};

/// Over sums that are the cumulative weights of a search, up to one common factor, what is picked is the plan of the
/// search, while a suspect is left above its floor.
pub fn picks_are_the_plan()
    ensures pick { (s : Setup) (runs : List Run) (sums : List ℕ) (j k i : ℕ) →
        AreCumulative s runs sums → 1 ≤ total s runs → floor s.factors runs < suspects s →
        IsPick sums (floor s.factors runs) j k i → i ≡ pick s runs k j }
    ensures plan { (s : Setup) (runs : List Run) (sums positions : List ℕ) (k : ℕ) →
        AreCumulative s runs sums → 1 ≤ total s runs → floor s.factors runs < suspects s →
        ArePicks sums (floor s.factors runs) k positions → positions ≡ plan s runs k }
{}

/// Over such sums what is picked where positions were skipped is the plan of the search over its open positions.
pub fn open_picks_are_the_plan()
    ensures pick { (s : Setup) (runs : List Run) (sums skipped : List ℕ) (j k : ℕ) →
        AreCumulative s runs sums → 1 ≤ total s runs →
        open_pick_in sums (floor s.factors runs) skipped j k ≡ open_pick s runs skipped k j }
    ensures plan { (s : Setup) (runs : List Run) (sums skipped : List ℕ) (k : ℕ) →
        AreCumulative s runs sums → 1 ≤ total s runs →
        open_plan_in sums (floor s.factors runs) skipped k ≡ open_plan s runs skipped k }
{}

/// Over such sums the block round the middle is that of the search, so it is at the bar where that one is.
pub fn hidden_hypotheses_are_told()
    ensures { (s : Setup) (runs : List Run) (sums skipped : List ℕ) →
        AreCumulative s runs sums → 1 ≤ total s runs →
        is_hidden_in s.bar_numerator s.bar_denominator sums skipped ≡ is_hidden s runs skipped }
{}

/// What the cost of a pick says: it takes at most two steps more than the number of suspects has binary digits.
pub fn steps_are_few()
    ensures { (suspects digits steps : ℕ) →
        suspects < 2 ^ digits → 2 ^ steps ≤ 8 * suspects → steps ≤ digits + 2 }
{}
