//! The laws of plans over open positions. A function here does nothing: its contract is the law.

ghost use Rattle.std.specs.Prelude.{◌≡◌, ◌↔◌, ◌⊎◌, ℕ, ◌+◌, ◌*◌, ◌<◌, ◌≤◌, Bool, true, false, List, [], Some, None, length, slice_index};
ghost use Rattle.weight_exact.specs.Load.{floor};
ghost use Rattle.weight_exact.specs.Plan.{distance, pick, plan};
ghost use Rattle.weight_exact.specs.Share.{reached};
ghost use Rattle.weight_exact.specs.Weights.{Setup, cumulative, suspects, total};
ghost use Rattle.weight_exact.specs.declared.run.Run.{Run};
ghost use Rattle.threshold_pick.specs.Open.{is_open, is_skipped, open_pick, open_plan};
ghost use Rattle.threshold_pick.specs.Nearest.{AreShut, IsNearestOf, IsNearestOrNone};
ghost use Rattle.threshold_pick.specs.HiddenBlocks.{IsHidden, first_at, is_hidden, last_below, middle};

/// Where no position was skipped the plan is that of all positions, while a suspect is left above the floor.
pub fn with_nothing_skipped()
    ensures pick { (s : Setup) (runs : List Run) (k j : ℕ) → floor s.factors runs < suspects s →
        open_pick s runs [] k j ≡ Some (pick s runs k j) }
    ensures plan { (s : Setup) (runs : List Run) (k : ℕ) → floor s.factors runs < suspects s →
        open_plan s runs [] k ≡ plan s runs k }
{}

/// A plan of width k has k positions, or none, and none exactly where no position is open. The j-th is the position
/// above the floor, of those that are open, whose cumulative weight is nearest to j parts in k + 1 of the total, the
/// smaller one on a tie. There is one such position.
pub fn open_plan_is_nearest()
    ensures width { (s : Setup) (runs : List Run) (skipped : List ℕ) (k : ℕ) →
        (length (open_plan s runs skipped k) ≡ k) ⊎ (open_plan s runs skipped k ≡ []) }
    ensures none { (s : Setup) (runs : List Run) (skipped : List ℕ) (k : ℕ) → 1 ≤ k →
        (open_plan s runs skipped k ≡ []) ↔ AreShut (is_open skipped) (floor s.factors runs) (suspects s) }
    ensures each { (s : Setup) (runs : List Run) (skipped : List ℕ) (k j : ℕ) →
        j < length (open_plan s runs skipped k) →
        open_pick s runs skipped k (j + 1) ≡ Some (slice_index (open_plan s runs skipped k) j) }
    ensures nearest { (s : Setup) (runs : List Run) (skipped : List ℕ) (k j : ℕ) →
        IsNearestOrNone (is_open skipped) (λ i. distance (total s runs) j k (cumulative s runs i))
        (floor s.factors runs) (suspects s) (open_pick s runs skipped k j) }
    ensures one { (test : ℕ → Bool) (away : ℕ → ℕ) (low n i j : ℕ) →
        IsNearestOf test away low n i → IsNearestOf test away low n j → i ≡ j }
{}

/// The block round the middle of the weight tells whether hypotheses that skipped positions alone part are at the bar
/// together, where the bar is above a half and no hypothesis is at it alone: such hypotheses hold the middle, and the
/// greatest block round it holds them. Where no position is open it is the whole.
pub fn the_middle_block_tells()
    ensures hides { (s : Setup) (runs : List Run) (skipped : List ℕ) → 1 ≤ total s runs → reached s runs ≡ None →
        is_hidden s runs skipped ≡ true →
        IsHidden s runs skipped (last_below skipped (middle s runs) + 1)
        (first_at skipped (middle s runs) (suspects s)) }
    ensures hidden { (s : Setup) (runs : List Run) (skipped : List ℕ) (i j : ℕ) →
        s.bar_denominator < 2 * s.bar_numerator → 1 ≤ total s runs → IsHidden s runs skipped i j →
        is_hidden s runs skipped ≡ true }
    ensures all_skipped { (s : Setup) (runs : List Run) (skipped : List ℕ) →
        s.bar_numerator ≤ s.bar_denominator → 1 ≤ total s runs →
        AreShut (is_open skipped) (floor s.factors runs) (suspects s) → is_hidden s runs skipped ≡ true }
    ensures none_skipped { (s : Setup) (runs : List Run) → 1 ≤ total s runs → reached s runs ≡ None →
        is_hidden s runs [] ≡ false }
{}
