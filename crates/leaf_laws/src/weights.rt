//! The laws of the inference: what holds of likelihoods, weights, shares, budgets and plans, over every list of runs.
//!
//! A function here does nothing: its contract is the law. What computes has contracts over the same definitions.
ghost use Rattle.std.specs.Prelude.{◌≡◌, ◌↔◌, ℕ, ◌+◌, ◌*◌, ◌-◌, ◌^◌, ◌<◌, ◌≤◌, List, [], ◌∷◌, ◌++◌, map, length, slice_index, Some, None};
ghost use Rattle.flake_rate.specs.Divisor.{gcd};
ghost use Rattle.flake_rate.specs.Limits.{IsRate, IsMiss, IsTold};
ghost use Rattle.weight_exact.specs.Budget.{Fits, IsBudget, budget_of};
ghost use Rattle.weight_exact.specs.Example.{fail_at, pass_at};
ghost use Rattle.leaf_laws.specs.Example.{four_suspects, all_five};
ghost use Rattle.weight_exact.specs.Factors.{factors, greatest_factor};
ghost use Rattle.weight_exact.specs.Load.{floor, load};
ghost use Rattle.leaf_laws.specs.Plain.{on_plain_table, passes};
ghost use Rattle.weight_exact.specs.Plan.{distance, IsNearest, nearest, pick, plan};
ghost use Rattle.weight_exact.specs.Share.{share, basis_points, IsReached, reached};
ghost use Rattle.weight_exact.specs.Weights.{Setup, hypotheses, suspects, prior, weight, cumulative, total, AreInRange};
ghost use Rattle.weight_exact.specs.declared.factors.Factors.{Factors};
ghost use Rattle.weight_exact.specs.declared.factors.TheConstants.{MAX_FACTOR};
ghost use Rattle.weight_exact.specs.declared.run_budget.TheConstants.{MAX_PRIOR_TOTAL};
ghost use Rattle.weight_exact.specs.declared.run.Run.{Run};
ghost use Rattle.weight_exact.specs.declared.run.Verdict.TheVariants.{Pass, Fail};

/// Where a broken test never passes, a pass clears each suspect in its tree, for good. A fail at or below the floor
/// then tells no hypothesis from another: it multiplies each by the same number.
pub fn a_pass_clears()
    ensures cleared { (s : Setup) (runs : List Run) (r : Run) (i : ℕ) →
        s.factors.pass_in ≡ 0 → r.verdict ≡ Pass → i ≤ r.position →
        weight s (runs ++ r ∷ []) i ≡ 0 }
    ensures others { (s : Setup) (runs : List Run) (r : Run) (i : ℕ) →
        r.verdict ≡ Pass → r.position < i →
        weight s (runs ++ r ∷ []) i ≡ weight s runs i * s.factors.pass_out }
    ensures for_good { (s : Setup) (runs : List Run) (i : ℕ) →
        1 ≤ i → i ≤ floor s.factors runs → weight s runs i ≡ 0 }
    ensures fail_below { (s : Setup) (runs : List Run) (r : Run) (i : ℕ) →
        r.verdict ≡ Fail → r.position ≤ floor s.factors runs → 1 ≤ i →
        weight s (runs ++ r ∷ []) i ≡ weight s runs i * s.factors.fail_out }
{}

/// The total weight is never 0: where "no culprit" has a prior weight, and a sound tree may pass and may fail, that
/// hypothesis keeps a weight whatever the runs at the suspects' positions say.
pub fn total_is_positive()
    ensures { (s : Setup) (runs : List Run) →
        1 ≤ prior s (hypotheses s) → 1 ≤ s.factors.fail_out → 1 ≤ s.factors.pass_out →
        AreInRange s runs → 1 ≤ total s runs }
{}

/// A bar above one half is reached by one hypothesis at most, and `reached` computes which, or that none does.
pub fn at_most_one_reaches_the_bar()
    ensures one { (s : Setup) (runs : List Run) (i j : ℕ) →
        s.bar_denominator < 2 * s.bar_numerator → 1 ≤ total s runs →
        IsReached s runs i → IsReached s runs j → i ≡ j }
    ensures computed { (s : Setup) (runs : List Run) (i : ℕ) →
        s.bar_denominator < 2 * s.bar_numerator → 1 ≤ total s runs →
        (reached s runs ≡ Some i) ↔ IsReached s runs i }
    ensures none_computed { (s : Setup) (runs : List Run) →
        (reached s runs ≡ None) ↔ ((i : ℕ) → ¬ IsReached s runs i) }
{}

/// The computed budget is the budget, the only one, and less than 128. Where a load fits, each smaller one does.
pub fn there_is_one_budget()
    ensures computed { (prior_total : ℕ) (f : Factors) →
        1 ≤ prior_total → 2 ≤ greatest_factor f → Fits prior_total f 0 →
        IsBudget prior_total f (budget_of prior_total f) }
    ensures only { (prior_total : ℕ) (f : Factors) (budget : ℕ) →
        1 ≤ prior_total → 2 ≤ greatest_factor f → IsBudget prior_total f budget →
        budget ≡ budget_of prior_total f }
    ensures few { (prior_total : ℕ) (f : Factors) (load : ℕ) →
        1 ≤ prior_total → 2 ≤ greatest_factor f → Fits prior_total f load → load < 128 }
    ensures smaller { (prior_total : ℕ) (f : Factors) (load smaller : ℕ) →
        1 ≤ greatest_factor f → smaller ≤ load → Fits prior_total f load →
        Fits prior_total f smaller }
{}

/// The four likelihood numbers of rates within their limits. None is above the greatest there is, three are positive,
/// and the fourth is 0 exactly where a broken test never passes. A fail speaks for the hypotheses whose culprit is in
/// the tree, and a pass for the others. With no misses, a rate a/b in lowest terms has the numbers b and a for a fail,
/// and 0 and 1 for a pass.
pub fn likelihood_numbers_of_rates()
    ensures positive { (a b c d : ℕ) → IsRate a b → IsMiss c d →
        (1 ≤ (factors a b c d).fail_in)
        × (1 ≤ (factors a b c d).fail_out)
        × (1 ≤ (factors a b c d).pass_out) }
    ensures no_misses { (a b c d : ℕ) → IsRate a b →
        ((factors a b c d).pass_in ≡ 0) ↔ (c ≡ 0) }
    ensures fail_speaks_for_in { (a b c d : ℕ) → IsMiss c d → IsTold c d a b →
        (factors a b c d).fail_out < (factors a b c d).fail_in }
    ensures pass_speaks_for_out { (a b c d : ℕ) → IsRate a b → IsTold c d a b →
        (factors a b c d).pass_in < (factors a b c d).pass_out }
    ensures small { (a b c d : ℕ) → IsRate a b → IsMiss c d →
        greatest_factor (factors a b c d) ≤ MAX_FACTOR }
    ensures more_than_one { (a b c d : ℕ) → IsRate a b → IsMiss c d → IsTold c d a b →
        2 ≤ greatest_factor (factors a b c d) }
    ensures lowest_terms { (a b : ℕ) → IsRate a b → gcd a b ≡ 1 →
        factors a b 0 1
        ≡ record { fail_in = b; fail_out = a; pass_in = 0; pass_out = 1 } }
{}

/// Lowest terms change nothing that is seen: where a broken test never passes, the plain table of the rate a/b weighs
/// each hypothesis b - a more for each pass, and so gives the same shares, the same hypotheses at the bar and the same
/// plans.
pub fn plain_table_gives_the_same()
    ensures weights { (s : Setup) (a b : ℕ) →
        IsRate a b → gcd a b ≡ 1 → s.factors ≡ factors a b 0 1 →
        (runs : List Run) (i : ℕ) →
        weight (on_plain_table s a b) runs i ≡ weight s runs i * (b - a) ^ passes runs }
    ensures shares { (s : Setup) (a b : ℕ) →
        IsRate a b → gcd a b ≡ 1 → s.factors ≡ factors a b 0 1 →
        (runs : List Run) (i : ℕ) →
        basis_points (on_plain_table s a b) runs i ≡ basis_points s runs i }
    ensures at_bar { (s : Setup) (a b : ℕ) →
        IsRate a b → gcd a b ≡ 1 → s.factors ≡ factors a b 0 1 →
        (runs : List Run) (i : ℕ) →
        IsReached (on_plain_table s a b) runs i ↔ IsReached s runs i }
    ensures computed { (s : Setup) (a b : ℕ) →
        IsRate a b → gcd a b ≡ 1 → s.factors ≡ factors a b 0 1 →
        (runs : List Run) →
        reached (on_plain_table s a b) runs ≡ reached s runs }
    ensures plans { (s : Setup) (a b : ℕ) →
        IsRate a b → gcd a b ≡ 1 → s.factors ≡ factors a b 0 1 →
        (runs : List Run) (k : ℕ) →
        plan (on_plain_table s a b) runs k ≡ plan s runs k }
{}

/// A plan of width k has k positions, and the j-th is the position above the floor whose cumulative weight is nearest
/// to j parts in k + 1 of the total, the smaller one on a tie. There is one such position.
pub fn plan_is_nearest()
    ensures width { (s : Setup) (runs : List Run) (k : ℕ) → length (plan s runs k) ≡ k }
    ensures each { (s : Setup) (runs : List Run) (k j : ℕ) →
        j < k → slice_index (plan s runs k) j ≡ pick s runs k (j + 1) }
    ensures nearest { (s : Setup) (runs : List Run) (k j : ℕ) →
        floor s.factors runs < suspects s →
        IsNearest (λ i. distance (total s runs) j k (cumulative s runs i))
        (floor s.factors runs) (suspects s) (pick s runs k j) }
    ensures one { (away : ℕ → ℕ) (low n i j : ℕ) →
        IsNearest away low n i → IsNearest away low n j → i ≡ j }
{}

/// Shares, the bar and the plan depend on weights only as parts of their total: a common positive factor changes none.
pub fn only_parts_of_the_total_count()
    ensures shares { (v whole w other : ℕ) →
        1 ≤ whole → 1 ≤ other → v * other ≡ w * whole → share v whole ≡ share w other }
    ensures bar { (t u v whole w other : ℕ) →
        1 ≤ whole → 1 ≤ other → v * other ≡ w * whole →
        (t * whole ≤ v * u) ↔ (t * other ≤ w * u) }
    ensures nearest { (sums others : ℕ → ℕ) (whole other j k low more : ℕ) →
        1 ≤ whole → 1 ≤ other →
        ((i : ℕ) → low < i → i ≤ low + 1 + more → sums i * other ≡ others i * whole) →
        nearest (λ i. distance whole j k (sums i)) low more
        ≡ nearest (λ i. distance other j k (others i)) low more }
{}

/// Worked numbers. Four suspects and "no culprit", all of weight 1, with a flake rate of 1/10, no misses and a bar of
/// 9/10, and the budgets of a few searches: of a total prior weight of 5, of 1,001, and of the greatest there is.
pub fn worked_numbers()
    ensures weights_after_a_fail { map (weight four_suspects (fail_at 2 ∷ [])) all_five ≡ 10 ∷ 10 ∷ 1 ∷ 1 ∷ 1 ∷ [] }
    ensures shares_after_a_pass { map (basis_points four_suspects (fail_at 2 ∷ pass_at 1 ∷ [])) all_five
        ≡ 0 ∷ 7692 ∷ 769 ∷ 769 ∷ 769 ∷ [] }
    ensures none_named_yet { reached four_suspects (fail_at 2 ∷ pass_at 1 ∷ []) ≡ None }
    ensures shares_after_two_fails { map (basis_points four_suspects (fail_at 2 ∷ pass_at 1 ∷ fail_at 2 ∷ [])) all_five
        ≡ 0 ∷ 9708 ∷ 97 ∷ 97 ∷ 97 ∷ [] }
    ensures second_named { reached four_suspects (fail_at 2 ∷ pass_at 1 ∷ fail_at 2 ∷ []) ≡ Some 2 }
    ensures tie_of_two_and_three { distance (total four_suspects []) 1 1 (cumulative four_suspects [] 2)
        ≡ distance (total four_suspects []) 1 1 (cumulative four_suspects [] 3) }
    ensures first_plan { plan four_suspects [] 1 ≡ 2 ∷ [] }
    ensures first_plan_of_three { plan four_suspects [] 3 ≡ 1 ∷ 2 ∷ 4 ∷ [] }
    ensures budget_of_five { budget_of 5 (factors 1 10 0 1) ≡ 33 }
    ensures budget_of_a_thousand { budget_of 1001 (factors 1 10 0 1) ≡ 31 }
    ensures budget_of_the_greatest { budget_of MAX_PRIOR_TOTAL (factors 1 1000 0 1) ≡ 8 }
    ensures budget_at_one_percent { budget_of 180 (factors 1 100 0 1) ≡ 16 }
    ensures budget_with_misses { budget_of 5 (factors 1 10 1 10) ≡ 35 }
{}
