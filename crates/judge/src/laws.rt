//! The laws of the definitions: what holds of texts and their lines, words and numbers, and of how a search ends.
//!
//! A function here does nothing: its contract is the law.
ghost use Rattle.std.specs.Prelude.{◌≡◌, ◌≢◌, ◌++◌, ◌∷◌, ◌<◌, ◌≤◌, ◌^◌, ℕ, List, [], All, length, false, Some, Ok, Err, codes};
ghost use Rattle.std.specs.Fmt.{decimal};
ghost use Rattle.std.specs.List.{join_with_byte};
ghost use Rattle.judge.specs.Answer.{judged};
ghost use Rattle.judge.specs.Fates.{JudgeProgress, at_start, standing, is_searching, after_all};
ghost use Rattle.common_types.specs.Decimals.{number};
ghost use Rattle.judge.specs.Text.{lines, words, text_of};
ghost use Rattle.judge.specs.declared.run_line.RunLine.{RunLine};
ghost use Rattle.weight_exact.specs.Budget.{run_budget};
ghost use Rattle.weight_exact.specs.Load.{load};
ghost use Rattle.weight_exact.specs.Weights.{Setup};

/// What is written is what is read: lines that are each ended by a line feed, the last one perhaps not, words with one
/// space between two, and numbers in decimal. A number has no other text.
pub fn what_is_written_is_read()
    ensures lines { (all : List (List ℕ)) → All (All (λ (b : ℕ). b ≢ 10)) all → lines (text_of all) ≡ all }
    ensures last_line { (all : List (List ℕ)) (last : List ℕ) →
        All (All (λ (b : ℕ). b ≢ 10)) all → All (λ (b : ℕ). b ≢ 10) last → 0 < length last →
        lines (text_of all ++ last) ≡ all ++ last ∷ [] }
    ensures words { (all : List (List ℕ)) → 0 < length all → All (All (λ (b : ℕ). b ≢ 32)) all →
        words (join_with_byte 32 all) ≡ all }
    ensures number { (n : ℕ) → n < 2 ^ 64 → number (decimal n) ≡ Some n }
    ensures one_text { (word : List ℕ) (n : ℕ) → n < 2 ^ 64 → number word ≡ Some n → word ≡ decimal n }
{}

/// A search that has ended stays as it is: no later run line changes its counted runs or its standing.
pub fn an_ended_search_stays()
    ensures runs { (s : Setup) (p : JudgeProgress) (later : List RunLine) → is_searching (standing s p) ≡ false →
        (after_all s p later).counted ≡ p.counted }
    ensures standing { (s : Setup) (p : JudgeProgress) (later : List RunLine) → is_searching (standing s p) ≡ false →
        standing s (after_all s p later) ≡ standing s p }
{}

/// The load of the counted runs never passes the budget.
pub fn counted_runs_fit_the_budget()
    ensures { (s : Setup) (all : List RunLine) → load s.factors (after_all s at_start all).counted ≤ run_budget s }
{}

/// Whole inputs whose answers were worked out by hand: four suspects of one weight and a flake rate of 1/10.
pub fn worked_inputs()
    ensures named { judged (text_of (
        codes "search 1 10 9 10 1 1 1 1 1"
        ∷ codes "run 1 2 fail"
        ∷ codes "run 2 1 pass"
        ∷ codes "run 1 2 pass"
        ∷ codes "run 3 2 fail"
        ∷ codes "run 4 3 fail"
        ∷ []))
        ≡ Ok (text_of (
        codes "budget 33"
        ∷ codes "run 1 counted"
        ∷ codes "run 2 counted"
        ∷ codes "run 1 repeat"
        ∷ codes "run 3 counted"
        ∷ codes "run 4 late"
        ∷ codes "shares 0 9708 97 97 97"
        ∷ codes "standing named 2"
        ∷ [])) }
    ensures with_misses { judged (text_of (
        codes "miss 1 10"
        ∷ codes "search 1 10 9 10 1 1 1 1 1"
        ∷ codes "run 1 2 fail"
        ∷ codes "run 2 1 pass"
        ∷ codes "run 3 2 fail"
        ∷ []) ++ codes "run 4 1 pass")
        ≡ Ok (text_of (
        codes "budget 35"
        ∷ codes "run 1 counted"
        ∷ codes "run 2 counted"
        ∷ codes "run 3 counted"
        ∷ codes "run 4 counted"
        ∷ codes "shares 117 9529 117 117 117"
        ∷ codes "standing named 2"
        ∷ [])) }
    ensures position_of_no_suspect { judged (text_of (
        codes "search 1 10 9 10 1 1 1 1 1"
        ∷ codes "run 1 2 fail"
        ∷ codes "run 2 1 pass"
        ∷ codes "run 1 2 pass"
        ∷ codes "run 3 5 fail"
        ∷ codes "run 4 3 fail"
        ∷ []))
        ≡ Err 5 }
    ensures no_line { judged [] ≡ Err 1 }
{}
