//! What a list of reruns comes to, noted one by one. A function here does nothing: its contract is the law.

ghost use Rattle.std.specs.Prelude.{◌≡◌, ◌↔◌, ℕ, ◌≤◌, List, [], Contains};
ghost use Rattle.farm_rules.specs.Reruns.{Outcome as Ruling, verifying, confirmed, vindicating, outcome, reruns_at, after_reruns};
ghost use Rattle.weight_exact.specs.declared.run.Run.{Run};
ghost use Rattle.farm_rules.specs.Answer.{answers, in_time};

use crate::Outcome;

/// The reruns that counted are those that weren't answered to be late.
pub fn late_reruns_do_not_count()
    ensures { (culprit asked : ℕ) (noted : List Run) →
        after_reruns culprit asked [] noted ≡ in_time noted (answers culprit asked [] noted) }
{}

/// A verification with reruns asked for is answered to end exactly as the rule says of the reruns that weren't late: it
/// is confirmed, or vindicated, by one of them. With none asked for it is confirmed at once, and no rerun is in time.
pub fn ends_as_ruled()
    ensures confirmed { (culprit asked : ℕ) (noted : List Run) → 1 ≤ asked →
        (Contains (answers culprit asked [] noted) Outcome.Confirmed
        ↔ (outcome culprit asked (in_time noted (answers culprit asked [] noted)) ≡ confirmed)) }
    ensures vindicated { (culprit asked : ℕ) (noted : List Run) →
        Contains (answers culprit asked [] noted) Outcome.Vindicated
        ↔ (outcome culprit asked (in_time noted (answers culprit asked [] noted)) ≡ vindicating) }
    ensures none_asked { (culprit : ℕ) (noted : List Run) → in_time noted (answers culprit 0 [] noted) ≡ [] }
{}

/// On each side at most as many reruns count as were asked for.
pub fn at_most_the_asked_count()
    ensures { (culprit asked position : ℕ) (noted : List Run) →
        reruns_at position (after_reruns culprit asked [] noted) ≤ asked }
{}

/// Once the verification has ended, further reruns change nothing.
pub fn the_end_is_final()
    ensures { (culprit asked : ℕ) (reruns noted : List Run) → (outcome culprit asked reruns ≡ verifying → ⊥) →
        after_reruns culprit asked reruns noted ≡ reruns }
{}
