//! What the reruns of a search are, and how a verification goes on.
ghost use Rattle.std.specs.Prelude.{◌≡◌, ℕ, ◌+◌, ◌-◌, ◌≤◌, ◌⊎◌, List, [], ◌++◌, Contains, None, Some, count_by};
ghost use Rattle.weight_exact.specs.Counts.{is_fail_at, is_pass_at};
ghost use Rattle.farm_rules.specs.Reruns.{after_reruns, reruns_at};
ghost use Rattle.weight_exact.specs.declared.run.Run.{Run};
ghost use Rattle.farm_entry.specs.History.{openings, reruns};
ghost use Rattle.farm_entry.specs.Legal.{IsLegal};
ghost use Rattle.farm_entry.specs.Standing.{at_bar, standing};
ghost use Rattle.farm_entry.specs.declared.standing.Standing.TheVariants.{Verifying, Confirmed, Inconclusive, Cancelled};
ghost use Rattle.farm_laws.specs.Laws.{culprit_of};
ghost use Rattle.leaf_laws.specs.Stands.{IsUnprovable};

use farm_entry::{Entry, Opening};

/// Each rerun that counts was made at the hypothesis at the bar or just below it; on each side there are at most as
/// many as were asked for; and they are what a verification of that suspect went through, one by one. A search
/// without a hypothesis at the bar has none. A confirmed suspect has exactly as many fails at it, and passes just
/// below it, as were asked for.
pub fn reruns_are_those_of_a_verification()
    ensures none { (H : List Entry) (o : Opening) → IsLegal H → Contains (openings H) o
        → at_bar H o ≡ None → reruns H o.search ≡ [] }
    ensures positions { (H : List Entry) (o : Opening) (suspect : ℕ) (r : Run) → IsLegal H → Contains (openings H) o
        → at_bar H o ≡ Some suspect → Contains (reruns H o.search) r
        → (r.position ≡ suspect) ⊎ (r.position + 1 ≡ suspect) }
    ensures went_through { (H : List Entry) (o : Opening) (suspect : ℕ) → IsLegal H → Contains (openings H) o
        → at_bar H o ≡ Some suspect
        → after_reruns suspect o.reruns [] (reruns H o.search) ≡ reruns H o.search }
    ensures asked { (H : List Entry) (o : Opening) (position : ℕ) → IsLegal H → Contains (openings H) o
        → reruns_at position (reruns H o.search) ≤ o.reruns }
    ensures exactly { (H : List Entry) (o : Opening) (suspect : ℕ) → IsLegal H → Contains (openings H) o
        → standing H o ≡ Confirmed suspect
        → (count_by (is_fail_at suspect) (reruns H o.search) ≡ o.reruns)
        × (count_by (is_pass_at (suspect - 1)) (reruns H o.search) ≡ o.reruns) }
{}

/// A search that verifies a suspect goes on to verify, confirm or vindicate the same one, or is cancelled, or ends
/// inconclusive as reruns that it lacks can't be made, in every longer history.
pub fn verifications_keep_their_suspect()
    ensures { (H K : List Entry) (o : Opening) (suspect : ℕ) → IsLegal (H ++ K) → Contains (openings H) o
        → standing H o ≡ Verifying suspect
        → (culprit_of (standing (H ++ K) o) ≡ Some suspect) ⊎ (standing (H ++ K) o ≡ Cancelled)
        ⊎ ((standing (H ++ K) o ≡ Inconclusive) × IsUnprovable (H ++ K) o suspect) }
{}
