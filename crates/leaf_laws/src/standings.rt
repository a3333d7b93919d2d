//! Where a search stands, both ways.
ghost use Rattle.std.specs.Prelude.{◌≡◌, ◌↔◌, ℕ, true, List, Contains, Some};
ghost use Rattle.weight_exact.specs.Weights.{hypotheses};
ghost use Rattle.farm_entry.specs.History.{openings, was_cancelled};
ghost use Rattle.farm_entry.specs.Legal.{IsLegal};
ghost use Rattle.farm_entry.specs.Setup.{setup_of};
ghost use Rattle.farm_entry.specs.Standing.{standing};
ghost use Rattle.farm_entry.specs.declared.standing.Standing.TheVariants.{Searching, Verifying, Confirmed, Vindicated, NoCulprit, Inconclusive, Cancelled};
ghost use Rattle.farm_laws.specs.Laws.{culprit_of};
ghost use Rattle.leaf_laws.specs.Stands.{IsAtBar, IsBeingRerun, IsBorneOut, IsInconclusive, IsNamed, IsOpen, IsSpokenAgainst, IsUndecided, IsUnprovable};

use farm_entry::{Entry, Opening};

/// A standing names a suspect, or "no culprit", exactly where that hypothesis is at the bar over the counted runs and
/// the search is neither cancelled nor over its budget, but for a suspect that lacks reruns which can't be made any
/// more. A search goes on searching exactly where none is, and none are together that skipped positions alone part; and
/// while it does some position is open.
pub fn beliefs_decide_standings()
    ensures suspect { (H : List Entry) (o : Opening) (suspect : ℕ) → IsLegal H → Contains (openings H) o
        → (culprit_of (standing H o) ≡ Some suspect) ↔ (IsNamed H o suspect × ¬ IsUnprovable H o suspect) }
    ensures no_culprit { (H : List Entry) (o : Opening) → IsLegal H → Contains (openings H) o
        → (standing H o ≡ NoCulprit) ↔ IsAtBar H o (hypotheses (setup_of o)) }
    ensures searching { (H : List Entry) (o : Opening) → IsLegal H → Contains (openings H) o
        → (standing H o ≡ Searching) ↔ IsUndecided H o }
    ensures some_open { (H : List Entry) (o : Opening) → IsLegal H → Contains (openings H) o
        → standing H o ≡ Searching → (position : ℕ) × IsOpen H o position }
{}

/// A search that was cancelled stands so, whatever else. It is inconclusive exactly where it wasn't and a report went
/// over its budget; or no hypothesis is at the bar, and no position is open or hypotheses that skipped positions alone
/// part are at the bar together; or the suspect at the bar isn't confirmed, isn't vindicated, and lacks reruns at a
/// skipped position.
pub fn entries_end_searches()
    ensures cancelled { (H : List Entry) (o : Opening)
        → (standing H o ≡ Cancelled) ↔ (was_cancelled H o.search ≡ true) }
    ensures inconclusive { (H : List Entry) (o : Opening) → IsLegal H → Contains (openings H) o
        → (standing H o ≡ Inconclusive) ↔ IsInconclusive H o }
{}

/// A named suspect is vindicated exactly where a rerun spoke against it, confirmed exactly where none did and each
/// side has the reruns that were asked for, and verified exactly where none did and some side lacks reruns, none of
/// them at a skipped position.
pub fn named_suspects_stand_by_their_reruns()
    ensures vindicated { (H : List Entry) (o : Opening) (suspect : ℕ) → IsLegal H → Contains (openings H) o
        → (standing H o ≡ Vindicated suspect) ↔ IsSpokenAgainst H o suspect }
    ensures confirmed { (H : List Entry) (o : Opening) (suspect : ℕ) → IsLegal H → Contains (openings H) o
        → (standing H o ≡ Confirmed suspect) ↔ IsBorneOut H o suspect }
    ensures verifying { (H : List Entry) (o : Opening) (suspect : ℕ) → IsLegal H → Contains (openings H) o
        → (standing H o ≡ Verifying suspect) ↔ IsBeingRerun H o suspect }
{}
