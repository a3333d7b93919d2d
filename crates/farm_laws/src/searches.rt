//! Laws of the searches of every legal history: what their runs are, how they end, and how many runs are out.

ghost use Rattle.std.specs.Prelude.{◌≡◌, ◌≢◌, ℕ, ◌*◌, ◌+◌, ◌<◌, ◌≤◌, ◌↔◌, false, List, ◌++◌, length, Contains, Some};
ghost use Rattle.farm_types.specs.declared.stage.Stage.TheVariants.{Search, Verify};
ghost use Rattle.weight_exact.specs.Load.{floor, load};
ghost use Rattle.weight_exact.specs.Share.{IsReached};
ghost use Rattle.weight_exact.specs.Weights.{suspects};
ghost use Rattle.farm_entry.specs.Due.{open_leases, outstanding};
ghost use Rattle.farm_entry.specs.History.{openings, reruns, runs, skipped};
ghost use Rattle.farm_laws.specs.Laws.{IsNotBefore, culprit_of};
ghost use Rattle.farm_laws.specs.Loads.{LoadsFit};
ghost use Rattle.farm_entry.specs.Legal.{IsLegal};
ghost use Rattle.farm_entry.specs.Setup.{budget_of_search, setup_of};
ghost use Rattle.farm_entry.specs.Standing.{is_active, at_bar, standing};
ghost use Rattle.farm_entry.specs.declared.limits.TheConstants.{MAX_RERUNS};
ghost use Rattle.farm_entry.specs.declared.standing.Standing.TheVariants.{Searching, Confirmed, NoCulprit};

use farm_entry::{Entry, Opening};

/// A hypothesis is at the bar exactly where it reaches it, at most one does, and a standing that names a suspect names
/// that one.
pub fn at_bar_exactly_where_reached()
    ensures at_bar { (H : List Entry) (o : Opening) (i : ℕ) → IsLegal H → Contains (openings H) o
        → (at_bar H o ≡ Some i) ↔ IsReached (setup_of o) (runs H o.search) i }
    ensures one { (H : List Entry) (o : Opening) (i j : ℕ) → IsLegal H → Contains (openings H) o
        → IsReached (setup_of o) (runs H o.search) i → IsReached (setup_of o) (runs H o.search) j → i ≡ j }
    ensures culprit { (H : List Entry) (o : Opening) (culprit : ℕ) → culprit_of (standing H o) ≡ Some culprit
        → (at_bar H o ≡ Some culprit) × (1 ≤ culprit) × (culprit ≤ suspects (setup_of o)) }
{}

/// Once a search isn't searching, the runs by which its belief is made stay as they are, and so does what they brought
/// to the bar.
pub fn runs_of_a_search_stop_growing()
    ensures { (H K : List Entry) (o : Opening) → IsLegal (H ++ K) → Contains (openings H) o
        → standing H o ≢ Searching
        → (runs (H ++ K) o.search ≡ runs H o.search) × (at_bar (H ++ K) o ≡ at_bar H o) }
{}

/// A search that has ended stays as it ended, in every longer history: its standing and its reruns, and, as with each
/// search that isn't searching, its runs.
pub fn ends_are_final()
    ensures confirmed { (H K : List Entry) (o : Opening) (culprit : ℕ) → IsLegal (H ++ K) → Contains (openings H) o
        → standing H o ≡ Confirmed culprit → standing (H ++ K) o ≡ Confirmed culprit }
    ensures no_culprit { (H K : List Entry) (o : Opening) → IsLegal (H ++ K) → Contains (openings H) o
        → standing H o ≡ NoCulprit → standing (H ++ K) o ≡ NoCulprit }
    ensures any_end { (H K : List Entry) (o : Opening) → IsLegal (H ++ K) → Contains (openings H) o
        → is_active (standing H o) ≡ false
        → (standing (H ++ K) o ≡ standing H o) × (reruns (H ++ K) o.search ≡ reruns H o.search)
        × (skipped (H ++ K) o.search ≡ skipped H o.search) }
{}

/// The counted runs of a search never ask more of its exact arithmetic than it has room for, and neither does any
/// beginning of them. So a belief can be told them one by one.
pub fn load_fits_the_budget()
    ensures all { (H : List Entry) (o : Opening) → IsLegal H → Contains (openings H) o
        → load (setup_of o).factors (runs H o.search) ≤ budget_of_search o }
    ensures each_beginning { (H : List Entry) (o : Opening) → IsLegal H → Contains (openings H) o
        → LoadsFit (setup_of o) (runs H o.search) }
{}

/// While a search is searching, some suspect isn't cleared, so there is a position to run.
pub fn some_suspect_is_left()
    ensures { (H : List Entry) (o : Opening) → IsLegal H → Contains (openings H) o
        → standing H o ≡ Searching → floor (setup_of o).factors (runs H o.search) < suspects (setup_of o) }
{}

/// At a moment that is not before the last entry a search has at most its width of open leases that search, and at most
/// twice its reruns of open leases that verify.
pub fn few_runs_are_out()
    ensures searching { (H : List Entry) (o : Opening) (moment : ℕ) → IsLegal H → Contains (openings H) o
        → IsNotBefore H moment → length (open_leases H o.search Search moment) ≤ o.width }
    ensures verifying { (H : List Entry) (o : Opening) (moment : ℕ) → IsLegal H → Contains (openings H) o
        → IsNotBefore H moment → length (open_leases H o.search Verify moment) ≤ 2 * o.reruns }
    ensures outstanding { (H : List Entry) (o : Opening) (moment : ℕ) → IsLegal H → Contains (openings H) o
        → IsNotBefore H moment → length (outstanding H o moment) ≤ 2 * MAX_RERUNS }
{}
