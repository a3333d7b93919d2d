//! Which leases of a search are out, and which run is due by them.
ghost use Rattle.std.specs.Prelude.{◌≡◌, ◌≢◌, ◌↔◌, ℕ, ◌-◌, ◌<◌, ◌≤◌, true, false, List, [], ◌++◌, map, Contains, Some};
ghost use Rattle.std.specs.List.{All};
ghost use Rattle.std.specs.Option.{option_map};
ghost use Rattle.farm_types.specs.declared.stage.Stage.TheVariants.{Search, Verify};
ghost use Rattle.threshold_pick.specs.Open.{is_skipped, open_plan};
ghost use Rattle.farm_rules.specs.Due.{due_search, due_verify};
ghost use Rattle.farm_rules.specs.Reruns.{reruns_at};
ghost use Rattle.farm_entry.specs.Due.{due, is_open, outstanding_positions, outstanding};
ghost use Rattle.farm_entry.specs.History.{leases, openings, reruns, runs, skipped, told_runs};
ghost use Rattle.farm_entry.specs.Legal.{IsLegal};
ghost use Rattle.farm_entry.specs.Setup.{setup_of};
ghost use Rattle.farm_entry.specs.Standing.{is_active, standing};
ghost use Rattle.farm_entry.specs.declared.standing.Standing.TheVariants.{Searching, Verifying};

use farm_entry::{DueRun, Entry, LeasedRun, Opening};

/// A lease is open exactly while its run has no report, with a verdict or not, and its deadline lies later than the
/// moment.
pub fn leases_are_open_until_their_deadline()
    ensures { (H : List Entry) (l : LeasedRun) (moment : ℕ) → (is_open H moment l ≡ true)
        ↔ (All (λ (told : ℕ). told ≢ l.run) (told_runs H) × (moment < l.deadline)) }
{}

/// A lease that isn't open any more, since its run was reported or its time is over, is never open again, at no later
/// moment and in no longer history.
pub fn expired_leases_stay_expired()
    ensures { (H K : List Entry) (l : LeasedRun) (moment later : ℕ) → moment ≤ later
        → is_open H moment l ≡ false → is_open (H ++ K) later l ≡ false }
{}

/// The run that is due in a search is what the rules give for the positions of its outstanding leases: while it is
/// searching those of its open leases that search, while it verifies a suspect those that verify. A search that has
/// ended has none.
pub fn due_runs_go_by_outstanding_leases()
    ensures searching { (H : List Entry) (o : Opening) (moment : ℕ) → standing H o ≡ Searching
        → map (λ (l : LeasedRun). l.position) (outstanding H o moment)
        ≡ outstanding_positions H o.search Search moment }
    ensures due_searching { (H : List Entry) (o : Opening) (moment : ℕ) → standing H o ≡ Searching
        → due H o moment ≡ option_map (λ (k : ℕ). record { search = o.search; stage = Search; position = k })
        (due_search (open_plan (setup_of o) (runs H o.search) (skipped H o.search) o.width)
        (map (λ (l : LeasedRun). l.position) (outstanding H o moment))) }
    ensures verifying { (H : List Entry) (o : Opening) (moment suspect : ℕ) → standing H o ≡ Verifying suspect
        → map (λ (l : LeasedRun). l.position) (outstanding H o moment)
        ≡ outstanding_positions H o.search Verify moment }
    ensures due_verifying { (H : List Entry) (o : Opening) (moment suspect : ℕ) → standing H o ≡ Verifying suspect
        → due H o moment ≡ option_map (λ (k : ℕ). record { search = o.search; stage = Verify; position = k })
        (due_verify suspect (reruns_at suspect (reruns H o.search)) (reruns_at (suspect - 1) (reruns H o.search))
        (map (λ (l : LeasedRun). l.position) (outstanding H o moment)) o.reruns) }
    ensures ended { (H : List Entry) (o : Opening) (moment : ℕ) → is_active (standing H o) ≡ false
        → outstanding H o moment ≡ [] }
{}

/// A position that was skipped is never handed out again in its search, to search or to verify: no run is due there,
/// and each lease at it, in any longer history, was handed out before.
pub fn skipped_positions_are_never_leased_again()
    ensures due { (H : List Entry) (o : Opening) (moment : ℕ) (d : DueRun) → due H o moment ≡ Some d
        → is_skipped (skipped H o.search) d.position ≡ false }
    ensures leases { (H K : List Entry) (o : Opening) (l : LeasedRun) → IsLegal (H ++ K) → Contains (openings H) o
        → is_skipped (skipped H o.search) l.position ≡ true → Contains (leases (H ++ K) o.search) l
        → Contains (leases H o.search) l }
{}
