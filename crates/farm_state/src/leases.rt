//! Which run is handed out.
ghost use Rattle.std.specs.Prelude.{◌≡◌, ◌↔◌, ℕ, List, [], Some};
ghost use Rattle.farm_types.specs.Moment.{moment_ms};
ghost use Rattle.farm_entry.specs.Decision.{decide, moment_used};
ghost use Rattle.farm_entry.specs.History.{last_lease, lease_in, leases};
ghost use Rattle.farm_entry.specs.Legal.{IsLegal};
ghost use Rattle.farm_state.specs.WhoseTurn.{HasTheTurn};

use farm_entry::{Command, Decision, Entry, LeasedRun};
use farm_types::Moment;

/// The run that a lease hands out is the due run of the search whose last lease stands earliest in the history, a
/// search that was never leased first, and of two such searches the one with the smaller number.
pub fn runs_go_to_the_search_that_waits_longest()
    ensures { (H : List Entry) (q : Command) (m : Moment) (e : Entry) (l : LeasedRun) → IsLegal H
        → decide H q m ≡ Decision.New e → lease_in e.what ≡ Some l → HasTheTurn H (moment_ms (moment_used H m)) l }
{}

/// The place of a search's last lease is that of the founding, where no lease stands, exactly where the search was
/// never leased. So a search that was never leased comes before all others.
pub fn searches_never_leased_stand_at_the_founding()
    ensures { (H : List Entry) (search : ℕ) → IsLegal H → (last_lease H search ≡ 0) ↔ (leases H search ≡ []) }
{}
