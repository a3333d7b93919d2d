//! What a worker does, over single events and whole lists of them. A function here does nothing: its contract is the
//! law.

ghost use Rattle.std.specs.Prelude.{◌≡◌, ◌⊎◌, ℕ, ◌≤◌, ◌≢◌, List, [], ◌∷◌, Some};
ghost use Rattle.worker_core.specs.Core.{Core};
ghost use Rattle.worker_core.specs.Leases.{leases_taken};
ghost use Rattle.worker_core.specs.Origins.{Asked, ComesFrom, Reported};
ghost use Rattle.worker_core.specs.Reports.{reports_noted};
ghost use Rattle.worker_core.specs.Steps.{core_after, core_start, core_step};

use crate::{Action, End, Event};

/// Each action has its cause: it was the last one already, or what came of the last one calls for it. So what is
/// reported of a run is what came of its test, a worker is idle after it was told that there is no run, and it gives
/// up after the last try of a request was lost.
pub fn actions_have_their_causes()
    ensures { (core : Core) (event : Event) → ComesFrom core event (core_step core event).action }
{}

/// A request that is lost is sent again as it was, three times in all, and then the worker stops with the status of the
/// last try.
pub fn requests_are_sent_three_times()
    ensures { (core : Core) (x y z : ℕ) → Asked core ⊎ Reported core → core.lost ≡ 0
        → ((core_after core (Event.Lost x ∷ Event.Lost y ∷ [])).last ≡ core.last)
        × ((core_after core (Event.Lost x ∷ Event.Lost y ∷ Event.Lost z ∷ [])).last ≡ Some (Action.Stop (End.Peer z))) }
{}

/// A worker takes at most as many leases as it was started for, and exactly as many where it stops at its limit.
pub fn leases_are_limited()
    ensures most { (runs : ℕ) (events : List Event) → 1 ≤ runs → leases_taken (core_start runs) events ≤ runs }
    ensures limit { (runs : ℕ) (events : List Event) → 1 ≤ runs
        → (core_after (core_start runs) events).last ≡ Some (Action.Stop End.Limit)
        → leases_taken (core_start runs) events ≡ runs }
{}

/// A worker has at most as many reports noted as it took leases, and exactly as many where it stops but for a request
/// that was lost: each lease that it took was reported, and the farm noted it.
pub fn leases_are_reported()
    ensures most { (runs : ℕ) (events : List Event)
        → reports_noted (core_start runs) events ≤ leases_taken (core_start runs) events }
    ensures all { (runs : ℕ) (events : List Event) (end : End)
        → (core_after (core_start runs) events).last ≡ Some (Action.Stop end) → ((status : ℕ) → end ≢ End.Peer status)
        → reports_noted (core_start runs) events ≡ leases_taken (core_start runs) events }
{}
