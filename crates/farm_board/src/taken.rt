//! A job that was taken.

use crate::job_view::{Slot, View};
use atomic_table::Seat;
use std::marker::Model;
use std::snapshot::Snapshot;

/// A job that somebody took. Contracts see it as the table and the job. It has to be answered by `JobTable::answer`, as
/// its caller waits for that.
pub struct Taken<K, Q, A> {
    pub(crate) slot: usize,
    pub(crate) seat: Seat<Option<Slot<Q, A>>, View<K, Q>>,
    pub(crate) job: Snapshot<Q>,
}

impl<K, Q, A> Model for Taken<K, Q, A> {
    ghost use Rattle.std.specs.Prelude.{◌≡◌, ◌<◌, [], ◌∷◌, None};
    ghost use Rattle.farm_board.specs.Jobs.{JobOf};
    ghost use Rattle.farm_board.specs.JobViews.{helping};
    ghost use Rattle.farm_board.specs.declared.jobs.TheConstants.{SLOTS};

    ghost Value = { JobOf K Q };

    ghost view = { λ t. record {
      table = record { id = t.seat.table_id; key = t.seat.me.0.key };
      job = t.job.value;
    } };

    ghost invariant = { λ t. (t.slot < SLOTS)
        × (t.seat.me ≡ (helping t.seat.me.0.key t.slot t.job.value, (t.slot, None) ∷ [])) };
}
