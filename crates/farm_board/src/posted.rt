//! A job that was posted.

use crate::job_view::{Slot, View};
use atomic_table::Seat;
use std::marker::Model;
use std::snapshot::Snapshot;

/// A job that its caller posted. Contracts see it as the table and the job. It has to be given back, by
/// `JobTable::fetch` for the answer or by `JobTable::retract` for the job, since its slot is used until then.
pub struct Posted<K, Q, A> {
    pub(crate) slot: usize,
    pub(crate) seat: Seat<Option<Slot<Q, A>>, View<K, Q>>,
    pub(crate) job: Snapshot<Q>,
}

impl<K, Q, A> Model for Posted<K, Q, A> {
    ghost use Rattle.std.specs.Prelude.{◌≡◌, ◌<◌, []};
    ghost use Rattle.farm_board.specs.Jobs.{JobOf};
    ghost use Rattle.farm_board.specs.JobViews.{asking};
    ghost use Rattle.farm_board.specs.declared.jobs.TheConstants.{SLOTS};

    ghost Value = { JobOf K Q };

    ghost view = { λ p. record {
      table = record { id = p.seat.table_id; key = p.seat.me.0.key };
      job = p.job.value;
    } };

    ghost invariant = { λ p. (p.slot < SLOTS) × (p.seat.me ≡ (asking p.seat.me.0.key p.slot p.job.value, [])) };
}
