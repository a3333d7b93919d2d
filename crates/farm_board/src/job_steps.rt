//! The rule of the table, and what each kind of step tells.
ghost use Rattle.farm_board.specs.JobRules.{IsKept};
ghost use Rattle.farm_board.specs.JobSteps.{Begins, Reserves, Posts, Takes, Ends, Fetches, Retracts};
ghost use Rattle.farm_board.specs.JobViews.{idle};

use crate::job_rule::JobRule;
use crate::job_view::{Slot, View};
use atomic_table::{Play, TableRule};
use std::marker::PhantomData;

/// The word of a slot that nobody uses.
pub const FREE: u64 = 0;

/// The word of a slot that a caller has for itself.
pub const CLAIMED: u64 = 1;

/// The word of a slot where a job is posted, which nobody has taken.
pub const POSTED: u64 = 2;

/// The word of a slot whose job is taken.
pub const TAKEN: u64 = 3;

/// The word of a slot where the answer is.
pub const ANSWERED: u64 = 4;

/// The rule of the table, whose key is what it was made about.
pub struct Keeping<P> {
    marker: PhantomData<P>,
}

impl<K, Q, A, P: JobRule<K, Q, A>> TableRule<Option<Slot<Q, A>>, View<K, Q>, K> for Keeping<P> {
    ghost holds = { IsKept P.may P.says };

    ghost first = { idle };
}

/// A seat is made.
pub struct Begin;

impl<K, Q, A> Play<Option<Slot<Q, A>>, View<K, Q>> for Begin {
    ghost then = { Begins };
}

/// A slot is claimed, where it is free.
pub struct Claim;

impl<K, Q, A> Play<Option<Slot<Q, A>>, View<K, Q>> for Claim {
    ghost then = { Reserves };
}

/// A job is posted in the slot that was claimed.
pub struct Post;

impl<K, Q, A> Play<Option<Slot<Q, A>>, View<K, Q>> for Post {
    ghost then = { Posts };
}

/// A job is taken, where one is posted.
pub struct Take<P> {
    marker: PhantomData<P>,
}

impl<K, Q, A, P: JobRule<K, Q, A>> Play<Option<Slot<Q, A>>, View<K, Q>> for Take<P> {
    ghost then = { Takes P.may };
}

/// A seat has done its part: it gave the answer, or the empty slot.
pub struct End;

impl<K, Q, A> Play<Option<Slot<Q, A>>, View<K, Q>> for End {
    ghost then = { Ends };
}

/// The answer is taken, where it is there.
pub struct Fetch<P> {
    marker: PhantomData<P>,
}

impl<K, Q, A, P: JobRule<K, Q, A>> Play<Option<Slot<Q, A>>, View<K, Q>> for Fetch<P> {
    ghost then = { Fetches P.says };
}

/// The job is taken back, where nobody has taken it.
pub struct Retract;

impl<K, Q, A> Play<Option<Slot<Q, A>>, View<K, Q>> for Retract {
    ghost then = { Retracts };
}
