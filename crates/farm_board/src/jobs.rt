//! The table.
ghost use Rattle.std.specs.Prelude.{◌≡◌, ◌<◌, ◌∷◌, [], None, Some, IfOk, IfErr, IfSome, MatchBool};
ghost use Rattle.farm_board.specs.JobViews.{idle, claiming};

use crate::bells::Bells;
use crate::job_rule::JobRule;
use crate::job_steps::{
    ANSWERED, Begin, CLAIMED, Claim, End, FREE, Fetch, Keeping, POSTED, Post, Retract, TAKEN, Take,
};
use crate::job_view::{Slot, View};
use crate::posted::Posted;
use crate::taken::Taken;
use atomic_table::{Seat, Table};
use crossbeam_utils::sync::EventCount;
use std::alloc::{AllocError, Global};
use std::marker::Model;
use std::snapshot::Snapshot;
use std::sync::atomic::{AtomicU64, Ordering};

/// How many jobs may be under way at once.
pub const SLOTS: usize = 16;

/// A table of jobs `Q`, whose answers are `A`, under the rule `P`. `K` is what it was made about. Contracts see it as
/// its name and what it was made about.
#[derive(Drop)]
pub struct JobTable<K, Q, A, P: JobRule<K, Q, A>> {
    table: Table<Option<Slot<Q, A>>, View<K, Q>, K, Keeping<P>, Global>,
    bells: Bells,
    // How many jobs are posted and not taken, or are about to be. It is never less than those that are.
    waiting: AtomicU64,
    // The slot at which the next look for a job begins, so that each slot comes to its turn.
    next: AtomicU64,
}

impl<K, Q, A, P: JobRule<K, Q, A>> Model for JobTable<K, Q, A, P> {
    ghost use Rattle.std.specs.Prelude.{◌≡◌};
    ghost use Rattle.farm_board.specs.Jobs.{Jobs};
    ghost use Rattle.farm_board.specs.declared.jobs.TheConstants.{SLOTS};

    ghost Value = { Jobs K };

    ghost view = { λ t. record { id = t.table.shared.table_id; key = t.table.shared.key } };

    ghost invariant = { λ t. (t.table.shared.table_id.words ≡ SLOTS) × (t.table.shared.table_id.slots ≡ SLOTS) };
}

impl<K, Q, A, P: JobRule<K, Q, A>> JobTable<K, Q, A, P> {
    /// A table without jobs, made about this.
    pub fn new(alloc: Global, about: &K) -> Result<JobTable<K, Q, A, P>, AllocError>
        ensures key { IfOk result (λ made. made.key ≡ about.now) }
    {
        let (table, _) = Table::vacant(alloc, &[FREE; SLOTS], SLOTS, about)?;
        Ok(JobTable {
            table,
            bells: Bells::new(),
            waiting: AtomicU64::new(0),
            next: AtomicU64::new(0),
        })
    }

    /// Posts a job, which somebody may take from then on. It rings nobody. Where no slot is free the job comes back.
    pub fn post(&self, job: Q) -> Result<Posted<K, Q, A>, Q>
        requires may { P.may self.now.key job }
        ensures posted { IfOk result (λ posted. posted ≡ record { table = self.now; job = job }) }
        ensures back { IfErr result (λ same. same ≡ job) }
    {
        let shared = &self.table.shared;
        let (_, mut seat) = shared.load_new_seat::<Begin>(0);
        let Some(slot) = self.claim(&mut seat) else {
            return Err(job);
        };
        let asked = Snapshot::of(&job);
        let empty = shared.exchange(&mut seat, slot, Some(Slot::Job(job)));
        let None = empty else { unreachable!() };
        self.waiting.fetch_add(1, Ordering::SeqCst);
        shared.store::<Post>(&mut seat, slot, POSTED);
        Ok(Posted {
            slot,
            seat,
            job: asked,
        })
    }

    /// How many jobs seem to be posted that nobody has taken. It is a hint, for which one look is enough: a job that is
    /// just being posted or taken may count or not.
    pub fn count_posted(&self) -> u64 {
        self.waiting.load(Ordering::SeqCst)
    }

    /// Whether the answer to a job is there. It is a hint.
    pub fn is_answered(&self, posted: &Posted<K, Q, A>) -> bool {
        self.table.shared.peek(posted.slot) == ANSWERED
    }

    /// The answer to a job. Where it isn't there yet, the job stays posted.
    pub fn fetch(&self, posted: Posted<K, Q, A>) -> Result<A, Posted<K, Q, A>>
        requires own { posted.table ≡ self.now }
        ensures answer { IfOk result (λ answer. P.says self.now.key posted.job answer) }
        ensures back { IfErr result (λ same. same ≡ posted) }
    {
        let Posted {
            slot,
            mut seat,
            job,
        } = posted;
        let shared = &self.table.shared;
        let found = shared.compare_exchange::<Fetch<P>>(&mut seat, slot, ANSWERED, CLAIMED);
        if found != ANSWERED {
            return Err(Posted { slot, seat, job });
        }
        let left = shared.exchange(&mut seat, slot, None);
        let Some(Slot::Answer(answer)) = left else {
            unreachable!()
        };
        shared.store::<End>(&mut seat, slot, FREE);
        Ok(answer)
    }

    /// Takes a job back. Where somebody has taken it already, it stays posted: its answer is there, or may come.
    pub fn retract(&self, posted: Posted<K, Q, A>) -> Result<Q, Posted<K, Q, A>>
        requires own { posted.table ≡ self.now }
        ensures job { IfOk result (λ job. job ≡ posted.job) }
        ensures back { IfErr result (λ same. same ≡ posted) }
    {
        let Posted {
            slot,
            mut seat,
            job: asked,
        } = posted;
        let shared = &self.table.shared;
        let found = shared.compare_exchange::<Retract>(&mut seat, slot, POSTED, CLAIMED);
        if found != POSTED {
            return Err(Posted {
                slot,
                seat,
                job: asked,
            });
        }
        self.waiting.fetch_sub(1, Ordering::SeqCst);
        let left = shared.exchange(&mut seat, slot, None);
        let Some(Slot::Job(job)) = left else {
            unreachable!()
        };
        shared.store::<End>(&mut seat, slot, FREE);
        Ok(job)
    }

    /// Takes a job that is posted, if there is one, and looks first behind the one that was taken last. Whoever takes
    /// it has to answer it.
    pub fn take(&self) -> Option<(Taken<K, Q, A>, Q)>
        ensures taken { IfSome result (λ taken. taken.0 ≡ record { table = self.now; job = taken.1 }) }
        ensures may { IfSome result (λ taken. P.may self.now.key taken.1) }
    {
        if self.count_posted() == 0 {
            return None;
        }
        let first = self.first();
        for ahead in 0..SLOTS {
            let slot = (first + ahead) % SLOTS;
            if let Some(taken) = self.take_at(slot) {
                self.next.store((slot as u64) + 1, Ordering::SeqCst);
                return Some(taken);
            }
        }
        None
    }

    /// Answers a job, and rings its bell.
    pub fn answer(&self, taken: Taken<K, Q, A>, answer: A)
        requires own { taken.table ≡ self.now }
        requires says { P.says self.now.key taken.job answer }
    {
        let Taken {
            slot,
            mut seat,
            job: _,
        } = taken;
        let shared = &self.table.shared;
        let empty = shared.exchange(&mut seat, slot, Some(Slot::Answer(answer)));
        let None = empty else { unreachable!() };
        shared.store::<End>(&mut seat, slot, ANSWERED);
        self.bells.of(slot).notify_all();
    }

    /// The bell of a job, which rings when it is answered and when `ring_next` picks it. Its caller announces that it
    /// waits, looks once more, and then waits.
    pub fn bell(&self, posted: &Posted<K, Q, A>) -> &EventCount {
        self.bells.of(posted.slot)
    }

    /// Rings the bell of a job that is posted and not taken, if there is one: the one that would be taken next. So one
    /// of the callers that wait goes on, where nobody else takes jobs any more.
    pub fn ring_next(&self) {
        if self.count_posted() == 0 {
            return;
        }
        let first = self.first();
        for ahead in 0..SLOTS {
            let slot = (first + ahead) % SLOTS;
            if self.table.shared.peek(slot) == POSTED {
                self.bells.of(slot).notify_all();
                return;
            }
        }
    }

    /// The slot at which a look for a job begins.
    fn first(&self) -> usize
        ensures { result < SLOTS }
    {
        (self.next.load(Ordering::SeqCst) % (SLOTS as u64)) as usize
    }

    /// Claims a slot that is free, if there is one.
    fn claim(&self, seat: &mut Seat<Option<Slot<Q, A>>, View<K, Q>>) -> Option<usize>
        requires own { seat.old.table_id ≡ self.now.id }
        requires idles { seat.old.me ≡ (idle self.now.key, []) }
        ensures own { (seat.new.table_id ≡ seat.old.table_id) × (seat.new.id ≡ seat.old.id) }
        ensures within { IfSome result (λ slot. slot < SLOTS) }
        ensures claimed { IfSome result (λ slot. seat.new.me ≡ (claiming self.now.key slot, (slot, None) ∷ [])) }
    {
        for slot in 0..SLOTS {
            if self.claim_at(seat, slot) {
                return Some(slot);
            }
        }
        None
    }

    /// Claims a slot, where it is free.
    fn claim_at(&self, seat: &mut Seat<Option<Slot<Q, A>>, View<K, Q>>, slot: usize) -> bool
        requires own { seat.old.table_id ≡ self.now.id }
        requires idles { seat.old.me ≡ (idle self.now.key, []) }
        requires within { slot < SLOTS }
        ensures own { (seat.new.table_id ≡ seat.old.table_id) × (seat.new.id ≡ seat.old.id) }
        ensures claimed { MatchBool result
            (seat.new.me ≡ (claiming self.now.key slot, (slot, None) ∷ []))
            (seat.new.me ≡ seat.old.me) }
    {
        let shared = &self.table.shared;
        shared.peek(slot) == FREE
            && shared.compare_exchange::<Claim>(seat, slot, FREE, CLAIMED) == FREE
    }

    /// Takes the job of a slot, where one is posted.
    fn take_at(&self, slot: usize) -> Option<(Taken<K, Q, A>, Q)>
        requires within { slot < SLOTS }
        ensures taken { IfSome result (λ taken. taken.0 ≡ record { table = self.now; job = taken.1 }) }
        ensures may { IfSome result (λ taken. P.may self.now.key taken.1) }
    {
        let shared = &self.table.shared;
        if shared.peek(slot) != POSTED {
            return None;
        }
        let (_, mut seat) = shared.load_new_seat::<Begin>(slot);
        let found = shared.compare_exchange::<Take<P>>(&mut seat, slot, POSTED, TAKEN);
        if found != POSTED {
            return None;
        }
        self.waiting.fetch_sub(1, Ordering::SeqCst);
        let left = shared.exchange(&mut seat, slot, None);
        let Some(Slot::Job(job)) = left else {
            unreachable!()
        };
        let asked = Snapshot::of(&job);
        let taken = Taken {
            slot,
            seat,
            job: asked,
        };
        Some((taken, job))
    }
}
