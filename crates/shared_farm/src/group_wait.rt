//! How long a caller whose batch may share a record waits for others at its turn: a group commit with a delay, as
//! PostgreSQL's `commit_delay` among `commit_siblings`.
use crate::beginning::Beginning;
use crate::errand::Errands;
use crate::sharing::MOST_PARTS;
use farm_disk::DatedDisk;
use std::sync::atomic::{AtomicU64, Ordering};
use std::{hint, thread};

/// How often it looks at most whether those have come who are expected.
const MOST_LOOKS: u64 = 400;

/// With so many pauses of the processor after each look. Then it gives its processor away, as those who are expected
/// may stand in line for it. Where other work has it for long, so does the wait.
const PAUSES: u64 = 8;

/// How many waits are left out at most, since nobody came in the ones before.
const MOST_LEFT_OUT: u64 = 64;

/// What the last record tells of the next one. It says how long to wait and no more: no contract speaks of it. Only
/// whoever has the turn reads and writes it.
#[derive(Drop)]
pub struct GroupWait {
    // How many callers may share the next record: those of the last one, who were answered together and are likely to
    // ask again at once, and those who waited as it was stored. 0 where the last batches to be run recorded nothing.
    coming: AtomicU64,
    // How many waits are still to be left out.
    left_out: AtomicU64,
    // How many were to be after the last wait.
    backoff: AtomicU64,
}

impl GroupWait {
    /// Before the first record.
    pub fn new() -> GroupWait {
        GroupWait {
            coming: AtomicU64::new(0),
            left_out: AtomicU64::new(0),
            backoff: AtomicU64::new(0),
        }
    }

    /// Takes in a record, before its callers are answered: how many these are, and how many entries it has. Without
    /// entries there is none.
    pub fn note<D: DatedDisk, B: Beginning>(
        &self,
        errands: &Errands<D, B, D::Over>,
        callers: usize,
        entries: usize,
    ) {
        let coming = if entries == 0 {
            0
        } else {
            errands.count_posted().saturating_add(callers as u64)
        };
        self.coming.store(coming, Ordering::SeqCst);
    }

    /// Waits until all have posted errands who may share the next record with this caller, for some looks at most. It
    /// doesn't wait where they all have, and not where nobody came in the waits before.
    pub fn gather<D: DatedDisk, B: Beginning>(&self, errands: &Errands<D, B, D::Over>) {
        let coming = self.coming.load(Ordering::SeqCst);
        let others = coming.min(MOST_PARTS as u64).saturating_sub(1);
        let before = errands.count_posted();
        if before >= others || self.is_left_out() {
            return;
        }
        for _ in 0..MOST_LOOKS {
            if errands.count_posted() >= others {
                break;
            }
            pause();
        }
        self.learn(errands.count_posted() > before);
    }

    /// Whether this wait is to be left out.
    fn is_left_out(&self) -> bool {
        let left_out = self.left_out.load(Ordering::SeqCst);
        if left_out == 0 {
            return false;
        }
        self.left_out.store(left_out - 1, Ordering::SeqCst);
        true
    }

    /// Takes in whether somebody came in a wait. Twice as many are left out after each wait in vain.
    fn learn(&self, came: bool) {
        let old = self.backoff.load(Ordering::SeqCst);
        let new = if came {
            0
        } else {
            old.saturating_mul(2).clamp(1, MOST_LEFT_OUT)
        };
        self.backoff.store(new, Ordering::SeqCst);
        self.left_out.store(new, Ordering::SeqCst);
    }
}

/// Pauses between two looks.
fn pause() {
    for _ in 0..PAUSES {
        hint::spin_loop();
    }
    thread::yield_now();
}
