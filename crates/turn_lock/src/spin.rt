//! How often a caller that waits looks for its turn before it sleeps.
use std::sync::atomic::{AtomicU64, Ordering};
use std::{hint, thread};

/// How many looks one after the other may find that no turn has ended, while turns are short.
const MOST_LOOKS: u64 = 100;

/// How many while turns are long.
const FEWEST_LOOKS: u64 = 2;

/// One number in so many looks as if turns were short, to find out whether they are again.
const TRIAL: u64 = 16;

/// A caller whose turn is at most so many turns away keeps its processor at first.
const NEAR: u64 = 2;

/// For so many looks.
const NEAR_LOOKS: u64 = 20;

/// With so many pauses of the processor after each.
const PAUSES: u32 = 4;

/// Whether the caller with this number waits as if turns were short.
pub fn is_trial(ticket: u64) -> bool {
    ticket % TRIAL == 0
}

/// How often the callers of a lock look before they sleep, by how their latest waits went: where one had to sleep, half
/// as often, and where one came to its turn by looking, as often as ever.
#[derive(Drop)]
pub struct SpinLimit {
    looks: AtomicU64,
}

impl SpinLimit {
    pub fn new() -> SpinLimit {
        SpinLimit {
            looks: AtomicU64::new(MOST_LOOKS),
        }
    }

    /// Whether callers came to their turns by looking lately.
    pub fn turns_are_short(&self) -> bool {
        self.looks.load(Ordering::SeqCst) == MOST_LOOKS
    }

    fn of(&self, ticket: u64) -> u64 {
        if is_trial(ticket) {
            MOST_LOOKS
        } else {
            self.looks.load(Ordering::SeqCst)
        }
    }

    /// Takes in how a wait went that has come to its end.
    pub fn learn(&self, spin: &Spin) {
        if spin.served.is_none() {
            return;
        }
        let old = self.looks.load(Ordering::SeqCst);
        let new = if spin.slept {
            (old / 2).max(FEWEST_LOOKS)
        } else {
            MOST_LOOKS
        };
        if new != old {
            self.looks.store(new, Ordering::SeqCst);
        }
    }
}

/// One caller's wait: the number that was served at its last look, how many looks found it, how many may, and whether
/// the caller slept.
#[derive(Drop)]
pub struct Spin {
    served: Option<u64>,
    looks: u64,
    limit: u64,
    slept: bool,
}

impl Spin {
    pub fn new() -> Spin {
        Spin {
            served: None,
            looks: 0,
            limit: 0,
            slept: false,
        }
    }

    /// Whether a caller that looked, and found that another number is served, is to look again, for which it has
    /// paused then. Otherwise it is to sleep: too many looks found that no turn had ended.
    pub fn again(&mut self, limit: &SpinLimit, served: u64, ticket: u64) -> bool {
        if self.served.is_none() {
            self.limit = limit.of(ticket);
        }
        if self.served != Some(served) {
            self.served = Some(served);
            self.looks = 0;
        }
        if self.looks >= self.limit {
            self.slept = true;
            return false;
        }
        self.looks += 1;
        if self.looks <= NEAR_LOOKS && ticket.saturating_sub(served) <= NEAR {
            for _ in 0..PAUSES {
                hint::spin_loop();
            }
        } else {
            thread::yield_now();
        }
        true
    }
}
