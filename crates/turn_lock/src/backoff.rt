//! How long a caller holds back that is about to draw a number while somebody has the turn.
use crate::spin::SpinLimit;
use std::{hint, thread};

/// How often it looks at most whether nobody has the turn any more. Then it draws its number, and is served in order.
const MOST_LOOKS: u64 = 64;

/// How many pauses of the processor lie before its second look.
const FIRST_PAUSES: u64 = 4;

/// Twice as many lie before each look as before the last one, but no more than these. From there on it gives up its
/// processor before each look, too.
const MOST_PAUSES: u64 = 512;

/// One caller's backoff: how often it looked, and how many pauses lie before its next look.
#[derive(Drop)]
pub struct Backoff {
    looks: u64,
    pauses: u64,
}

impl Backoff {
    pub fn new() -> Backoff {
        Backoff {
            looks: 0,
            pauses: FIRST_PAUSES,
        }
    }

    /// Whether a caller that looked, and found that somebody has the turn, is to look again, for which it has paused
    /// then. Otherwise it is to draw its number: it looked often enough, or turns are long.
    pub fn again(&mut self, limit: &SpinLimit) -> bool {
        if self.looks >= MOST_LOOKS || !limit.turns_are_short() {
            return false;
        }
        self.looks += 1;
        for _ in 0..self.pauses {
            hint::spin_loop();
        }
        if self.pauses < MOST_PAUSES {
            self.pauses *= 2;
        } else {
            thread::yield_now();
        }
        true
    }
}
