//! Where callers wait for the answers to their jobs.
ghost use Rattle.std.specs.Prelude.{◌<◌};
ghost use Rattle.farm_board.specs.declared.jobs.TheConstants.{SLOTS};

use crate::jobs::SLOTS;
use crossbeam_utils::sync::EventCount;
use std::array;

/// A bell for each slot.
#[derive(Drop)]
pub struct Bells {
    bells: [EventCount; SLOTS],
}

impl Bells {
    pub fn new() -> Bells {
        Bells {
            bells: array::from_fn(|_| EventCount::new()),
        }
    }

    /// The bell of a slot.
    pub fn of(&self, slot: usize) -> &EventCount
        requires { slot < SLOTS }
    {
        &self.bells[slot]
    }
}
