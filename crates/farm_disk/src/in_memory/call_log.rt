//! The calls that a disk in memory tells.
ghost use Rattle.std.specs.Prelude.{◌≡◌, ◌∷◌, [], length};
ghost use Rattle.common_types.specs.Moments.{passed_at};

use crate::Call;
use common_types::{Passed, ToldList};
use std::marker::Model;

/// The calls so far, for contracts alone, the newest first.
#[derive(Drop)]
pub(super) struct CallLog {
    calls: ToldList<Call>,
    // One for each call.
    ticks: ToldList<()>,
}

impl Model for CallLog {
    ghost use Rattle.std.specs.Prelude.{◌≡◌, List, length};
    ghost use Rattle.farm_disk.specs.declared.call.Call.{Call};

    ghost Value = { List Call };

    ghost view = { λ l. l.calls };

    ghost invariant = { λ l. length l.ticks ≡ length l.calls };
}

impl CallLog {
    /// No call yet.
    pub fn new() -> CallLog
        ensures { result ≡ [] }
    {
        CallLog {
            calls: ToldList::new(),
            ticks: ToldList::new(),
        }
    }

    /// Tells one more.
    pub fn tell(&mut self, call: &Call)
        ensures { self.new ≡ call.now ∷ self.old }
    {
        self.calls.tell(call);
        self.ticks.tell(&());
    }

    /// The moment after them.
    pub fn passed(&self) -> Passed
        ensures { passed_at result ≡ length self.now }
    {
        Passed::of(&self.ticks)
    }
}
