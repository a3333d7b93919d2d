//! What answers the commands of a script.

ghost use Rattle.std.specs.Prelude.{◌≡◌, ◌≢◌, ◌≤◌, ◌++◌, ℕ, Bool, List, [], IfOk, OnOk};
ghost use Rattle.common_types.specs.Counts.{Rose};
ghost use Rattle.farm_disk.specs.Images.{DiskState};
ghost use Rattle.farm_journal.specs.Faults.{OnMemory, OnStoreFault};
ghost use Rattle.farm_entry.specs.Answer.{IsAnswer};
ghost use Rattle.farm_entry.specs.Decision.{decide};
ghost use Rattle.farm_entry.specs.Legal.{IsLegal};
ghost use Rattle.farm_entry.specs.Playing.{after};
ghost use Rattle.farm_entry.specs.declared.entry.Entry.{Entry};
ghost use Rattle.farm_store.specs.Bytes.{StandsFor};
ghost use Rattle.farm_script.specs.Images.{Grows};

use farm_entry::{Answer, Command};
use farm_store::JournalFault;
use farm_types::Moment;
use std::alloc::Global;

/// A farm that answers the commands of a script, one after the other: one in memory, or one over a store, which may
/// fail and leave undecided whether an entry was stored.
pub trait ScriptFarm {
    /// The history.
    ghost history: { Self → List Entry };

    /// What a fault of the store left undecided.
    ghost pending: { Self → List Entry };

    /// How often the store has failed so far.
    ghost count: { Self → ℕ };

    /// Whether it tells contracts of the disk that its history stands on. A farm in memory has none.
    ghost tells: { Self → Bool };

    /// What that disk reads as, and what was done to it so far.
    ghost told: { Self → DiskState };

    /// Answers a command at a moment. A new entry is in the history, and stored where there is a store, before it is
    /// answered.
    ///
    /// # Errors
    ///
    /// A fault of the store, after which what the command adds may stand there or not; or running out of memory, and
    /// nothing of the command is recorded.
    fn answer_command(
        &mut self,
        alloc: Global,
        command: &Command,
        at: Moment,
    ) -> Result<Answer, JournalFault>
        requires { pending self.old ≡ [] }
        ensures answer { IfOk result (IsAnswer (history self.old) (decide (history self.old) command.now at)) }
        ensures history { OnOk result
            (history self.new ≡ after (history self.old) (decide (history self.old) command.now at)) }
        ensures legal { OnOk result (IsLegal (history self.new)) }
        ensures decided { OnOk result (pending self.new ≡ []) }

        // After a fault of the store the history is the one before, and what the command adds to it is pending.
        ensures store_fault { OnStoreFault result ((history self.new ≡ history self.old) × (pending self.new ≢ [])
            × (history self.old ++ pending self.new
            ≡ after (history self.old) (decide (history self.old) command.now at))) }
        ensures rises { OnStoreFault result (Rose (count self.old) (count self.new)) }
        ensures never_falls { count self.old ≤ count self.new }
        ensures memory { OnMemory result ((pending self.new ≡ []) × (history self.new ≡ history self.old)) }

        // A crash in the call leaves a history between the two.
        ensures images { Grows tells told StandsFor history pending self.old self.new };
}
