//! A farm in memory, as one that answers the commands of a script.

use crate::script_farm::ScriptFarm;
use farm_core::Farm;
use farm_entry::{Answer, Command};
use farm_store::JournalFault;
use farm_types::{Memory, Moment};
use std::alloc::Global;

impl ScriptFarm for Farm {
    ghost use Rattle.std.specs.Prelude.{[], false};

    ghost history = { λ farm. farm.history };

    ghost pending = { λ _. [] };

    ghost count = { λ _. 0 };

    // It has no disk.
    ghost tells = { λ _. false };

    ghost told = { λ _. record { bytes = []; steps = [] } };

    fn answer_command(
        &mut self,
        _alloc: Global,
        command: &Command,
        at: Moment,
    ) -> Result<Answer, JournalFault> {
        match self.answer(command, at) {
            Ok(answer) => Ok(answer),
            Err(Memory) => Err(JournalFault::Memory),
        }
    }
}
