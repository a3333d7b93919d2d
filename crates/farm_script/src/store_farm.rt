//! A farm over a store, as one that answers the commands of a script.

use crate::script_farm::ScriptFarm;
use farm_disk::Disk;
use farm_entry::{Answer, Command};
use farm_store::{JournalFault, Store};
use farm_types::Moment;
use std::alloc::Global;

impl<D: Disk> ScriptFarm for Store<D> {
    ghost history = { λ store. store.history };

    ghost pending = { λ store. store.pending };

    ghost count = { λ store. D.count store.disk };

    ghost tells = { λ store. D.tells store.disk };

    ghost told = { λ store. D.told store.disk };

    fn answer_command(
        &mut self,
        alloc: Global,
        command: &Command,
        at: Moment,
    ) -> Result<Answer, JournalFault> {
        self.answer(alloc, command, at)
    }
}
