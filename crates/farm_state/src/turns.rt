//! The farm with its order of turns.

ghost use Rattle.std.specs.Prelude.{◌≡◌, ◌<◌, ◌-◌, ◌++◌, ◌∷◌, [], length, take, IfOk, OnOk, OnErr};
ghost use Rattle.farm_types.specs.Moment.{moment_ms};
ghost use Rattle.farm_entry.specs.Due.{next_run};
ghost use Rattle.farm_entry.specs.Legal.{IsLegal};
ghost use Rattle.farm_laws.specs.Laws.{IsNotBefore};

use crate::FarmState;
use crate::moves::{Change, make, move_of, undo};
use farm_entry::{DueRun, Entry, Settings, What};
use farm_types::{Memory, Moment};
use search_books::ActiveOrder;
use std::alloc::Global;
use std::marker::Model;

/// A farm with the order in which its active searches are asked for a run. Contracts see it as its history.
#[derive(Drop)]
pub struct FarmTurns {
    state: FarmState,
    active: ActiveOrder,
    changes: Vec<Change>,
}

impl Model for FarmTurns {
    ghost use Rattle.std.specs.Prelude.{List};
    ghost use Rattle.farm_entry.specs.declared.entry.Entry.{Entry};

    ghost Value = { List Entry };

    ghost view = { λ farm. farm.state };

    ghost use Rattle.farm_state.specs.TurnsInside.{AreFarmTurns};

    ghost invariant = { AreFarmTurns };
}

impl FarmTurns {
    /// A farm that was founded with these settings at this moment.
    ///
    /// # Errors
    ///
    /// [`Memory`].
    pub fn found(alloc: Global, settings: Settings, at: Moment) -> Result<FarmTurns, Memory>
        ensures { IfOk result (λ farm. farm ≡ record { at = at; what = What.Founded settings } ∷ []) }
    {
        let mut changes = Vec::new(alloc);
        changes.push(Change::Nothing)?;
        Ok(FarmTurns {
            state: FarmState::found(alloc, settings, at)?,
            active: ActiveOrder::start(alloc)?,
            changes,
        })
    }

    /// The history with its books, and the states of its searches.
    pub fn state(&self) -> &FarmState
        ensures { result.now ≡ self.now }
    {
        &self.state
    }

    /// The run that is handed out next, at a moment that is not before the last entry; none, where no search has a run
    /// to make.
    pub fn next_run(&self, moment: Moment) -> Option<DueRun>
        requires { IsNotBefore self.now (moment_ms moment) }
        ensures { result ≡ next_run self.now (moment_ms moment) }
    {
        let mut search = self.active.first();
        while search != 0 {
            if let Some(run) = self.state.due(search as u32, moment) {
                return Some(run);
            }
            search = self.active.next(search);
        }
        None
    }

    /// Adds an entry that may come next.
    ///
    /// # Errors
    ///
    /// [`Memory`]. The history stays.
    pub fn push(&mut self, alloc: Global, entry: Entry) -> Result<(), Memory>
        requires { IsLegal (self.old ++ entry ∷ []) }
        ensures pushed { OnOk result (self.new ≡ self.old ++ entry ∷ []) }
        ensures kept { OnErr result (self.new ≡ self.old) }
    {
        self.active.reserve(1)?;
        self.changes.reserve(1)?;
        let step = move_of(&self.state, &entry.what);
        self.state.push(alloc, entry)?;
        let change = make(&mut self.active, &self.state, step);
        self.changes.push_reserved(change);
        Ok(())
    }

    /// Takes the last entry away, which takes no memory.
    pub fn pop(&mut self)
        requires { 1 < length self.old }
        ensures { self.new ≡ take (length self.old - 1) self.old }
    {
        let Some(change) = self.changes.pop() else {
            unreachable!();
        };
        self.state.pop();
        undo(&mut self.active, change);
    }
}
