//! What the turns at a farm left, for contracts alone.
ghost use Rattle.std.specs.Prelude.{◌≡◌, ◌∷◌, []};
ghost use Rattle.shared_farm.specs.Logs.{row_of};

use common_types::{Past, ToldList};
use std::marker::Model;

/// What is kept of a turn: how many entries the history had after it, and a moment of the disk that was over then.
#[derive(Drop)]
pub(crate) struct TurnLeft<O> {
    pub entries: u64,
    pub over: O,
}

/// What each turn left. Contracts see it as a list of rows, the newest first. It takes the bytes of a flag.
#[derive(Drop)]
pub(crate) struct TurnLog<O: Past> {
    turns: ToldList<TurnLeft<O>>,
}

impl<O: Past> Model for TurnLog<O> {
    ghost use Rattle.std.specs.Prelude.{List, map};
    ghost use Rattle.common_types.specs.declared.row.Row.{Row};
    ghost use Rattle.shared_farm.specs.Logs.{row_of};

    ghost Value = { List Row };

    ghost view = { λ l. map (λ left. row_of O.at left) l.turns };
}

impl<O: Past> TurnLog<O> {
    /// No turn yet.
    pub fn new() -> TurnLog<O>
        ensures { result ≡ [] }
    {
        TurnLog {
            turns: ToldList::new(),
        }
    }

    /// Tells what a turn left.
    pub fn tell(&mut self, left: &TurnLeft<O>)
        ensures { self.new ≡ row_of O.at left.now ∷ self.old }
    {
        self.turns.tell(left);
    }
}
