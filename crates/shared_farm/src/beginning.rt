//! What a farm began with, for contracts alone.

use std::marker::Brand;

/// What a farm began with when it was shared, where its caller wants to know at the end what became of it: turn by
/// turn, or that commands alone added to it; and the board of its totals, where its caller wants to know that all that
/// were read are of its one history. The call that shares the farm picks both. Where none is picked, nothing is said of
/// the turns together, and nothing of what readers have seen beside the history.
pub trait Beginning {
    ghost use Rattle.std.specs.Prelude.{Option};
    ghost use Rattle.atomic_table.specs.Seated.{TableId};
    ghost use Rattle.shared_farm.specs.Rests.{Begun};

    ghost begun: { Option Begun };

    ghost board: { Option TableId };
}

impl Beginning for Brand {
    ghost use Rattle.std.specs.Prelude.{None};

    ghost begun = { None };

    ghost board = { None };
}
