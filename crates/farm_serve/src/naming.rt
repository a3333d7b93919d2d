//! What is known at run time alone, for contracts.

use std::marker::Brand;
use std::sync::ledger::Ledger;

/// What one call of serving began with, and the moments that its clock may give; and the ledger of the links that are
/// out. Each call picks it.
pub trait Naming: Ledger {
    ghost use Rattle.farm_types.specs.declared.moment.Moment.{Moment};
    ghost use Rattle.farm_serve.specs.Entries.{AtEntry};

    ghost entry: { AtEntry };

    ghost gives: { Moment → Type 0 };
}

impl Naming for Brand {
    ghost use Rattle.std.specs.Prelude.{⊤};
    ghost use Rattle.farm_serve.specs.Entries.{at_no_entry};

    ghost entry = { at_no_entry };

    ghost gives = { λ _. ⊤ };
}
