//! A reader that a handler has from its start on.
ghost use Rattle.farm_serve.specs.Nexts.{IsReaderOf};

use crate::naming::Naming;
use shared_farm::{Beginning, TotalsReader};
use std::marker::{Model, PhantomData};

/// A reader of totals that was made for a handler before the first accept, of which it is known what it has seen.
/// Contracts see it as that history.
#[derive(Drop)]
pub struct EarlyReader<B: Beginning, J: Naming> {
    reader: TotalsReader<B>,
    of: PhantomData<J>,
}

impl<B: Beginning, J: Naming> Model for EarlyReader<B, J> {
    ghost use Rattle.std.specs.Prelude.{List};
    ghost use Rattle.farm_entry.specs.declared.entry.Entry.{Entry};
    ghost use Rattle.farm_serve.specs.Nexts.{IsReaderOf};

    ghost Value = { List Entry };

    ghost view = { λ e. e.reader };

    ghost invariant = { λ e. IsReaderOf J.entry e.reader };
}

impl<B: Beginning, J: Naming> EarlyReader<B, J> {
    /// One for this reader.
    pub fn new(reader: TotalsReader<B>) -> EarlyReader<B, J>
        requires reader { IsReaderOf J.entry reader }
    {
        EarlyReader {
            reader,
            of: PhantomData,
        }
    }

    /// The reader.
    pub fn into_reader(self) -> TotalsReader<B>
        ensures reader { IsReaderOf J.entry result }
    {
        let EarlyReader { reader, .. } = self;
        reader
    }
}
