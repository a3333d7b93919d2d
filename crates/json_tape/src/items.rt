//! The items of an array in a text.

ghost use Rattle.std.specs.Prelude.{◌≡◌, is_some, true};
ghost use Rattle.json_tape.specs.Places.{items_at};

use crate::parsed::Parsed;
use json::Items;

/// The items of an array that are still to come. A contract sees them as the items that `serde_json` reads there
/// (`items_in`).
#[derive(Drop)]
pub struct ParsedItems<'t, 'a> {
    pub(crate) next: Items<'t, 'a>,
    ghost read: { is_some (items_at next) ≡ true },
}

impl<'t, 'a> ParsedItems<'t, 'a> {
    ghost use Rattle.std.specs.Prelude.{◌≡◌, MatchOption};
    ghost use Rattle.serde_json.specs.Data.{item, no_items};
    ghost use Rattle.json_tape.specs.Views.{data_of, items_in};

    /// The next item, or none behind the last.
    pub fn next(&mut self) -> Option<Parsed<'t, 'a>>
        ensures { MatchOption result (items_in self.old ≡ no_items)
            (λ found. items_in self.old ≡ item (data_of found) (items_in self.new)) }
    {
        let element = self.next.next()?;
        Some(Parsed { element })
    }
}
