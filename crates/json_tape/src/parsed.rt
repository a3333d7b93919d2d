//! A value in a text.

ghost use Rattle.std.specs.Prelude.{◌≡◌, is_some, true};
ghost use Rattle.json_tape.specs.Places.{data_at};

use crate::items::ParsedItems;
use crate::number::whole_number;
use json::Element;

/// A value in a text that was read. A contract sees it as the value that `serde_json` reads there (`data_of`).
#[derive(Drop)]
pub struct Parsed<'t, 'a> {
    pub(crate) element: Element<'t, 'a>,
    ghost read: { is_some (data_at element) ≡ true },
}

impl<'t, 'a> Parsed<'t, 'a> {
    ghost use Rattle.std.specs.Prelude.{◌≡◌, MatchOption, None, Some, is_some, option_and_then, option_map, true};
    ghost use Rattle.serde_json.specs.Find.{as_array, as_number, as_object, as_str, as_u64, get};
    ghost use Rattle.json_tape.specs.Places.{data_at};
    ghost use Rattle.json_tape.specs.Views.{data_of, items_in};

    /// Whether it is an object.
    pub fn is_object(&self) -> bool
        ensures { result ≡ is_some (as_object (data_of self.now)) }
    {
        self.element.members().is_some()
    }

    /// The member of that name, where this is an object that has one: the last one of that name.
    pub fn get(&self, name: &str) -> Option<Parsed<'t, 'a>>
        ensures { option_map data_of result ≡ get name.now (data_of self.now) }
    {
        let element = self.element.get(name)?;
        Some(Parsed { element })
    }

    /// The text that it is.
    pub fn as_str(&self) -> Option<&'a str>
        ensures { option_map (λ s. s.now) result ≡ as_str (data_of self.now) }
    {
        self.element.as_str()
    }

    /// The whole number that it is, below 2^64 and written without a point or an exponent.
    pub fn as_u64(&self) -> Option<u64>
        ensures { result ≡ option_and_then as_u64 (as_number (data_of self.now)) }
    {
        let text = self.element.as_number()?;
        whole_number(text)
    }

    /// The items of the array that it is.
    pub fn items(&self) -> Option<ParsedItems<'t, 'a>>
        ensures { option_map items_in result ≡ as_array (data_of self.now) }
    {
        let next = self.element.items()?;
        Some(ParsedItems { next })
    }
}
