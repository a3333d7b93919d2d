//! A JSON object whose members are texts.

ghost use Rattle.std.specs.Prelude.{◌≡◌, false};
ghost use Rattle.serde_json.specs.View.{members_view};
ghost use Rattle.serde_json.specs.Written.{members_have_float};

use farm_types::Memory;
use serde_json::{Map, Value};
use std::alloc::Global;

/// A JSON object in the making, whose members are texts.
#[derive(Drop)]
pub(crate) struct TextObject {
    alloc: Global,
    members: Map<String, Value>,
    ghost no_float: { members_have_float (members_view members.entries) ≡ false },
}

impl TextObject {
    ghost use Rattle.std.specs.Prelude.{IfOk, string_bytes};
    ghost use Rattle.serde_json.specs.Data.{no_members, object, string};
    ghost use Rattle.serde_json.specs.Written.{compact_text};
    ghost use Rattle.farm_wire.specs.Members.{with_member};
    ghost use Rattle.worker_agent.specs.Object.{members_in};

    pub(crate) fn new(alloc: Global) -> TextObject
        ensures { members_in result ≡ no_members }
    {
        TextObject {
            alloc,
            members: Map::new(alloc),
        }
    }

    /// With a text as a member, which takes the place of an earlier one of its name.
    pub(crate) fn with(self, name: &str, text: &str) -> Result<TextObject, Memory>
        ensures { IfOk result (λ made. members_in made ≡ with_member name.now (string text.now) (members_in self)) }
    {
        let TextObject { alloc, mut members } = self;
        let value = Value::try_from_str(alloc, text)?;
        serde_json::put(&mut members, alloc, name, value)?;
        Ok(TextObject { alloc, members })
    }

    /// The text of the object, with no space in it.
    pub(crate) fn into_text(self) -> Result<String, Memory>
        ensures { IfOk result (λ text. string_bytes text ≡ compact_text (object (members_in self))) }
    {
        let TextObject { alloc, members } = self;
        Ok(Value::Object(members).to_string(alloc)?)
    }
}
