//! A JSON object in the making.

ghost use Rattle.std.specs.Prelude.{◌≡◌, false};
ghost use Rattle.serde_json.specs.View.{members_view};
ghost use Rattle.serde_json.specs.Written.{members_have_float};

use crate::standing::{culprit_in, standing_word};
use farm_entry::Standing;
use farm_types::Memory;
use serde_json::{Map, Value};
use std::alloc::Global;

/// A JSON object that members are put into, in any order. A contract sees them by `members_in`, in the order of their
/// names.
#[derive(Drop)]
pub(crate) struct JsonObject {
    alloc: Global,
    members: Map<String, Value>,
    ghost no_float: { members_have_float (members_view members.entries) ≡ false },
}

impl JsonObject {
    ghost use Rattle.std.specs.Prelude.{IfOk, string_bytes};
    ghost use Rattle.serde_json.specs.Data.{no_members, object, string};
    ghost use Rattle.serde_json.specs.View.{view};
    ghost use Rattle.serde_json.specs.Written.{compact_text, has_float};
    ghost use Rattle.hex.specs.Hex.{encode_lower};
    ghost use Rattle.farm_wire.specs.Members.{put_all, standing_members, whole, with_member};
    ghost use Rattle.farm_wire.specs.Object.{members_in};

    /// The object with no member.
    pub(crate) fn new(alloc: Global) -> JsonObject
        ensures { members_in result ≡ no_members }
    {
        JsonObject {
            alloc,
            members: Map::new(alloc),
        }
    }

    /// With a member, which takes the place of an earlier one of its name.
    pub(crate) fn with(self, name: &str, value: Value) -> Result<JsonObject, Memory>
        requires { has_float (view value) ≡ false }
        ensures { IfOk result (λ made. members_in made ≡ with_member name.now (view value) (members_in self)) }
    {
        let JsonObject { alloc, mut members } = self;
        serde_json::put(&mut members, alloc, name, value)?;
        Ok(JsonObject { alloc, members })
    }

    /// With a whole number as a member.
    pub(crate) fn with_number(self, name: &str, number: u64) -> Result<JsonObject, Memory>
        ensures { IfOk result (λ made. members_in made ≡ with_member name.now (whole number) (members_in self)) }
    {
        self.with(name, Value::from(number))
    }

    /// With a text as a member.
    pub(crate) fn with_text(self, name: &str, text: &str) -> Result<JsonObject, Memory>
        ensures { IfOk result (λ made. members_in made ≡ with_member name.now (string text.now) (members_in self)) }
    {
        let value = Value::try_from_str(self.alloc, text)?;
        self.with(name, value)
    }

    /// With bytes as a member, in hexadecimal digits with letters in lower case.
    pub(crate) fn with_bytes(self, name: &str, bytes: &[u8]) -> Result<JsonObject, Memory>
        ensures { IfOk result (λ made. members_in made
            ≡ with_member name.now (string (encode_lower bytes.now)) (members_in self)) }
    {
        let digits = hex::encode(self.alloc, bytes)?;
        self.with(name, Value::String(digits))
    }

    /// With the members that say where a search stands.
    pub(crate) fn with_standing(self, standing: Standing) -> Result<JsonObject, Memory>
        ensures { IfOk result (λ made. members_in made ≡ put_all (members_in self) (standing_members standing)) }
    {
        let object = self.with_text("standing", standing_word(standing))?;
        match culprit_in(standing) {
            Some(culprit) => object.with_number("culprit", culprit as u64),
            None => Ok(object),
        }
    }

    /// The object as a value.
    pub(crate) fn into_value(self) -> Value
        ensures value { view result ≡ object (members_in self) }
        ensures no_float { has_float (view result) ≡ false }
    {
        let JsonObject { alloc: _, members } = self;
        Value::Object(members)
    }

    /// The text of the object, with no space in it.
    pub(crate) fn into_text(self) -> Result<String, Memory>
        ensures { IfOk result (λ text. string_bytes text ≡ compact_text (object (members_in self))) }
    {
        let alloc = self.alloc;
        Ok(self.into_value().to_string(alloc)?)
    }
}
