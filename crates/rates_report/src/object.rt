//! A JSON object in the making.

ghost use Rattle.std.specs.Prelude.{◌≡◌, false};
ghost use Rattle.serde_json.specs.View.{members_view};
ghost use Rattle.serde_json.specs.Written.{members_have_float};

use farm_types::Memory;
use serde_json::{Map, Value};
use std::alloc::Global;

/// A JSON object that members are put into, in any order. A contract sees them by `members_in`, in the order of their
/// names.
#[derive(Drop)]
pub(crate) struct LineObject {
    alloc: Global,
    members: Map<String, Value>,
    ghost no_float: { members_have_float (members_view members.entries) ≡ false },
}

impl LineObject {
    ghost use Rattle.std.specs.Prelude.{IfOk, string_bytes};
    ghost use Rattle.serde_json.specs.Data.{no_members, object};
    ghost use Rattle.serde_json.specs.View.{view};
    ghost use Rattle.serde_json.specs.Written.{compact_text, has_float};
    ghost use Rattle.farm_wire.specs.Members.{with_member};
    ghost use Rattle.rates_report.specs.Object.{members_in};

    /// The object with no member.
    pub(crate) fn new(alloc: Global) -> LineObject
        ensures { members_in result ≡ no_members }
    {
        LineObject {
            alloc,
            members: Map::new(alloc),
        }
    }

    /// With a member, which takes the place of an earlier one of its name.
    pub(crate) fn with(self, name: &str, value: Value) -> Result<LineObject, Memory>
        requires { has_float (view value) ≡ false }
        ensures { IfOk result (λ made. members_in made ≡ with_member name.now (view value) (members_in self)) }
    {
        let LineObject { alloc, mut members } = self;
        serde_json::put(&mut members, alloc, name, value)?;
        Ok(LineObject { alloc, members })
    }

    /// The text of the object, with no space in it.
    pub(crate) fn into_text(self) -> Result<String, Memory>
        ensures { IfOk result (λ text. string_bytes text ≡ compact_text (object (members_in self))) }
    {
        let LineObject { alloc, members } = self;
        Ok(Value::Object(members).to_string(alloc)?)
    }
}
