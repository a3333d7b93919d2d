//! The members of an answer's object, each read in its form.

ghost use Rattle.std.specs.Prelude.{◌≡◌, ◌≢◌, Err, IfErr, IfOk, IsErrOf, IsOk, IsSome, Ok, OnErr};
ghost use Rattle.serde_json.specs.View.{view};
ghost use Rattle.farm_wire.specs.Forms as form;
ghost use Rattle.farm_wire.specs.Made as made;
ghost use Rattle.worker_agent.specs.Answers.{member_in};

use crate::AnswerFault;
use farm_types::{CommitId, Memory, Name, NameFault};
use serde_json::Value;
use std::alloc::Global;

/// A number of a run, from 1.
#[tactic(auto, unfolding(crate::specs::Answers::member_in))]
pub(crate) fn ordinal_in(object: &Value, name: &str) -> Result<u32, AnswerFault>
    ensures { result ≡ member_in name.now form.ordinal (view object.now) }
{
    object.get(name).and_then(ordinal).ok_or(AnswerFault::Shape)
}

/// The id of a commit.
#[tactic(auto, unfolding(crate::specs::Answers::member_in))]
pub(crate) fn commit_in(object: &Value, name: &str) -> Result<CommitId, AnswerFault>
    ensures { result ≡ member_in name.now form.commit (view object.now) }
{
    object.get(name).and_then(commit).ok_or(AnswerFault::Shape)
}

/// A name. Running out of memory is answered only where the member is one.
#[tactic(auto, unfolding(crate::specs::Answers::member_in))]
pub(crate) fn name_in(alloc: Global, object: &Value, name: &str) -> Result<Name, AnswerFault>
    ensures read { IfOk result (λ found. member_in name.now form.name (view object.now) ≡ Ok found) }
    ensures refused { IfErr result (λ fault. fault ≢ AnswerFault.Memory
        → member_in name.now form.name (view object.now) ≡ Err fault) }
    ensures short { IsErrOf result AnswerFault.Memory → IsOk (member_in name.now form.name (view object.now)) }
{
    let Some(value) = object.get(name) else {
        return Err(AnswerFault::Shape);
    };
    match text_name(alloc, value) {
        Ok(Some(found)) => Ok(found),
        Ok(None) => Err(AnswerFault::Shape),
        Err(_) => Err(AnswerFault::Memory),
    }
}

/// A whole number below 2^32.
#[tactic(auto, unfolding(farm_wire::specs::Forms::small, farm_wire::specs::Forms::whole))]
fn small(value: &Value) -> Option<u32>
    ensures { result ≡ form.small (view value.now) }
{
    u32::try_from(value.as_u64()?).ok()
}

#[tactic(auto, unfolding(farm_wire::specs::Forms::ordinal))]
fn ordinal(value: &Value) -> Option<u32>
    ensures { result ≡ form.ordinal (view value.now) }
{
    let number = small(value)?;
    if number == 0 { None } else { Some(number) }
}

#[tactic(auto, unfolding(farm_wire::specs::Forms::commit))]
fn commit(value: &Value) -> Option<CommitId>
    ensures { result ≡ form.commit (view value.now) }
{
    id_named(value.as_str()?)
}

fn id_named(text: &str) -> Option<CommitId>
    ensures { result ≡ made.id_named text.now }
{
    CommitId::read(text).ok()
}

/// A name, or none where the value is no text that is one. Memory is wanted for a copy of the name alone.
#[tactic(auto, unfolding(farm_wire::specs::Forms::name))]
fn text_name(alloc: Global, value: &Value) -> Result<Option<Name>, Memory>
    ensures read { IfOk result (λ found. found ≡ form.name (view value.now)) }
    ensures short { OnErr result (IsSome (form.name (view value.now))) }
{
    let Some(text) = value.as_str() else {
        return Ok(None);
    };
    match Name::of(alloc, text) {
        Ok(name) => Ok(Some(name)),
        Err(NameFault::Memory) => Err(Memory),
        Err(_) => Ok(None),
    }
}
