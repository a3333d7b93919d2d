//! What a body answers to a lease.

ghost use Rattle.std.specs.Prelude.{◌≡◌, ◌≢◌, Err, IfErr, IfOk, Ok};
ghost use Rattle.serde_json.specs.View.{view};
ghost use Rattle.worker_agent.specs.Answers.{lease_in, lease_reading, object_of, refuses_closed, refuses_run, tells_closed, tells_no_run};

use crate::members::{commit_in, name_in, ordinal_in};
use farm_types::{CommitId, Memory, Name};
use serde_json::Value;
use std::alloc::Global;

/// A run that was handed out.
#[derive(Drop)]
pub struct LeaseAnswer {
    /// The number of the run, from 1.
    pub run: u32,
    /// The test to be run.
    pub test: Name,
    /// The commit at which it is to be run.
    pub commit: CommitId,
}

/// Why a body is no answer to a lease.
#[derive(Clone, Copy)]
pub enum AnswerFault {
    /// It is no JSON object that has the members in their forms.
    Shape,
    /// There was no memory for what was read.
    Memory,
}

impl From<Memory> for AnswerFault {
    fn from(_error: Memory) -> AnswerFault {
        AnswerFault::Memory
    }
}

/// The run, the test and the commit that the body of an answer names. Other members aren't looked at.
#[tactic(auto, unfolding(crate::specs::Answers::lease_reading))]
pub fn lease_of(alloc: Global, body: &[u8]) -> Result<LeaseAnswer, AnswerFault>
    ensures read { IfOk result (λ answer. lease_reading body.now ≡ Ok answer) }
    ensures refused { IfErr result (λ fault. fault ≢ AnswerFault.Memory → lease_reading body.now ≡ Err fault) }
{
    let object = object_of(alloc, body)?;
    lease_in(alloc, &object)
}

/// Whether the body of an answer says that the farm has no run to hand out: none is due, or it is closed.
#[tactic(auto, unfolding(crate::specs::Answers::tells_no_run))]
pub fn is_no_run(alloc: Global, body: &[u8]) -> Result<bool, Memory>
    ensures { IfOk result (λ told. told ≡ tells_no_run body.now) }
{
    match object_of(alloc, body) {
        Ok(object) => Ok(refuses_run(&object)),
        Err(AnswerFault::Shape) => Ok(false),
        Err(AnswerFault::Memory) => Err(Memory),
    }
}

/// Whether the body of an answer says that the farm is closed.
#[tactic(auto, unfolding(crate::specs::Answers::tells_closed))]
pub fn is_closed(alloc: Global, body: &[u8]) -> Result<bool, Memory>
    ensures { IfOk result (λ told. told ≡ tells_closed body.now) }
{
    match object_of(alloc, body) {
        Ok(object) => Ok(refuses_closed(&object)),
        Err(AnswerFault::Shape) => Ok(false),
        Err(AnswerFault::Memory) => Err(Memory),
    }
}

/// The JSON object that a body is.
#[tactic(auto, unfolding(crate::specs::Answers::object_of, farm_wire::specs::Reading::object_in))]
fn object_of(alloc: Global, body: &[u8]) -> Result<Value, AnswerFault>
    ensures read { IfOk result (λ value. object_of body.now ≡ Ok (view value)) }
    ensures refused { IfErr result (λ fault. fault ≢ AnswerFault.Memory → object_of body.now ≡ Err fault) }
{
    match Value::from_slice(alloc, body) {
        Ok(value) => {
            if value.is_object() {
                Ok(value)
            } else {
                Err(AnswerFault::Shape)
            }
        }
        Err(error) => {
            if error.is_memory() {
                Err(AnswerFault::Memory)
            } else {
                Err(AnswerFault::Shape)
            }
        }
    }
}

#[tactic(auto, unfolding(crate::specs::Answers::lease_in))]
fn lease_in(alloc: Global, object: &Value) -> Result<LeaseAnswer, AnswerFault>
    ensures read { IfOk result (λ answer. lease_in (view object.now) ≡ Ok answer) }
    ensures refused { IfErr result (λ fault. fault ≢ AnswerFault.Memory → lease_in (view object.now) ≡ Err fault) }
{
    let run = ordinal_in(object, "run")?;
    let test = name_in(alloc, object, "test")?;
    let commit = commit_in(object, "commit")?;
    Ok(LeaseAnswer { run, test, commit })
}

#[tactic(auto, unfolding(crate::specs::Answers::refuses_run))]
fn refuses_run(object: &Value) -> bool
    ensures { result ≡ refuses_run (view object.now) }
{
    let Some(value) = object.get("refused") else {
        return false;
    };
    match value.as_str() {
        Some(text) => text == "NoRun" || text == "Closed",
        None => false,
    }
}

#[tactic(auto, unfolding(crate::specs::Answers::refuses_closed))]
fn refuses_closed(object: &Value) -> bool
    ensures { result ≡ refuses_closed (view object.now) }
{
    let Some(value) = object.get("refused") else {
        return false;
    };
    match value.as_str() {
        Some(text) => text == "Closed",
        None => false,
    }
}
