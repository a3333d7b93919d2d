//! Refusals and faults as JSON.

ghost use Rattle.std.specs.Prelude.{◌≡◌, ◌≢◌, IfOk, [], ◌∷◌, codes, false, string_bytes};
ghost use Rattle.serde_json.specs.Data.{no_members, object, string};
ghost use Rattle.serde_json.specs.View.{view};
ghost use Rattle.serde_json.specs.Written.{compact_text, has_float};
ghost use Rattle.farm_wire.specs.Members.{put_all, whole, wholes};
ghost use Rattle.farm_wire.specs.Object.{members_in};
ghost use Rattle.farm_wire.specs.Refusals.{cause_numbers, cause_word, fault_data, refusal_data};

use crate::WireFault;
use crate::object::JsonObject;
use farm_entry::{OpenFault, Refusal};
use farm_types::Memory;
use serde_json::{Value, json};
use std::alloc::Global;
use suspect_range::RangeFault;

/// The text of a refusal: a JSON object with no space in it, whose members stand in the order of their names.
pub fn refusal_text(alloc: Global, refusal: &Refusal) -> Result<String, Memory>
    ensures { IfOk result (λ text. string_bytes text ≡ compact_text (refusal_data refusal.now)) }
{
    refusal_object(alloc, refusal)?.into_text()
}

/// The text of a fault of a line or of a body, in the form of a refusal. Running out of memory is none of theirs.
#[tactic(auto, unfolding(crate::specs::Refusals::fault_data))]
pub fn fault_text(alloc: Global, fault: &WireFault) -> Result<String, Memory>
    requires { fault.now ≢ WireFault.Memory }
    ensures { IfOk result (λ text. string_bytes text ≡ compact_text (fault_data fault.now)) }
{
    let object = match fault {
        WireFault::TooLong => refused(alloc, "TooLong")?,
        WireFault::BadJson => refused(alloc, "BadJson")?,
        WireFault::BadField(field) => refused(alloc, "BadField")?.with_text("field", field.name())?,
        WireFault::Memory => unreachable!(),
    };
    object.into_text()
}

#[tactic(auto, unfolding(crate::specs::Refusals::refusal_data))]
fn refusal_object(alloc: Global, refusal: &Refusal) -> Result<JsonObject, Memory>
    ensures { IfOk result (λ made. object (members_in made) ≡ refusal_data refusal.now) }
{
    match refusal {
        Refusal::BadOpen(cause) => bad_open(alloc, cause),
        Refusal::KeyClash(place) => refused_at(alloc, "KeyClash", "place", *place),
        Refusal::Full => refused(alloc, "Full"),
        Refusal::Closed => refused(alloc, "Closed"),
        Refusal::TooManySearches => refused(alloc, "TooManySearches"),
        Refusal::NoRun => refused(alloc, "NoRun"),
        Refusal::UnknownRun(run) => refused_at(alloc, "UnknownRun", "run", *run),
        Refusal::UnknownSearch(search) => refused_at(alloc, "UnknownSearch", "search", *search),
        Refusal::SearchEnded(standing) => refused(alloc, "SearchEnded")?.with_standing(*standing),
        Refusal::NoRevert => refused(alloc, "NoRevert"),
        Refusal::DailyLimit { day, count } => {
            refused_at(alloc, "DailyLimit", "day", *day)?.with_number("count", *count as u64)
        }
    }
}

/// A refusal of a kind.
fn refused(alloc: Global, kind: &str) -> Result<JsonObject, Memory>
    ensures { IfOk result (λ made. members_in made ≡ put_all no_members ((codes "refused", string kind.now) ∷ [])) }
{
    JsonObject::new(alloc).with_text("refused", kind)
}

/// A refusal of a kind, for a number.
fn refused_at(alloc: Global, kind: &str, name: &str, number: u32) -> Result<JsonObject, Memory>
    ensures { IfOk result (λ made. members_in made
        ≡ put_all no_members ((codes "refused", string kind.now) ∷ (name.now, whole number) ∷ [])) }
{
    refused(alloc, kind)?.with_number(name, number as u64)
}

#[tactic(auto, unfolding(crate::specs::Refusals::refusal_data))]
fn bad_open(alloc: Global, cause: &OpenFault) -> Result<JsonObject, Memory>
    ensures { IfOk result (λ made. object (members_in made) ≡ refusal_data (Refusal.BadOpen cause.now)) }
{
    let value = cause_value(alloc, cause)?;
    refused(alloc, "BadOpen")?
        .with_text("cause", cause_word(cause))?
        .with("value", value)
}

fn cause_word(cause: &OpenFault) -> &'static str
    ensures { result.now ≡ cause_word cause.now }
{
    match cause {
        OpenFault::Range(RangeFault::NoSuspects) => "NoSuspects",
        OpenFault::Range(RangeFault::TooManySuspects(_)) => "TooManySuspects",
        OpenFault::Range(RangeFault::WeightRange(_)) => "WeightRange",
        OpenFault::Range(RangeFault::CalmRange(_)) => "CalmRange",
        OpenFault::Range(RangeFault::Memory) => "Memory",
        OpenFault::Range(RangeFault::RepeatedCommit(_)) => "RepeatedCommit",
        OpenFault::Rate(_) => "Rate",
        OpenFault::Miss(_) => "Miss",
        OpenFault::Bar(_) => "Bar",
        OpenFault::Width(_) => "Width",
        OpenFault::Reruns(_) => "Reruns",
    }
}

fn cause_value(alloc: Global, cause: &OpenFault) -> Result<Value, Memory>
    ensures value { IfOk result (λ value. view value ≡ wholes (cause_numbers cause.now)) }
    ensures no_float { IfOk result (λ value. has_float (view value) ≡ false) }
{
    match cause {
        OpenFault::Range(RangeFault::NoSuspects) => Ok(json!(in alloc; [])?),
        OpenFault::Range(RangeFault::Memory) => Ok(json!(in alloc; [])?),
        OpenFault::Range(RangeFault::TooManySuspects(count)) => one_number(alloc, *count as u64),
        OpenFault::Range(RangeFault::WeightRange(position)) => one_number(alloc, *position as u64),
        OpenFault::Range(RangeFault::RepeatedCommit(position)) => one_number(
            alloc,
            *position as u64,
        ),
        OpenFault::Range(RangeFault::CalmRange(calm)) => one_number(alloc, *calm as u64),
        OpenFault::Rate(rate) => two_numbers(alloc, rate.a, rate.b),
        OpenFault::Miss(miss) => two_numbers(alloc, miss.c, miss.d),
        OpenFault::Bar(bar) => two_numbers(alloc, bar.t, bar.u),
        OpenFault::Width(width) => one_number(alloc, *width as u64),
        OpenFault::Reruns(reruns) => one_number(alloc, *reruns as u64),
    }
}

fn one_number(alloc: Global, number: u64) -> Result<Value, Memory>
    ensures value { IfOk result (λ value. view value ≡ wholes (number ∷ [])) }
    ensures no_float { IfOk result (λ value. has_float (view value) ≡ false) }
{
    Ok(json!(in alloc; [number])?)
}

fn two_numbers(alloc: Global, first: u32, second: u32) -> Result<Value, Memory>
    ensures value { IfOk result (λ value. view value ≡ wholes (first ∷ second ∷ [])) }
    ensures no_float { IfOk result (λ value. has_float (view value) ≡ false) }
{
    Ok(json!(in alloc; [first, second])?)
}
