//! The members of a command's object, each read in its form.

ghost use Rattle.std.specs.Prelude.{◌≡◌, ◌≢◌, Err, IfErr, IfOk, IsErrOf, IsOk, Ok};
ghost use Rattle.farm_wire.specs.Forms as form;
ghost use Rattle.farm_wire.specs.Reading.{field_in, miss_in};
ghost use Rattle.json_tape.specs.Views.{document_data};

use crate::forms::{commit, fraction, key, moment, ordinal, report, small, verb};
use crate::texts::{name, suspects};
use crate::verb::Verb;
use crate::{Field, WireFault};
use farm_entry::{Command, Suspects};
use farm_types::{CommitId, Key, Moment, Name};
use json_tape::Document;
use std::alloc::Global;

#[tactic(auto, unfolding(crate::specs::Reading::field_in))]
pub(crate) fn moment_in(object: &Document<'_>) -> Result<Moment, WireFault>
    ensures { result ≡ field_in Field.At form.moment (document_data object.now) }
{
    let field = Field::At;
    object
        .get(field.name())
        .and_then(moment)
        .ok_or(WireFault::BadField(field))
}

#[tactic(auto, unfolding(crate::specs::Reading::field_in))]
pub(crate) fn verb_in(object: &Document<'_>) -> Result<Verb, WireFault>
    ensures { result ≡ field_in Field.Do form.verb (document_data object.now) }
{
    let field = Field::Do;
    object
        .get(field.name())
        .and_then(verb)
        .ok_or(WireFault::BadField(field))
}

#[tactic(auto, unfolding(crate::specs::Reading::field_in))]
pub(crate) fn key_in(object: &Document<'_>) -> Result<Key, WireFault>
    ensures { result ≡ field_in Field.Key form.key (document_data object.now) }
{
    let field = Field::Key;
    object
        .get(field.name())
        .and_then(key)
        .ok_or(WireFault::BadField(field))
}

#[tactic(auto, unfolding(crate::specs::Reading::field_in))]
pub(crate) fn base_in(object: &Document<'_>) -> Result<CommitId, WireFault>
    ensures { result ≡ field_in Field.Base form.commit (document_data object.now) }
{
    let field = Field::Base;
    object
        .get(field.name())
        .and_then(commit)
        .ok_or(WireFault::BadField(field))
}

/// What a report of this run asks for, by its verdict.
#[tactic(auto, unfolding(crate::specs::Reading::field_in))]
pub(crate) fn reported_in(run: u32, object: &Document<'_>) -> Result<Command, WireFault>
    ensures { result ≡ field_in Field.Verdict (form.report run) (document_data object.now) }
{
    let field = Field::Verdict;
    let Some(value) = object.get(field.name()) else {
        return Err(WireFault::BadField(field));
    };
    report(run, value).ok_or(WireFault::BadField(field))
}

/// A whole number below 2^32.
#[tactic(auto, unfolding(crate::specs::Reading::field_in))]
pub(crate) fn small_in(object: &Document<'_>, field: Field) -> Result<u32, WireFault>
    ensures { result ≡ field_in field form.small (document_data object.now) }
{
    object
        .get(field.name())
        .and_then(small)
        .ok_or(WireFault::BadField(field))
}

/// The number of a run or a search, or the first of a page.
#[tactic(auto, unfolding(crate::specs::Reading::field_in))]
pub(crate) fn ordinal_in(object: &Document<'_>, field: Field) -> Result<u32, WireFault>
    ensures { result ≡ field_in field form.ordinal (document_data object.now) }
{
    object
        .get(field.name())
        .and_then(ordinal)
        .ok_or(WireFault::BadField(field))
}

#[tactic(auto, unfolding(crate::specs::Reading::field_in))]
pub(crate) fn fraction_in(object: &Document<'_>, field: Field) -> Result<(u32, u32), WireFault>
    ensures { result ≡ field_in field form.fraction (document_data object.now) }
{
    object
        .get(field.name())
        .and_then(fraction)
        .ok_or(WireFault::BadField(field))
}

/// The miss rate, which may be left out.
#[tactic(auto, unfolding(crate::specs::Reading::miss_in))]
pub(crate) fn miss_in(object: &Document<'_>) -> Result<(u32, u32), WireFault>
    ensures { result ≡ miss_in (document_data object.now) }
{
    let field = Field::Miss;
    match object.get(field.name()) {
        Some(value) => fraction(value).ok_or(WireFault::BadField(field)),
        None => Ok((0, 1)),
    }
}

/// A name. Running out of memory is answered only where the member is one.
#[tactic(auto, unfolding(crate::specs::Reading::field_in))]
pub(crate) fn name_in(alloc: Global, object: &Document<'_>, field: Field) -> Result<Name, WireFault>
    ensures read { IfOk result (λ name. field_in field form.name (document_data object.now) ≡ Ok name) }
    ensures refused { IfErr result (λ fault. fault ≢ WireFault.Memory
        → field_in field form.name (document_data object.now) ≡ Err fault) }
    ensures short { IsErrOf result WireFault.Memory → IsOk (field_in field form.name (document_data object.now)) }
{
    let Some(value) = object.get(field.name()) else {
        return Err(WireFault::BadField(field));
    };
    match name(alloc, value) {
        Ok(Some(name)) => Ok(name),
        Ok(None) => Err(WireFault::BadField(field)),
        Err(_) => Err(WireFault::Memory),
    }
}

#[tactic(auto, unfolding(crate::specs::Reading::field_in))]
pub(crate) fn suspects_in(alloc: Global, object: &Document<'_>) -> Result<Suspects, WireFault>
    ensures read { IfOk result (λ found. field_in Field.Suspects form.suspects (document_data object.now) ≡ Ok found) }
    ensures refused { IfErr result (λ fault. fault ≢ WireFault.Memory
        → field_in Field.Suspects form.suspects (document_data object.now) ≡ Err fault) }
{
    let field = Field::Suspects;
    let Some(value) = object.get(field.name()) else {
        return Err(WireFault::BadField(field));
    };
    match suspects(alloc, value) {
        Ok(Some(found)) => Ok(found),
        Ok(None) => Err(WireFault::BadField(field)),
        Err(_) => Err(WireFault::Memory),
    }
}
