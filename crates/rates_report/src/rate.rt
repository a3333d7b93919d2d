//! The line of a test.

ghost use Rattle.std.specs.Prelude.{◌≡◌, [], ◌∷◌, false, IfOk, string_bytes};
ghost use Rattle.flake_rate.specs.Rate.{rate_denominator, rate_numerator};
ghost use Rattle.serde_json.specs.Data.{object};
ghost use Rattle.serde_json.specs.View.{view};
ghost use Rattle.serde_json.specs.Written.{compact_text, has_float};
ghost use Rattle.farm_wire.specs.Members.{wholes};
ghost use Rattle.rates_report.specs.Object.{members_in};
ghost use Rattle.rates_report.specs.Rates.{rate_data};

use crate::object::LineObject;
use farm_types::{Memory, Name};
use flake_rate::Rate;
use serde_json::{Value, json};
use std::alloc::Global;

/// The text that says how often a test failed, in how many runs, and which flake rate is offered for it. The member
/// `rate` has the form in which an open takes it.
///
/// # Errors
///
/// [`Memory`].
pub(crate) fn rate_text(
    alloc: Global,
    test: &Name,
    fails: u64,
    runs: u64,
    rate: Rate,
) -> Result<String, Memory>
    ensures { IfOk result (λ text. string_bytes text
        ≡ compact_text (rate_data test.now fails runs (rate_numerator rate) (rate_denominator rate))) }
{
    rate_object(alloc, test, fails, runs, rate)?.into_text()
}

#[tactic(auto, unfolding(crate::specs::Rates::rate_data))]
fn rate_object(
    alloc: Global,
    test: &Name,
    fails: u64,
    runs: u64,
    rate: Rate,
) -> Result<LineObject, Memory>
    ensures { IfOk result (λ made. object (members_in made)
        ≡ rate_data test.now fails runs (rate_numerator rate) (rate_denominator rate)) }
{
    LineObject::new(alloc)
        .with("fails", Value::from(fails))?
        .with("rate", fraction(alloc, rate.a(), rate.b())?)?
        .with("runs", Value::from(runs))?
        .with("test", Value::try_from_str(alloc, test.text())?)
}

/// Two numbers, as an array.
fn fraction(alloc: Global, numerator: u32, denominator: u32) -> Result<Value, Memory>
    ensures value { IfOk result (λ value. view value ≡ wholes (numerator ∷ denominator ∷ [])) }
    ensures no_float { IfOk result (λ value. has_float (view value) ≡ false) }
{
    Ok(json!(in alloc; [numerator, denominator])?)
}
