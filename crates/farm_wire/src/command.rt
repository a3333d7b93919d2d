//! Commands, read from the object of a line or from the text of a body.

ghost use Rattle.std.specs.Prelude.{◌≡◌, ◌≢◌, Err, IfErr, IfOk, Ok};
ghost use Rattle.json_tape.specs.Views.{document_data};
ghost use Rattle.farm_wire.specs.Bodies.{IsByBody};
ghost use Rattle.farm_wire.specs.Reading.{body_reading, object_of};
ghost use Rattle.farm_wire.specs.Reading.{cancel_in, cancel_line_in, command_in, lease_in, list_in, open_in, report_in};
ghost use Rattle.farm_wire.specs.Reading.{report_line_in, revert_in, runs_in, search_in};

use crate::fields::{
    base_in, fraction_in, key_in, miss_in, name_in, ordinal_in, reported_in, small_in, suspects_in,
};
use crate::limits::MAX_COMMAND_BYTES;
use crate::verb::Verb;
use crate::{Field, Route, WireFault};
use farm_entry::{Command, OpenAsk};
use json::Scratch;
use json_tape::{Document, Unread};
use std::alloc::Global;

/// What a request on a route asks for by its body: one JSON object, as in a script line but without the moment, what is
/// asked for, and the number that the path gives. Where the route shows something the body isn't looked at. Else the
/// first fault of the body is answered.
#[tactic(auto, unfolding(crate::specs::Reading::body_reading))]
pub fn command_of(alloc: Global, route: &Route, body: &[u8]) -> Result<Command, WireFault>
    ensures read { IfOk result (λ command. body_reading route.now body.now ≡ Ok command) }
    ensures refused { IfErr result (λ fault. fault ≢ WireFault.Memory → body_reading route.now body.now ≡ Err fault) }
{
    match route {
        Route::Search(search) => Ok(Command::ShowSearch { search: *search }),
        Route::Farm => Ok(Command::ShowFarm),
        Route::Orders => Ok(Command::ShowOrders),
        Route::Runs { search, from } => Ok(Command::ShowRuns {
            search: *search,
            from: *from,
        }),
        Route::List(from) => Ok(Command::ShowSearches { from: *from }),
        _ => asked_by(alloc, route, body),
    }
}

/// The same where the body says what is asked for. It stands apart, so that a route that shows something needs no room
/// to read a body.
#[inline(never)]
#[tactic(auto, unfolding(crate::specs::Reading::body_reading))]
fn asked_by(alloc: Global, route: &Route, body: &[u8]) -> Result<Command, WireFault>
    requires { IsByBody route.now }
    ensures read { IfOk result (λ command. body_reading route.now body.now ≡ Ok command) }
    ensures refused { IfErr result (λ fault. fault ≢ WireFault.Memory → body_reading route.now body.now ≡ Err fault) }
{
    match route {
        Route::Open => open_of(alloc, body),
        Route::Lease => lease_of(alloc, body),
        Route::Report(run) => report_of(alloc, *run, body),
        Route::Cancel(search) => cancel_of(alloc, *search, body),
        Route::Revert => revert_of(alloc, body),
        Route::Search(_) => unreachable!(),
        Route::Farm => unreachable!(),
        Route::Orders => unreachable!(),
        Route::Runs { .. } => unreachable!(),
        Route::List(_) => unreachable!(),
    }
}

// The commands that have a body. Each makes the room to read it, so that a command without one clears none.

#[tactic(auto, unfolding(crate::specs::Reading::body_reading))]
fn open_of(alloc: Global, body: &[u8]) -> Result<Command, WireFault>
    ensures read { IfOk result (λ command. body_reading Route.Open body.now ≡ Ok command) }
    ensures refused { IfErr result (λ fault. fault ≢ WireFault.Memory
        → body_reading Route.Open body.now ≡ Err fault) }
{
    let mut scratch = Scratch::new(alloc);
    open_in(alloc, &object_of(alloc, body, &mut scratch)?)
}

#[tactic(auto, unfolding(crate::specs::Reading::body_reading))]
fn lease_of(alloc: Global, body: &[u8]) -> Result<Command, WireFault>
    ensures read { IfOk result (λ command. body_reading Route.Lease body.now ≡ Ok command) }
    ensures refused { IfErr result (λ fault. fault ≢ WireFault.Memory
        → body_reading Route.Lease body.now ≡ Err fault) }
{
    let mut scratch = Scratch::new(alloc);
    lease_in(alloc, &object_of(alloc, body, &mut scratch)?)
}

#[tactic(auto, unfolding(crate::specs::Reading::body_reading))]
fn report_of(alloc: Global, run: u32, body: &[u8]) -> Result<Command, WireFault>
    ensures read { IfOk result (λ command. body_reading (Route.Report run) body.now ≡ Ok command) }
    ensures refused { IfErr result (λ fault. fault ≢ WireFault.Memory
        → body_reading (Route.Report run) body.now ≡ Err fault) }
{
    let mut scratch = Scratch::new(alloc);
    report_in(run, &object_of(alloc, body, &mut scratch)?)
}

#[tactic(auto, unfolding(crate::specs::Reading::body_reading))]
fn cancel_of(alloc: Global, search: u32, body: &[u8]) -> Result<Command, WireFault>
    ensures read { IfOk result (λ command. body_reading (Route.Cancel search) body.now ≡ Ok command) }
    ensures refused { IfErr result (λ fault. fault ≢ WireFault.Memory
        → body_reading (Route.Cancel search) body.now ≡ Err fault) }
{
    let mut scratch = Scratch::new(alloc);
    cancel_in(search, &object_of(alloc, body, &mut scratch)?)
}

#[tactic(auto, unfolding(crate::specs::Reading::body_reading))]
fn revert_of(alloc: Global, body: &[u8]) -> Result<Command, WireFault>
    ensures read { IfOk result (λ command. body_reading Route.Revert body.now ≡ Ok command) }
    ensures refused { IfErr result (λ fault. fault ≢ WireFault.Memory
        → body_reading Route.Revert body.now ≡ Err fault) }
{
    let mut scratch = Scratch::new(alloc);
    revert_in(alloc, &object_of(alloc, body, &mut scratch)?)
}

/// The JSON object that a text is.
#[tactic(auto, unfolding(crate::specs::Reading::object_of, crate::specs::Reading::object_in))]
pub(crate) fn object_of<'a>(
    alloc: Global,
    text: &'a [u8],
    scratch: &'a mut Scratch,
) -> Result<Document<'a>, WireFault>
    ensures read { IfOk result (λ object. object_of text.now ≡ Ok (document_data object)) }
    ensures refused { IfErr result (λ fault. fault ≢ WireFault.Memory → object_of text.now ≡ Err fault) }
{
    if text.len() > MAX_COMMAND_BYTES {
        return Err(WireFault::TooLong);
    }
    match Document::read(alloc, text, scratch) {
        Ok(object) => {
            if object.is_object() {
                Ok(object)
            } else {
                Err(WireFault::BadJson)
            }
        }
        Err(Unread::Malformed) => Err(WireFault::BadJson),
        Err(Unread::Memory) => Err(WireFault::Memory),
    }
}

/// The command that a line's object asks for.
pub(crate) fn command_in(
    alloc: Global,
    verb: Verb,
    object: &Document<'_>,
) -> Result<Command, WireFault>
    ensures read { IfOk result (λ command. command_in verb (document_data object.now) ≡ Ok command) }
    ensures refused { IfErr result (λ fault. fault ≢ WireFault.Memory
        → command_in verb (document_data object.now) ≡ Err fault) }
{
    match verb {
        Verb::Open => open_in(alloc, object),
        Verb::Lease => lease_in(alloc, object),
        Verb::Report => report_line_in(object),
        Verb::Cancel => cancel_line_in(object),
        Verb::Revert => revert_in(alloc, object),
        Verb::Search => search_in(object),
        Verb::Farm => Ok(Command::ShowFarm),
        Verb::Orders => Ok(Command::ShowOrders),
        Verb::Runs => runs_in(object),
        Verb::List => list_in(object),
    }
}

#[tactic(auto, unfolding(crate::specs::Reading::open_in))]
fn open_in(alloc: Global, object: &Document<'_>) -> Result<Command, WireFault>
    ensures read { IfOk result (λ command. open_in (document_data object.now) ≡ Ok command) }
    ensures refused { IfErr result (λ fault. fault ≢ WireFault.Memory
        → open_in (document_data object.now) ≡ Err fault) }
{
    let key = key_in(object)?;
    let test = name_in(alloc, object, Field::Test)?;
    let base = base_in(object)?;
    let suspects = suspects_in(alloc, object)?;
    let calm = small_in(object, Field::Calm)?;
    let rate = fraction_in(object, Field::Rate)?;
    let miss = miss_in(object)?;
    let bar = fraction_in(object, Field::Bar)?;
    let width = small_in(object, Field::Width)?;
    let reruns = small_in(object, Field::Reruns)?;
    Ok(Command::Open(OpenAsk {
        key,
        test,
        base,
        suspects,
        calm,
        rate,
        miss,
        bar,
        width,
        reruns,
    }))
}

#[tactic(auto, unfolding(crate::specs::Reading::lease_in))]
fn lease_in(alloc: Global, object: &Document<'_>) -> Result<Command, WireFault>
    ensures read { IfOk result (λ command. lease_in (document_data object.now) ≡ Ok command) }
    ensures refused { IfErr result (λ fault. fault ≢ WireFault.Memory
        → lease_in (document_data object.now) ≡ Err fault) }
{
    let key = key_in(object)?;
    let worker = name_in(alloc, object, Field::Worker)?;
    Ok(Command::Lease { key, worker })
}

#[tactic(auto, unfolding(crate::specs::Reading::report_in))]
fn report_in(run: u32, object: &Document<'_>) -> Result<Command, WireFault>
    ensures { result ≡ report_in run (document_data object.now) }
{
    reported_in(run, object)
}

#[tactic(auto, unfolding(crate::specs::Reading::report_line_in))]
fn report_line_in(object: &Document<'_>) -> Result<Command, WireFault>
    ensures { result ≡ report_line_in (document_data object.now) }
{
    let run = ordinal_in(object, Field::Run)?;
    report_in(run, object)
}

#[tactic(auto, unfolding(crate::specs::Reading::cancel_in))]
fn cancel_in(search: u32, object: &Document<'_>) -> Result<Command, WireFault>
    ensures { result ≡ cancel_in search (document_data object.now) }
{
    let key = key_in(object)?;
    Ok(Command::Cancel { key, search })
}

#[tactic(auto, unfolding(crate::specs::Reading::cancel_line_in))]
fn cancel_line_in(object: &Document<'_>) -> Result<Command, WireFault>
    ensures { result ≡ cancel_line_in (document_data object.now) }
{
    let key = key_in(object)?;
    let search = ordinal_in(object, Field::Search)?;
    Ok(Command::Cancel { key, search })
}

#[tactic(auto, unfolding(crate::specs::Reading::revert_in))]
fn revert_in(alloc: Global, object: &Document<'_>) -> Result<Command, WireFault>
    ensures read { IfOk result (λ command. revert_in (document_data object.now) ≡ Ok command) }
    ensures refused { IfErr result (λ fault. fault ≢ WireFault.Memory
        → revert_in (document_data object.now) ≡ Err fault) }
{
    let key = key_in(object)?;
    let agent = name_in(alloc, object, Field::Agent)?;
    Ok(Command::TakeRevert { key, agent })
}

#[tactic(auto, unfolding(crate::specs::Reading::search_in))]
fn search_in(object: &Document<'_>) -> Result<Command, WireFault>
    ensures { result ≡ search_in (document_data object.now) }
{
    let search = ordinal_in(object, Field::Search)?;
    Ok(Command::ShowSearch { search })
}

#[tactic(auto, unfolding(crate::specs::Reading::runs_in))]
fn runs_in(object: &Document<'_>) -> Result<Command, WireFault>
    ensures { result ≡ runs_in (document_data object.now) }
{
    let search = ordinal_in(object, Field::Search)?;
    let from = ordinal_in(object, Field::From)?;
    Ok(Command::ShowRuns { search, from })
}

#[tactic(auto, unfolding(crate::specs::Reading::list_in))]
fn list_in(object: &Document<'_>) -> Result<Command, WireFault>
    ensures { result ≡ list_in (document_data object.now) }
{
    Ok(Command::ShowSearches {
        from: ordinal_in(object, Field::From)?,
    })
}
