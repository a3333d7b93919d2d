//! A request over a connection of its own.
ghost use Rattle.std.specs.Prelude.{◌≡◌, ◌≤◌, ℕ, List, IfOk, OnOk, IsErrOf, IfSome};
ghost use Rattle.std.specs.Io.KnownBytes.{append_known};
ghost use Rattle.common_types.specs.Counts.{Rose};
ghost use Rattle.link_io.specs.Links.{fresh_link, link_state};
ghost use Rattle.link_io.specs.Telling.{add_told};
ghost use Rattle.link_io.specs.Events.{returned};
ghost use Rattle.http_exchange.specs.Exchanges.{
  AnsweredBy,
  AskedOver,
  Exchange,
  IfAnswered,
  IsOutcome,
  Talk,
  exchange_events,
  talk_state,
  talked,
  tell_all,
};
ghost use Rattle.http_exchange.specs.Responses.{HasJustCome};

use crate::{NoResponse, Response, take_response};
use common_types::Memory;
use link_io::{Connected, Link, Network, Source, put_all};
use std::alloc::Global;

/// What a request came to.
#[derive(Drop)]
pub enum Exchanged {
    /// A whole response.
    Answered(Response),
    /// No connection was made, or it failed, and the network's count of faults rose.
    Failed,
    /// The request was put, and no whole response came of a connection that didn't fail.
    Broken,
}

/// Puts a request to a connection of its own, takes the response, and gives the connection back.
pub fn exchange<N: Network>(
    alloc: Global,
    network: &mut N,
    request: &[u8],
) -> Result<Exchanged, Memory>
    ensures told { (x : Exchange) × (N.told network.new ≡ tell_all (exchange_events x) (N.told network.old))
        × AnsweredBy request.now x result }
    ensures enough { IfOk result (λ came. IfAnswered came ((t : Talk)
        × (N.told network.new ≡ tell_all (exchange_events (talked t)) (N.told network.old)) × HasJustCome t.taken)) }
    ensures rises { IfOk result (λ came. came ≡ Exchanged.Failed → Rose (N.count network.old) (N.count network.new)) }
    ensures never_falls { N.count network.old ≤ N.count network.new }
{
    match network.connect() {
        Connected::Linked(link) => exchange_over(alloc, network, link, request),
        Connected::Failed => Ok(Exchanged::Failed),
    }
}

/// The exchange over a connection that was just made.
fn exchange_over<N: Network>(
    alloc: Global,
    network: &mut N,
    mut link: N::End,
    request: &[u8],
) -> Result<Exchanged, Memory>
    requires fresh { IfSome (N.told network.old) (λ _. link_state N.End.Source N.End.Sink link ≡ fresh_link) }
    requires unfailed { N.End.Source.count link ≡ 0 }
    ensures told { (t : Talk) × (N.told network.new ≡ add_told (returned (talk_state t)) (N.told network.old))
        × AnsweredBy request.now (talked t) result }
    ensures enough { IfOk result (λ came. IfAnswered came ((t : Talk)
        × (N.told network.new ≡ add_told (returned (talk_state t)) (N.told network.old)) × HasJustCome t.taken)) }
    ensures rises { IfOk result (λ came. came ≡ Exchanged.Failed → Rose (N.count network.old) (N.count network.new)) }
    ensures never_falls { N.count network.old ≤ N.count network.new }
{
    let answer = ask(alloc, &mut link, request);
    let faults = Source::faults(&link);
    network.done(link);
    outcome(answer, faults)
}

/// Puts a request to a connection and takes the response.
fn ask<L: Link>(alloc: Global, link: &mut L, request: &[u8]) -> Result<Response, NoResponse>
    ensures asked { (sent taken : List ℕ)
        × (L.Sink.written link.new ≡ append_known (L.Sink.written link.old) sent)
        × (L.Source.taken link.new ≡ append_known (L.Source.taken link.old) taken)
        × AskedOver request.now sent taken (L.Source.ended link.new) result }
    ensures enough { OnOk result ((sent taken : List ℕ)
        × (L.Sink.written link.new ≡ append_known (L.Sink.written link.old) sent)
        × (L.Source.taken link.new ≡ append_known (L.Source.taken link.old) taken)
        × HasJustCome taken) }
    ensures notes { (L.Sink.aside link.new).notes ≡ (L.Sink.aside link.old).notes }
    ensures rises { IsErrOf result NoResponse.Failed → Rose (L.Source.count link.old) (L.Source.count link.new) }
    ensures never_falls { L.Source.count link.old ≤ L.Source.count link.new }
{
    put_all(link, request)?;
    take_response(alloc, link)
}

/// What is answered for a response, or for none, where the connection failed so often.
fn outcome(answer: Result<Response, NoResponse>, faults: u64) -> Result<Exchanged, Memory>
    ensures { IsOutcome answer faults result }
{
    match answer {
        Err(NoResponse::Memory) => Err(Memory),
        _ if faults > 0 => Ok(Exchanged::Failed),
        Ok(response) => Ok(Exchanged::Answered(response)),
        Err(_) => Ok(Exchanged::Broken),
    }
}
