//! The bytes that were taken of a source, behind the interim responses among them.
ghost use Rattle.std.specs.Prelude.{◌≡◌, ◌≤◌, ◌<◌, ◌+◌, ◌++◌, ◌⊎◌, ℕ, List, [], true, false, IfOk, IfErr, OnOk, OnErr, IsErrOf, length, drop, slice_range};
ghost use Rattle.std.specs.Io.KnownBytes.{append_known};
ghost use Rattle.common_types.specs.Counts.{Rose};
ghost use Rattle.link_io.specs.declared.source.TheConstants.{INPUT_LIMIT, PIECE};
ghost use Rattle.http_exchange.specs.Received.{IsTaken, Takes, TakesUntil, nothing_received};

use crate::{Body, NoResponse, Response};
use link_io::{INPUT_LIMIT, PIECE, Source, take_piece};
use std::alloc::Global;
use std::marker::Model;

/// The bytes held, and how many were taken in all, which is at most [`INPUT_LIMIT`].
#[derive(Drop)]
pub(crate) struct Received {
    bytes: Vec<u8>,
    taken: usize,
}

impl Model for Received {
    ghost use Rattle.std.specs.Prelude.{◌≤◌};
    ghost use Rattle.link_io.specs.declared.source.TheConstants.{INPUT_LIMIT};
    ghost use Rattle.http_exchange.specs.Received.{ReceivedBytes};

    ghost Value = { ReceivedBytes };

    ghost view = { λ r. record { held = r.bytes.items; taken = r.taken } };

    ghost invariant = { λ r. r.taken ≤ INPUT_LIMIT };
}

impl Received {
    /// Nothing was taken yet.
    pub(crate) fn new(alloc: Global) -> Received
        ensures { result ≡ nothing_received }
    {
        Received {
            bytes: Vec::new(alloc),
            taken: 0,
        }
    }

    /// The bytes held.
    pub(crate) fn held(&self) -> &[u8]
        ensures held { result.now ≡ self.now.held }
        ensures few { self.now.taken ≤ INPUT_LIMIT }
    {
        let _taken = &self.taken;
        &self.bytes
    }

    /// Lets the first bytes go.
    pub(crate) fn pass_over(&mut self, size: usize)
        requires { size ≤ length self.old.held }
        ensures { self.new ≡ record self.old { held = drop size self.old.held } }
    {
        let _ = self.bytes.drain(..size);
    }

    /// The response that was found in the bytes held.
    pub(crate) fn response(
        &self,
        alloc: Global,
        found: crate::progress::Response,
    ) -> Result<Response, NoResponse>
        requires order { found.body ≤ found.end }
        requires within { found.end ≤ length self.now.held }
        ensures status { IfOk result (λ response. response.status ≡ found.status) }
        ensures body { IfOk result (λ response. response.body ≡ slice_range self.now.held found.body found.end) }
        ensures short { IfErr result (λ none. none ≡ NoResponse.Memory) }
    {
        let body = Vec::from_slice(alloc, &self.bytes[found.body..found.end])?;
        Ok(Response {
            status: found.status,
            body: Body::of(body),
        })
    }

    /// Takes a piece more. Answers whether any byte came: none does exactly at the end.
    fn take<S: Source>(&mut self, link: &mut S) -> Result<bool, NoResponse>
        requires { self.old.taken < INPUT_LIMIT }
        ensures takes { (piece : List ℕ) × (S.taken link.new ≡ append_known (S.taken link.old) piece)
            × Takes self.old self.new piece (S.ended link.new) result }
        ensures few { OnOk result (length self.new.held ≤ length self.old.held + PIECE) }
        ensures aside { S.aside link.new ≡ S.aside link.old }
        ensures rises { IsErrOf result NoResponse.Failed → Rose (S.count link.old) (S.count link.new) }
        ensures never_falls { S.count link.old ≤ S.count link.new }
    {
        let mut buf = [0; PIECE];
        let room = PIECE.min(INPUT_LIMIT - self.taken);
        let piece = match take_piece(link, &mut buf[..room]) {
            Ok(piece) => piece,
            Err(_) => return Err(NoResponse::Failed),
        };
        if self.bytes.extend_from_slice(piece).is_err() {
            return Err(NoResponse::Memory);
        }
        self.taken += piece.len();
        Ok(!piece.is_empty())
    }

    /// Takes more until so many bytes are held. Answers whether they are: fewer are where the input ended first, or as
    /// many were taken as are taken at most.
    pub(crate) fn take_until<S: Source>(
        &mut self,
        link: &mut S,
        size: usize,
    ) -> Result<bool, NoResponse>
        ensures takes { (piece : List ℕ) × (S.taken link.new ≡ append_known (S.taken link.old) piece)
            × TakesUntil size self.old self.new piece (S.ended link.new) result }
        ensures few { OnOk result (length self.old.held < size → length self.new.held < size + PIECE) }
        ensures aside { S.aside link.new ≡ S.aside link.old }
        ensures rises { IsErrOf result NoResponse.Failed → Rose (S.count link.old) (S.count link.new) }
        ensures never_falls { S.count link.old ≤ S.count link.new }
    {
        while self.held().len() < size {
            if self.taken == INPUT_LIMIT {
                return Ok(false);
            }
            if !self.take(link)? {
                return Ok(false);
            }
        }
        Ok(true)
    }
}
