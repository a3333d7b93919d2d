//! The head of a connection that was read last.
ghost use Rattle.std.specs.Prelude.{◌≡◌, ◌≤◌, ◌<◌, ◌+◌, IfSome, length};
ghost use Rattle.http_requests.specs.Readings.{IsBodyAwaited};

use crate::looked::Looked;
use crate::request::Request;
use http_words::Fault;
use std::marker::Model;
use std::sync::ledger::Ledger;

/// How many bytes a head has at most that is kept. Most heads of a client have fewer.
const KEPT_BYTES: usize = 1_024;

/// The head that was read last, and what it became. Clients that ask again and again send the same head each time, which
/// is then known by its bytes, and isn't parsed anew. A connection keeps one.
#[derive(Drop)]
pub struct LastHead {
    bytes: [u8; KEPT_BYTES],
    /// How many of the bytes it has, 0 where none is kept.
    size: usize,
    request: Request,
}

impl Model for LastHead {
    ghost use Rattle.std.specs.Prelude.{ℕ, List, ◌≤◌, take};
    ghost use Rattle.http_requests.specs.LastHeads.{IsLast};
    ghost use Rattle.http_requests.specs.declared.last_head.TheConstants.{KEPT_BYTES};

    ghost Value = { List ℕ };

    ghost view = { λ l. take l.size l.bytes };

    ghost invariant = { λ l. (l.size ≤ KEPT_BYTES) × IsLast l.request (take l.size l.bytes) };
}

impl LastHead {
    /// None is kept.
    pub fn none() -> LastHead {
        LastHead {
            bytes: [0; KEPT_BYTES],
            size: 0,
            request: Request::refused(false, false, Fault::BadRequest),
        }
    }

    /// What this head becomes, where it is the same as the one that is kept.
    pub(crate) fn request_of<L: Ledger>(
        &self,
        head: &[u8],
        looked: &mut Looked<L>,
    ) -> Option<Request>
        requires some { 0 < length head.now }
        ensures is { IfSome result (λ request. IsBodyAwaited request head.now) }
        ensures few { looked.new ≤ looked.old + length head.now }
        ensures rises { looked.old ≤ looked.new }
    {
        if head.len() != self.size {
            return None;
        }
        looked.add(head.len());
        if head == &self.bytes[..self.size] {
            Some(self.request)
        } else {
            None
        }
    }

    /// Keeps a head and what it becomes, unless it is a long one.
    pub(crate) fn keep(&mut self, head: &[u8], request: &Request)
        requires { IsBodyAwaited request.now head.now }
    {
        let size = head.len();
        if size <= KEPT_BYTES {
            self.bytes[..size].copy_from_slice(head);
            self.size = size;
            self.request = *request;
        }
    }
}
