//! The table of the connections that wait in the lobby.

use crate::enough::Enough;
use crate::limits::{LINGER_MS, LOOK, Limits, SWEPT};
use crate::moving::{Left, drain, is_readable};
use mio::net::TcpStream;
use mio::{Interest, Registry, Token};
use slab::Slab;
use std::alloc::{AllocError, Global};
use std::io::ErrorKind;

/// A connection that waits.
#[derive(Drop)]
struct Waiter {
    stream: TcpStream,
    /// Since when it waits.
    since: u64,
    /// Since when it has sent a byte that nobody took, where it has.
    begun: Option<u64>,
    stage: Stage,
}

/// How far a connection is that waits.
#[derive(Clone, Copy, Drop)]
pub(crate) enum Stage {
    /// No handler has had it yet.
    New,
    /// It came back from a handler, between two requests.
    Between,
    /// Nothing more will be put to it, and it only waits until its peer has ended too.
    Over,
}

/// A connection that has sent enough, and when the first byte of it was seen.
#[derive(Drop)]
pub(crate) struct Speaker {
    pub(crate) stream: TcpStream,
    pub(crate) begun: u64,
}

/// What a look at a connection that waits finds.
#[derive(Clone, Copy)]
enum Look {
    /// A handler is to have it: it has sent enough, or its input has ended before any handler had it.
    Enough,
    /// It has sent something.
    Some,
    /// There is nothing to read yet.
    Nothing,
    /// Nothing more will be put to it, and there may be more to read at once.
    More,
    /// It is over.
    Over,
}

/// The connections that wait, each under a key, which is its token in the set of the system's. All room is made at the
/// beginning.
#[derive(Drop)]
pub(crate) struct Waiting {
    waiters: Slab<Waiter>,
    limits: Limits,
    closed: bool,
}

impl Waiting {
    pub(crate) fn new(alloc: Global, limits: Limits) -> Result<Waiting, AllocError> {
        Ok(Waiting {
            waiters: Slab::with_capacity(alloc, limits.waiting)?,
            limits,
            closed: false,
        })
    }

    /// Lets a connection in. Where there is no room, the one that has waited longest is closed.
    /// Where no more are let in, or the system refuses, the connection itself is closed.
    pub(crate) fn let_in(
        &mut self,
        registry: &Registry,
        stream: TcpStream,
        stage: Stage,
        now: u64,
    ) {
        if self.closed || self.limits.waiting == 0 {
            return;
        }
        if self.waiters.len() >= self.limits.waiting {
            self.drop_oldest(now);
        }
        let waiter = Waiter {
            stream,
            since: now,
            begun: None,
            stage,
        };
        let Ok(key) = self.waiters.insert(waiter) else {
            return;
        };
        let registered = match self.waiters.get_mut(key) {
            Some(waiter) => registry
                .register(&mut waiter.stream, Token(key), Interest::READABLE)
                .is_ok(),
            None => false,
        };
        if !registered {
            self.waiters.try_remove(key);
        }
    }

    /// Closes the one that has waited longest, where it waits since a moment or longer. Answers whether there was one.
    pub(crate) fn drop_oldest(&mut self, by: u64) -> bool {
        let mut oldest = None;
        let mut since = by;
        for (key, waiter) in self.waiters.iter() {
            if waiter.since <= since {
                since = waiter.since;
                oldest = Some(key);
            }
        }
        match oldest {
            Some(key) => self.waiters.try_remove(key).is_some(),
            None => false,
        }
    }

    /// Looks at the connection of a key, where one waits there, and takes it out if a handler is to have it, or it is
    /// over.
    pub(crate) fn look<E: Enough>(
        &mut self,
        registry: &Registry,
        enough: &E,
        key: usize,
        ended: bool,
        now: u64,
    ) -> Option<Speaker> {
        let limits = self.limits;
        let waiter = self.waiters.get_mut(key)?;
        match look_at(enough, waiter, ended) {
            Look::Nothing => None,
            Look::Some => {
                if waiter.begun.is_none() {
                    waiter.begun = Some(now);
                }
                None
            }
            Look::More if !is_late(waiter, limits, now) && ask_again(registry, waiter, key) => None,
            Look::More | Look::Over => {
                self.waiters.try_remove(key);
                None
            }
            Look::Enough => self.take_out(registry, key, now),
        }
    }

    /// Takes the connection of a key out of the table and the set.
    fn take_out(&mut self, registry: &Registry, key: usize, now: u64) -> Option<Speaker> {
        let waiter = self.waiters.try_remove(key)?;
        let mut stream = waiter.stream;
        // One that can't be taken out of the set would be looked for under a key that is another's by then.
        if registry.deregister(&mut stream).is_err() {
            return None;
        }
        Some(Speaker {
            stream,
            begun: waiter.begun.unwrap_or(now),
        })
    }

    /// Closes those that have waited too long, from a key on. One that a handler is to have stays, as nobody may have
    /// looked at it yet. After a few it answers from which key to go on.
    pub(crate) fn sweep<E: Enough>(&mut self, enough: &E, from: usize, now: u64) -> Option<usize> {
        let mut left = SWEPT;
        for key in from..self.limits.waiting {
            if left == 0 {
                return Some(key);
            }
            if self.is_late_at(key, now) {
                left = left.saturating_sub(1);
                self.close_late(enough, key);
            }
        }
        None
    }

    /// Whether the connection of a key has waited too long, where one waits there.
    fn is_late_at(&self, key: usize, now: u64) -> bool {
        match self.waiters.get(key) {
            Some(waiter) => is_late(waiter, self.limits, now),
            None => false,
        }
    }

    /// Closes the connection of a key, which has waited too long, unless a handler is to have it.
    fn close_late<E: Enough>(&mut self, enough: &E, key: usize) {
        let stays = match self.waiters.get(key) {
            Some(waiter) => look_at(enough, waiter, false) == Look::Enough,
            None => false,
        };
        if !stays {
            self.waiters.try_remove(key);
        }
    }

    /// Closes all, and lets none in any more.
    pub(crate) fn close(&mut self) {
        self.closed = true;
        self.waiters.clear();
    }
}

/// Whether a connection has waited too long.
fn is_late(waiter: &Waiter, limits: Limits, now: u64) -> bool {
    let waited = now.saturating_sub(waiter.since);
    if waiter.stage == Stage::Over {
        return waited >= LINGER_MS;
    }
    match waiter.begun {
        Some(begun) => now.saturating_sub(begun) >= limits.request_ms,
        None => waited >= limits.idle_ms,
    }
}

/// Has the set tell of a connection again, where there is more to read.
fn ask_again(registry: &Registry, waiter: &mut Waiter, key: usize) -> bool {
    registry
        .reregister(&mut waiter.stream, Token(key), Interest::READABLE)
        .is_ok()
}

/// Looks at what a connection has sent, and leaves it there. What comes to one that is over is read and forgotten. It
/// never waits.
fn look_at<E: Enough>(enough: &E, waiter: &Waiter, ended: bool) -> Look {
    if waiter.stage == Stage::Over {
        return match drain(&waiter.stream) {
            Left::More => Look::More,
            Left::Nothing => Look::Nothing,
            Left::Ended => Look::Over,
        };
    }
    if !is_readable(&waiter.stream) {
        return Look::Nothing;
    }
    let mut seen = [0; LOOK];
    match waiter.stream.peek(&mut seen) {
        Ok(0) if waiter.stage == Stage::New => Look::Enough,
        Ok(0) => Look::Over,
        Ok(count) => {
            if count == LOOK || enough.is_enough(&seen[..count], ended) {
                Look::Enough
            } else {
                Look::Some
            }
        }
        Err(e) => match e.kind() {
            ErrorKind::WouldBlock | ErrorKind::Interrupted => Look::Nothing,
            _ => Look::Over,
        },
    }
}
