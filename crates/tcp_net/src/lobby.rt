//! What the network shares with its links.

use crate::enough::Enough;
use crate::ready::{Side, wait_for};
use crate::waiting::{Speaker, Stage, Waiting};
use mio::Registry;
use mio::net::TcpStream;
use std::hint::spin_loop;
use std::os::fd::{AsRawFd, RawFd};
use std::sync::atomic::{AtomicBool, Ordering};
use std::sync::{Mutex, MutexGuard};
use std::thread::yield_now;

/// How often a thread that finds the table taken looks again before it gives up its processor in between.
const LOOKS: u64 = 64;

/// The lobby: the set of the system's, the table of those who wait, and whether somebody accepts or is about to.
///
/// The lock round the table is held for a few calls of the system that don't wait, and is tried again and again where
/// it is taken. So neither a link nor the network needs the handle `Wait`, which library code with a `HostRuntime`
/// lacks.
#[derive(Drop)]
pub(crate) struct Lobby {
    registry: Registry,
    waiting: Mutex<Waiting>,
    accepting: AtomicBool,
    closed: AtomicBool,
}

impl Lobby {
    pub(crate) fn new(registry: Registry, waiting: Waiting) -> Lobby {
        Lobby {
            registry,
            waiting: Mutex::new(waiting),
            accepting: AtomicBool::new(false),
            closed: AtomicBool::new(false),
        }
    }

    /// The descriptor that can be read while something in the set is ready.
    pub(crate) fn set(&self) -> RawFd {
        self.registry.as_raw_fd()
    }

    /// Whether nobody accepts, and nobody is about to.
    pub(crate) fn is_unattended(&self) -> bool {
        !self.accepting.load(Ordering::SeqCst)
    }

    /// Whether something in the set is ready, and nobody accepts.
    pub(crate) fn is_wanted(&self) -> bool {
        self.is_unattended() && wait_for(self.set(), Side::Read, 0)
    }

    /// Whether the caller is the one that goes to accept, where several would.
    pub(crate) fn claim(&self) -> bool {
        !self.accepting.swap(true, Ordering::SeqCst)
    }

    /// Whether no accept follows.
    pub(crate) fn is_closed(&self) -> bool {
        self.closed.load(Ordering::SeqCst)
    }

    pub(crate) fn begin_accept(&self) {
        self.accepting.store(true, Ordering::SeqCst);
    }

    pub(crate) fn end_accept(&self) {
        self.accepting.store(false, Ordering::SeqCst);
    }

    // The table, or none where it is never free.
    fn waiting(&self) -> Option<MutexGuard<'_, Waiting>> {
        for looks in 0..u64::MAX {
            if let Some(waiting) = self.waiting.try_lock() {
                return Some(waiting);
            }
            if looks < LOOKS {
                spin_loop();
            } else {
                yield_now();
            }
        }
        None
    }

    /// Lets a connection in.
    pub(crate) fn let_in(&self, stream: TcpStream, stage: Stage, now: u64) {
        if let Some(mut waiting) = self.waiting() {
            waiting.let_in(&self.registry, stream, stage, now);
        }
    }

    /// Looks at the connection of a key, and takes it out if a handler is to have it, or it is over.
    pub(crate) fn look<E: Enough>(
        &self,
        enough: &E,
        key: usize,
        ended: bool,
        now: u64,
    ) -> Option<Speaker> {
        self.waiting()?
            .look(&self.registry, enough, key, ended, now)
    }

    /// Closes the one that has waited longest, where it waits since a moment or longer, and so has its descriptor to
    /// spare. Answers whether there was one.
    pub(crate) fn drop_oldest(&self, by: u64) -> bool {
        match self.waiting() {
            Some(mut waiting) => waiting.drop_oldest(by),
            None => false,
        }
    }

    /// Closes those that have waited too long, from a key on. Answers from where to go on, where that wasn't all.
    pub(crate) fn sweep<E: Enough>(&self, enough: &E, from: usize, now: u64) -> Option<usize> {
        self.waiting()?.sweep(enough, from, now)
    }

    /// Closes all, and lets none in any more.
    pub(crate) fn close(&self) {
        self.closed.store(true, Ordering::SeqCst);
        if let Some(mut waiting) = self.waiting() {
            waiting.close();
        }
    }
}
