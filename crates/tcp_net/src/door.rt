//! Where connections are let in.

use crate::enough::Enough;
use crate::limits::{LET_IN, Limits, PAUSE_MS, READ_MS, SWEEP_MS, WRITE_MS};
use crate::lobby::Lobby;
use crate::ready::now_ms;
use crate::waiting::{Speaker, Stage, Waiting};
use libc::EMFILE;
use mio::net::{TcpListener, TcpStream};
use mio::{Events, Interest, Poll, Token};
use std::alloc::Global;
use std::io::ErrorKind;
use std::net::{Net, ToSocketAddrs};
use std::os::fd::OwnedFd;
use std::rt::Clock;
use std::sync::Arc;
use std::time::Duration;
use std::{io, net};

/// The token of the listener in the set. No key of the table is as large.
const LISTENER: usize = usize::MAX;

/// What is ready in the set: a token, and whether no more comes from there.
#[derive(Clone, Copy)]
struct Ready {
    token: usize,
    ended: bool,
}

/// The listener, and the set in which it and all who wait in the lobby are watched.
#[derive(Drop)]
pub(crate) struct Door {
    poll: Poll,
    // It has room for one event: what else is ready stays with the system, where links see it.
    events: Events,
    listener: TcpListener,
    lobby: Arc<Lobby>,
    // When those who have waited too long are looked for, and from which key on; and when the listener is asked again,
    // where it is left alone.
    sweep_at: u64,
    sweep_from: usize,
    listen_at: Option<u64>,
}

impl Door {
    /// Listens at an address, with an empty lobby.
    pub(crate) fn open<R: Net>(
        alloc: Global,
        rt: &R,
        address: &str,
        limits: Limits,
    ) -> io::Result<Door> {
        let poll = Poll::new(rt)?;
        let mut listener = bind(rt, address)?;
        poll.registry()
            .register(&mut listener, Token(LISTENER), Interest::READABLE)?;
        let waiting = Waiting::new(alloc, limits)?;
        let lobby = Lobby::new(poll.registry().try_clone()?, waiting);
        Ok(Door {
            poll,
            events: Events::with_capacity(alloc, 1)?,
            listener,
            lobby: Arc::new(alloc, lobby)?,
            sweep_at: 0,
            sweep_from: 0,
            listen_at: None,
        })
    }

    /// What it shares with its links, or none where no more can share it.
    pub(crate) fn lobby(&self) -> Option<Arc<Lobby>> {
        self.lobby.clone().ok()
    }

    /// Closes all who wait.
    pub(crate) fn close(&self) {
        self.lobby.close();
    }

    /// Waits until somebody has sent enough, or the system fails.
    pub(crate) fn next<R: Clock, E: Enough>(&mut self, rt: &R, enough: &E) -> Option<Speaker> {
        self.lobby.begin_accept();
        let speaker = self.wait(rt, enough);
        self.lobby.end_accept();
        speaker
    }

    fn wait<R: Clock, E: Enough>(&mut self, rt: &R, enough: &E) -> Option<Speaker> {
        for _ in 0..u64::MAX {
            self.keep_time(enough, now_ms(rt));
            let may_wait = Duration::from_millis(self.may_wait_ms());
            let waited = self.poll.poll(&mut self.events, Some(may_wait));
            if waited.is_err() {
                rt.sleep(Duration::from_millis(PAUSE_MS));
                return None;
            }
            let now = now_ms(rt);
            let Some(ready) = self.ready() else {
                continue;
            };
            if ready.token == LISTENER {
                self.let_in(now);
                continue;
            }
            let speaker = self.lobby.look(enough, ready.token, ready.ended, now);
            if speaker.is_some() {
                return speaker;
            }
        }
        None
    }

    /// How long the next wait may last: not at all where more are late than were looked at.
    fn may_wait_ms(&self) -> u64 {
        match self.listen_at {
            _ if self.sweep_from > 0 => 0,
            Some(_) => PAUSE_MS,
            None => SWEEP_MS,
        }
    }

    /// What the last wait found.
    fn ready(&self) -> Option<Ready> {
        let mut found = None;
        for event in self.events.iter() {
            found = Some(Ready {
                token: event.token().0,
                ended: event.is_read_closed() || event.is_error(),
            });
        }
        found
    }

    /// Closes those who have waited too long, a few at a time, and asks the listener again after a pause.
    fn keep_time<E: Enough>(&mut self, enough: &E, now: u64) {
        if now >= self.sweep_at {
            match self.lobby.sweep(enough, self.sweep_from, now) {
                Some(key) => self.sweep_from = key,
                None => {
                    self.sweep_from = 0;
                    self.sweep_at = now.saturating_add(SWEEP_MS);
                }
            }
        }
        if let Some(at) = self.listen_at {
            if now >= at {
                self.listen_at = None;
                self.ask_again();
            }
        }
    }

    /// Lets connections in, up to so many. Where no descriptor is left, the one that has waited longest is closed, if it
    /// had a while to say something. Where there is none, or an accept fails for another reason, the listener is left
    /// alone as long.
    fn let_in(&mut self, now: u64) {
        let by = now.saturating_sub(PAUSE_MS);
        for _ in 0..LET_IN {
            match self.listener.accept() {
                Ok((stream, _)) => {
                    if let Ok(stream) = set_up(stream) {
                        self.lobby.let_in(stream, Stage::New, now);
                    }
                }
                Err(e) => match e.kind() {
                    ErrorKind::WouldBlock => return,
                    ErrorKind::Interrupted | ErrorKind::ConnectionAborted => {}
                    _ if e.raw_os_error() == Some(EMFILE) && self.lobby.drop_oldest(by) => {}
                    _ => {
                        self.listen_at = Some(now.saturating_add(PAUSE_MS));
                        return;
                    }
                },
            }
        }
        self.ask_again();
    }

    /// Has the set tell of the listener again where more connections wait at it.
    fn ask_again(&mut self) {
        let asked = self
            .poll
            .registry()
            .reregister(&mut self.listener, Token(LISTENER), Interest::READABLE);
        if asked.is_err() {
            self.listen_at = Some(0);
        }
    }
}

/// Listens at the first of an address's addresses that can be listened at.
fn bind<R: Net>(rt: &R, address: &str) -> io::Result<TcpListener> {
    let mut last = io::Error::from(io::ErrorKind::AddrNotAvailable);
    for at in address.to_socket_addrs(rt)? {
        match TcpListener::bind(rt, at) {
            Ok(listener) => return Ok(listener),
            Err(e) => last = e,
        }
    }
    Err(last)
}

/// A connection that was let in, whose reads and writes wait for a moment: the next request of a busy peer is then one
/// call of the system.
fn set_up(stream: TcpStream) -> io::Result<TcpStream> {
    let stream = net::TcpStream::from(OwnedFd::from(stream));
    stream.set_nonblocking(false)?;
    stream.set_nodelay(true)?;
    stream.set_read_timeout(Some(Duration::from_millis(READ_MS)))?;
    stream.set_write_timeout(Some(Duration::from_millis(WRITE_MS)))?;
    Ok(TcpStream::from_std(stream))
}
