//! The link.
ghost use Rattle.std.specs.Prelude.{◌≡◌, ◌≢◌, ◌<◌, ◌≤◌, [], None, false, length, refl, IfOk, IfSome};
ghost use Rattle.common_types.specs.Counts.{Rose};
ghost use Rattle.link_io.specs.Notes.{no_output};
ghost use Rattle.link_io.specs.Took.{IfTook, OnTookFailed, is_end};
ghost use Rattle.link_io.specs.Put.{IfPut, OnPutFailed};
ghost use Rattle.tcp_net.specs.Tcp.{link_ended, link_faults};

use crate::limits::{LINGER_MS, LOOK_MS, Limits, QUIET_MS, REST_MS, SHARE_MS};
use crate::lobby::Lobby;
use crate::moving::{Left, Unmoved, drain, read_now, write_now};
use crate::ready::{Side, now_ms, wait_for, wait_for_either};
use crate::waiting::{Speaker, Stage};
use common_types::Passed;
use link_io::{Link, Put, Sink, Source, Took};
use mio::net::TcpStream;
use std::net::Shutdown;
use std::os::fd::{AsRawFd, RawFd};
use std::rt::Clock;
use std::sync::Arc;

/// One end of a connection. It tells nothing of its bytes.
///
/// A call that was interrupted is made again. Any other error is a failed take or put, also where a request, an answer
/// or an exchange lasts too long.
#[derive(Drop)]
pub struct TcpLink<R: Clock + Drop> {
    rt: R,
    origin: Origin,
    // None once the connection is back in the lobby, or over.
    stream: Option<TcpStream>,
    limits: Limits,
    // Whether nothing is held of what was taken.
    idle: bool,
    // Whether it has come with a byte to read.
    speaks: bool,
    // Since when the request is waited for, and since when the answer, where either was.
    asked_since: Option<u64>,
    answered_since: Option<u64>,
    // Since when it is served in a row, and when it looks next whether others wait.
    served_since: u64,
    look_at: u64,
    ended: bool,
    faults: u64,
}

/// Where a connection comes from.
#[derive(Drop)]
enum Origin {
    /// It was made from here, and lasts until a moment.
    Here(u64),
    /// Somebody else has made it.
    Lobby(Arc<Lobby>),
}

/// Why a link that is idle ends its wait.
#[derive(Clone, Copy)]
enum Pause {
    /// There is something to read, or the connection is over.
    Speaks,
    /// It said nothing for too long.
    Silent,
    /// Others want its handler, or it was quiet for a while.
    Leaves,
}

impl<R: Clock + Drop> TcpLink<R> {
    /// A link over a connection that was made from here, whose reads and writes don't wait, until a moment.
    pub(crate) fn made(rt: R, stream: TcpStream, limits: Limits, until: u64) -> TcpLink<R>
        ensures ended { link_ended result ≡ false }
        ensures faults { link_faults result ≡ 0 }
    {
        TcpLink {
            rt,
            origin: Origin::Here(until),
            stream: Some(stream),
            limits,
            idle: false,
            speaks: false,
            asked_since: None,
            answered_since: None,
            served_since: 0,
            look_at: 0,
            ended: false,
            faults: 0,
        }
    }

    /// A link over a connection that has waited in a lobby, and that has sent something.
    pub(crate) fn accepted(rt: R, lobby: Arc<Lobby>, speaker: Speaker, limits: Limits) -> TcpLink<R>
        ensures ended { link_ended result ≡ false }
        ensures faults { link_faults result ≡ 0 }
    {
        let now = now_ms(&rt);
        TcpLink {
            rt,
            origin: Origin::Lobby(lobby),
            stream: Some(speaker.stream),
            limits,
            idle: false,
            speaks: true,
            asked_since: Some(speaker.begun),
            answered_since: None,
            served_since: now,
            look_at: 0,
            ended: false,
            faults: 0,
        }
    }

    // The next bytes, none at the end of the input or where the connection went back to the lobby, or `None` where a
    // read failed.
    fn next(&mut self, buf: &mut [u8]) -> Option<usize>
        ensures within { IfSome result (λ n. n ≤ length buf.old) }
        ensures faults { link_faults self.new ≡ link_faults self.old }
    {
        let slow = self.answered_since.is_some();
        self.answered_since = None;
        let idle = self.idle;
        self.idle = false;
        let speaks = self.speaks;
        self.speaks = false;
        if idle && !speaks {
            return self.next_request(buf, slow);
        }
        if !self.is_in_time() {
            return None;
        }
        self.read(buf)
    }

    // The first bytes of the next request, or what `next` says. One that comes at once is read by one call of the system,
    // unless it is time to look whether others wait.
    fn next_request(&mut self, buf: &mut [u8], slow: bool) -> Option<usize>
        ensures within { IfSome result (λ n. n ≤ length buf.old) }
        ensures faults { link_faults self.new ≡ link_faults self.old }
    {
        self.asked_since = None;
        let now = now_ms(&self.rt);
        if !slow && now < self.look_at {
            match self.read_once(buf) {
                Ok(count) => return Some(count),
                Err(Unmoved::Broken) => return None,
                Err(Unmoved::Nothing) => {}
            }
        }
        let may_stay = !slow && now.saturating_sub(self.served_since) < SHARE_MS;
        match self.pause(may_stay) {
            Pause::Speaks => {
                self.note_spoken(now);
                self.read(buf)
            }
            Pause::Silent => Some(0),
            Pause::Leaves => {
                self.leave();
                Some(0)
            }
        }
    }

    // It spoke after a pause that began at a moment. One that was silent for a while isn't served in a row.
    fn note_spoken(&mut self, paused_at: u64)
        ensures ended { link_ended self.new ≡ link_ended self.old }
        ensures faults { link_faults self.new ≡ link_faults self.old }
    {
        let now = now_ms(&self.rt);
        if now > paused_at {
            self.served_since = now;
        }
        self.look_at = now.saturating_add(LOOK_MS);
    }

    // Waits for the connection, and for those who want the handler.
    fn pause(&self, may_stay: bool) -> Pause {
        let Some(stream) = &self.stream else {
            return Pause::Speaks;
        };
        let own = stream.as_raw_fd();
        let Origin::Lobby(lobby) = &self.origin else {
            return wait_alone(own, self.limits.last_idle_ms);
        };
        let until = now_ms(&self.rt).saturating_add(QUIET_MS);
        for _ in 0..QUIET_MS {
            if lobby.is_closed() {
                return wait_alone(own, self.limits.last_idle_ms);
            }
            let left = until.saturating_sub(now_ms(&self.rt));
            if left == 0 {
                return Pause::Leaves;
            }
            if !lobby.is_unattended() {
                if wait_for(own, Side::Read, left.min(LOOK_MS)) {
                    return Pause::Speaks;
                }
                continue;
            }
            let seen = wait_for_either(own, lobby.set(), left);
            if seen.first && (may_stay || !seen.second) {
                return Pause::Speaks;
            }
            if seen.second && lobby.claim() {
                return Pause::Leaves;
            }
            if seen.first {
                return Pause::Speaks;
            }
        }
        Pause::Leaves
    }

    // Goes back to the lobby.
    fn leave(&mut self)
        ensures ended { link_ended self.new ≡ link_ended self.old }
        ensures faults { link_faults self.new ≡ link_faults self.old }
    {
        if let Some(stream) = self.stream.take() {
            let now = now_ms(&self.rt);
            if let Origin::Lobby(lobby) = &self.origin {
                lobby.let_in(stream, Stage::Between, now);
            }
        }
    }

    // Until when the request may be waited for, which begins now where it hasn't begun.
    fn read_until(&mut self, now: u64) -> u64
        ensures ended { link_ended self.new ≡ link_ended self.old }
        ensures faults { link_faults self.new ≡ link_faults self.old }
    {
        let since = self.asked_since.unwrap_or(now);
        self.asked_since = Some(since);
        match &self.origin {
            Origin::Here(until) => *until,
            Origin::Lobby(_) => since.saturating_add(self.limits.request_ms),
        }
    }

    // Whether the request doesn't last too long, nor the connection holds its handler for as long without a gap between
    // two requests while others wait. A request that comes in pieces is asked at each of them, however fast they come.
    fn is_in_time(&mut self) -> bool
        ensures ended { link_ended self.new ≡ link_ended self.old }
        ensures faults { link_faults self.new ≡ link_faults self.old }
    {
        let now = now_ms(&self.rt);
        let until = self.read_until(now);
        if now >= until {
            return false;
        }
        match &self.origin {
            Origin::Here(_) => true,
            Origin::Lobby(lobby) => {
                let held_ms = now.saturating_sub(self.served_since);
                held_ms < self.limits.request_ms || lobby.is_closed() || !lobby.is_wanted()
            }
        }
    }

    // Waits until there is something to read, or the request has lasted too long.
    fn wait_to_read(&mut self) -> bool
        ensures ended { link_ended self.new ≡ link_ended self.old }
        ensures faults { link_faults self.new ≡ link_faults self.old }
    {
        for _ in 0..u64::MAX {
            if !self.is_in_time() {
                return false;
            }
            let now = now_ms(&self.rt);
            let left = self.read_until(now).saturating_sub(now);
            let Some(stream) = &self.stream else {
                return true;
            };
            if wait_for(stream.as_raw_fd(), Side::Read, left.min(REST_MS)) {
                return true;
            }
        }
        false
    }

    // One read.
    fn read_once(&self, buf: &mut [u8]) -> Result<usize, Unmoved>
        ensures within { IfOk result (λ n. n ≤ length buf.old) }
    {
        match &self.stream {
            Some(stream) => read_now(stream, buf),
            None => Ok(0),
        }
    }

    // Reads as soon as there is something. `None` where that failed.
    fn read(&mut self, buf: &mut [u8]) -> Option<usize>
        ensures within { IfSome result (λ n. n ≤ length buf.old) }
        ensures faults { link_faults self.new ≡ link_faults self.old }
    {
        for _ in 0..u64::MAX {
            match self.read_once(buf) {
                Ok(count) => return Some(count),
                Err(Unmoved::Broken) => return None,
                Err(Unmoved::Nothing) => {
                    if !self.wait_to_read() {
                        return None;
                    }
                }
            }
        }
        None
    }

    // One write.
    fn write_once(&self, bytes: &[u8]) -> Result<usize, Unmoved>
        ensures within { IfOk result (λ n. n ≤ length bytes.now) }
    {
        match &self.stream {
            Some(stream) => write_now(stream, bytes),
            None => Err(Unmoved::Broken),
        }
    }

    // Writes as soon as there is room. `None` where that failed, or took no byte. An answer that isn't taken at once has a
    // limit from then on.
    fn write(&mut self, bytes: &[u8]) -> Option<usize>
        ensures within { IfSome result (λ n. n ≤ length bytes.now) }
        ensures some { IfSome result (λ n. 0 < n) }
        ensures ended { link_ended self.new ≡ link_ended self.old }
        ensures faults { link_faults self.new ≡ link_faults self.old }
    {
        // A put ends a request.
        self.asked_since = None;
        if self.answered_since.is_some() && !self.wait_to_write() {
            return None;
        }
        for _ in 0..u64::MAX {
            match self.write_once(bytes) {
                Ok(0) | Err(Unmoved::Broken) => return None,
                Ok(count) => {
                    if count < bytes.len() && self.answered_since.is_none() {
                        self.answered_since = Some(now_ms(&self.rt));
                    }
                    return Some(count);
                }
                Err(Unmoved::Nothing) => {
                    if !self.wait_to_write() {
                        return None;
                    }
                }
            }
        }
        None
    }

    // Waits until there is room to write, or the answer has lasted too long.
    fn wait_to_write(&mut self) -> bool
        ensures ended { link_ended self.new ≡ link_ended self.old }
        ensures faults { link_faults self.new ≡ link_faults self.old }
    {
        let now = now_ms(&self.rt);
        let since = self.answered_since.unwrap_or(now);
        self.answered_since = Some(since);
        let until = match &self.origin {
            Origin::Here(until) => *until,
            Origin::Lobby(_) => since.saturating_add(self.limits.answer_ms),
        };
        match &self.stream {
            Some(stream) if now < until => wait_for(stream.as_raw_fd(), Side::Write, until - now),
            _ => false,
        }
    }

    // One fault more.
    fn fault(&mut self)
        ensures rises { Rose (link_faults self.old) (link_faults self.new) }
        ensures ended { link_ended self.new ≡ link_ended self.old }
    {
        self.faults = self.faults.saturating_add(1);
    }

    /// Ends the connection, where it isn't back in the lobby. Its peer finds the end of what was put. What the peer goes
    /// on sending is read for a short while in the lobby, as the system would drop what was put where bytes are left
    /// unread.
    pub(crate) fn finish(&mut self)
        ensures ended { link_ended self.new ≡ link_ended self.old }
        ensures faults { link_faults self.new ≡ link_faults self.old }
    {
        let Some(stream) = self.stream.take() else {
            return;
        };
        // A peer that has gone away needs no word of the end.
        let _shut = stream.shutdown(Shutdown::Write);
        if self.ended {
            return;
        }
        let now = now_ms(&self.rt);
        match &self.origin {
            Origin::Lobby(lobby) if !lobby.is_closed() => lobby.let_in(stream, Stage::Over, now),
            _ => linger(&self.rt, &stream, now.saturating_add(LINGER_MS)),
        }
    }
}

/// Waits for a connection that stays with its handler.
fn wait_alone(own: RawFd, ms: u64) -> Pause {
    if wait_for(own, Side::Read, ms) {
        Pause::Speaks
    } else {
        Pause::Silent
    }
}

/// Reads what a peer still sends, up to its end or to a moment.
fn linger<C: Clock>(clock: &C, stream: &TcpStream, until: u64) {
    for _ in 0..LINGER_MS {
        let now = now_ms(clock);
        if now >= until
            || !wait_for(stream.as_raw_fd(), Side::Read, until - now)
            || drain(stream) == Left::Ended
        {
            return;
        }
    }
}

impl<R: Clock + Drop> Source for TcpLink<R> {
    ghost left = { λ _. None };

    ghost taken = { λ _. None };

    ghost ended = { link_ended };

    ghost aside = { λ _. no_output };

    ghost count = { link_faults };

    fn faults(&self) -> u64 {
        self.faults
    }

    fn take(&mut self, buf: &mut [u8]) -> Took
        requires { 0 < length buf.old }
        ensures within { IfTook result (λ n. n ≤ length buf.old) }
        ensures last { link_ended self.new ≡ is_end result }
        ensures rises { OnTookFailed result (Rose (link_faults self.old) (link_faults self.new)) }
        ensures stays { IfTook result (λ _. link_faults self.new ≡ link_faults self.old) }
    {
        match self.next(buf) {
            Some(count) => {
                self.ended = count == 0;
                Took::Took(count)
            }
            None => {
                self.ended = false;
                self.fault();
                Took::Failed
            }
        }
    }
}

impl<R: Clock + Drop> Sink for TcpLink<R> {
    ghost written = { λ _. None };

    ghost aside = { λ l. record { left = None; taken = None; ended = link_ended l; notes = None } };

    ghost count = { link_faults };

    fn faults(&self) -> u64 {
        self.faults
    }

    fn put(&mut self, bytes: &[u8]) -> Put
        ensures within { IfPut result (λ n. n ≤ length bytes.now) }
        ensures advances { IfPut result (λ n. 0 < length bytes.now → 0 < n) }
        ensures nothing { bytes.now ≡ [] → result ≡ Put.Put 0 }
        ensures no_memory { result ≢ Put.Memory }
        ensures keeps { link_ended self.new ≡ link_ended self.old }
        ensures rises { OnPutFailed result (Rose (link_faults self.old) (link_faults self.new)) }
        ensures stays { IfPut result (λ _. link_faults self.new ≡ link_faults self.old) }
    {
        if bytes.is_empty() {
            return Put::Put(0);
        }
        match self.write(bytes) {
            Some(count) => Put::Put(count),
            None => {
                self.fault();
                Put::Failed
            }
        }
    }
}

impl<R: Clock + Drop> Link for TcpLink<R> {
    type Over = Passed;

    fn note_idle(&mut self) {
        self.idle = true;
    }

    fn note_over(&mut self, _over: &Passed) {}

    ghost one_count = { λ _. refl };

    ghost written_aside = { λ _. refl };

    ghost taken_aside = { λ _. refl };
}
