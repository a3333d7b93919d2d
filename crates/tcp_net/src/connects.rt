//! Connections that are made from here.

use crate::ready::now_ms;
use mio::net::TcpStream;
use std::io::ErrorKind;
use std::net::{Net, ToSocketAddrs};
use std::rt::Clock;
use std::time::Duration;
use std::{io, net};

/// The pauses before a connect that was refused is made again, in milliseconds: ten seconds in all.
const PAUSES_MS: [u64; 13] = [
    100, 200, 400, 800, 1_000, 1_000, 1_000, 1_000, 1_000, 1_000, 1_000, 1_000, 500,
];

/// A connection that was made from here, whose reads and writes don't wait, and the moment until which it may last.
#[derive(Drop)]
pub(crate) struct Made {
    pub(crate) stream: TcpStream,
    pub(crate) until: u64,
}

impl Made {
    /// Connects to an address. The connect and what is said over the connection may last so many milliseconds in all.
    pub(crate) fn to<R: Net<Stream = net::TcpStream> + Clock>(
        rt: &R,
        address: &str,
        ms: u64,
    ) -> io::Result<Made> {
        let until = now_ms(rt).saturating_add(ms);
        let stream = connect(rt, address, until)?;
        stream.set_nodelay(true)?;
        stream.set_nonblocking(true)?;
        Ok(Made {
            stream: TcpStream::from_std(stream),
            until,
        })
    }

    /// Whether its peer has neither ended it nor said anything.
    pub(crate) fn is_fresh(&self) -> bool {
        match self.stream.peek(&mut [0]) {
            Ok(_) => false,
            Err(fault) => fault.kind() == ErrorKind::WouldBlock,
        }
    }
}

/// Connects to an address, by a moment. A connect that is refused, as where nobody listens, is made again for ten
/// seconds, after pauses that double up to a second, so that a peer which is started anew in that time is found once it
/// listens. Any other fault ends it at once.
fn connect<R: Net<Stream = net::TcpStream> + Clock>(
    rt: &R,
    address: &str,
    until: u64,
) -> io::Result<net::TcpStream> {
    for pause in PAUSES_MS {
        match connect_to_any(rt, address, until) {
            Err(fault)
                if fault.kind() == ErrorKind::ConnectionRefused
                    && now_ms(rt).saturating_add(pause) < until => {
                rt.sleep(Duration::from_millis(pause));
            }
            tried => return tried,
        }
    }
    connect_to_any(rt, address, until)
}

/// Connects to the first of an address's addresses that answers, by a moment. Where none does, it is refused if one of
/// them refuses it.
fn connect_to_any<R: Net<Stream = net::TcpStream> + Clock>(
    rt: &R,
    address: &str,
    until: u64,
) -> io::Result<net::TcpStream> {
    let mut last = io::Error::from(ErrorKind::AddrNotAvailable);
    for at in address.to_socket_addrs(rt)? {
        let left = Duration::from_millis(until.saturating_sub(now_ms(rt)));
        match net::TcpStream::connect_timeout(rt, &at, left) {
            Ok(stream) => return Ok(stream),
            Err(fault) => {
                if last.kind() != ErrorKind::ConnectionRefused {
                    last = fault;
                }
            }
        }
    }
    Err(last)
}
