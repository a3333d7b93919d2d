//! One read or one write of a connection.
ghost use Rattle.std.specs.Prelude.{◌≤◌, length, IfOk};

use crate::limits::LINGER_READS;
use crate::ready::{Side, wait_for};
use link_io::PIECE;
use mio::net::TcpStream;
use std::io::{ErrorKind, Read, Write};
use std::os::fd::AsRawFd;

/// Why a read or a write moved no byte.
#[derive(Clone, Copy)]
pub(crate) enum Unmoved {
    /// The peer has sent nothing yet, or takes nothing yet.
    Nothing,
    /// The connection is of no more use.
    Broken,
}

/// Why a call that failed moved no byte.
fn reason(kind: ErrorKind) -> Unmoved {
    match kind {
        ErrorKind::WouldBlock | ErrorKind::Interrupted => Unmoved::Nothing,
        _ => Unmoved::Broken,
    }
}

/// One read.
pub(crate) fn read_now(stream: &TcpStream, buf: &mut [u8]) -> Result<usize, Unmoved>
    ensures within { IfOk result (λ n. n ≤ length buf.old) }
{
    let mut reader = stream;
    match reader.read(buf) {
        Ok(count) => Ok(count),
        Err(e) => Err(reason(e.kind())),
    }
}

/// One write.
pub(crate) fn write_now(stream: &TcpStream, bytes: &[u8]) -> Result<usize, Unmoved>
    ensures within { IfOk result (λ n. n ≤ length bytes.now) }
{
    let mut writer = stream;
    match writer.write(bytes) {
        Ok(count) => Ok(count),
        Err(e) => Err(reason(e.kind())),
    }
}

/// Whether a read wouldn't wait: there are bytes, or the connection is over.
pub(crate) fn is_readable(stream: &TcpStream) -> bool {
    wait_for(stream.as_raw_fd(), Side::Read, 0)
}

/// What is left of what a peer sends to a connection that is over.
#[derive(Clone, Copy)]
pub(crate) enum Left {
    /// There may be more at once.
    More,
    /// There is nothing for now.
    Nothing,
    /// The peer has ended too.
    Ended,
}

/// Reads what a peer has sent to a connection that is over, in so many pieces at most, and forgets it. It never waits.
pub(crate) fn drain(stream: &TcpStream) -> Left {
    let mut piece = [0; PIECE];
    for _ in 0..LINGER_READS {
        if !is_readable(stream) {
            return Left::Nothing;
        }
        match read_now(stream, &mut piece) {
            Ok(0) | Err(Unmoved::Broken) => return Left::Ended,
            Ok(_) => {}
            Err(Unmoved::Nothing) => return Left::Nothing,
        }
    }
    Left::More
}
