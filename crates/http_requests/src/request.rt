//! One request of a connection, by where it stands in the bytes.
ghost use Rattle.std.specs.Prelude.{◌≡◌};
ghost use Rattle.http_requests.specs.Next.{refusal};

use http_words::{Endpoint, Fault};

/// What is answered once: a request, or bytes that form none. It stands at the front of the bytes that were held.
#[derive(Clone, Copy)]
pub struct Request {
    /// The interim answer is put before the answer.
    pub interim: bool,
    /// The answer's body isn't put, as the method is `HEAD`.
    pub withheld: bool,
    /// The connection closes after the answer.
    pub closes: bool,
    /// What is asked for, or the fault that is answered.
    pub asks: Result<Endpoint, Fault>,
    /// Where its body begins, which ends at `size`.
    pub body: usize,
    /// How many of the bytes it takes, 0 where no more are read behind it.
    pub size: usize,
}

impl Request {
    /// A request that is answered by a fault and ends the connection.
    pub(crate) fn refused(interim: bool, withheld: bool, fault: Fault) -> Request
        ensures { result ≡ refusal interim withheld fault }
    {
        Request {
            interim,
            withheld,
            closes: true,
            asks: Err(fault),
            body: 0,
            size: 0,
        }
    }
}
