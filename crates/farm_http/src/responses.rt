//! The answers to requests, gathered and put to a link.
ghost use Rattle.std.specs.Prelude.{◌≡◌, ◌≤◌, ◌<◌, ◌++◌, ℕ, [], true, false, OnOk, OnErr, IsErrOf, length, take};
ghost use Rattle.std.specs.Io.KnownBytes.{append_known};
ghost use Rattle.common_types.specs.Counts.{Rose};
ghost use Rattle.connection_laws.specs.Answers.{no_memory, plain};
ghost use Rattle.farm_http.specs.Bytes.{OutSays, PutSays, request_bytes, said};
ghost use Rattle.farm_http.specs.Faults.{OnPutFault};

use crate::fault_answers::unput;
use connection_laws::ServeFault;
use http_answers::{HttpAnswer, memory_text, put_answer};
use http_requests::Request;
use http_words::{Allow, StatusCode};
use link_io::{Gathered, PutFault, Sink, put_all};

/// What an answer says, apart from how it is put.
#[derive(Clone, Copy)]
pub(crate) struct Says<'b> {
    pub status: StatusCode,
    /// The methods that it names.
    pub allow: Option<Allow>,
    /// Its body in JSON.
    pub body: &'b [u8],
}

impl<'b> Says<'b> {
    /// An answer that names no methods.
    pub fn plain(status: StatusCode, body: &'b [u8]) -> Says<'b>
        ensures { said result ≡ plain status body.now }
    {
        Says {
            status,
            allow: None,
            body,
        }
    }

    /// Out of memory.
    pub fn no_memory() -> Says<'static>
        ensures { said result ≡ no_memory }
    {
        Says::plain(StatusCode::NoStorage, memory_text())
    }
}

/// Puts the answer to a request, as `put_answer` of `http_answers` does.
#[tactic(auto, unfolding(http_answers::specs::Answers::answer_bytes, crate::specs::Bytes::request_bytes))]
pub(crate) fn put_said<K: Sink>(
    output: &mut K,
    request: &Request,
    says: &Says,
) -> Result<(), PutFault>
    ensures done { OnOk result
        (K.written output.new ≡ append_known (K.written output.old) (request_bytes request.now (said says.now))) }
    ensures stopped { OnErr result
        ((n : ℕ) × (n < length (request_bytes request.now (said says.now)))
        × (K.written output.new
        ≡ append_known (K.written output.old) (take n (request_bytes request.now (said says.now))))) }
    ensures aside { K.aside output.new ≡ K.aside output.old }
    ensures rises { IsErrOf result PutFault.Failed → Rose (K.count output.old) (K.count output.new) }
    ensures never_falls { K.count output.old ≤ K.count output.new }
{
    let answer = HttpAnswer {
        status: says.status,
        allow: says.allow,
        closes: request.closes,
        withheld: request.withheld,
        body: says.body,
    };
    put_answer(output, &answer)
}

/// Gathers the answer to a request, where there is room for the whole of it.
fn gather(out: &mut Gathered, request: &Request, says: &Says) -> bool
    ensures gathered { result ≡ true → out.new ≡ out.old ++ request_bytes request.now (said says.now) }
    ensures kept { result ≡ false → out.new ≡ out.old }
{
    let held = out.len();
    if put_said(out, request, says).is_ok() {
        return true;
    }
    out.truncate(held);
    false
}

/// Puts all that is gathered.
pub(crate) fn put_out<K: Sink>(out: &mut Gathered, link: &mut K) -> Result<(), ServeFault>
    ensures says { OutSays [] (record { sent = K.written link.old; held = out.old })
        (record { sent = K.written link.new; held = out.new }) result }
    ensures empty { OnOk result (out.new ≡ []) }
    ensures aside { K.aside link.new ≡ K.aside link.old }
    ensures cause { OnPutFault result (Rose (K.count link.old) (K.count link.new)) }
    ensures never_falls { K.count link.old ≤ K.count link.new }
{
    match out.put_on(link) {
        Ok(()) => Ok(()),
        Err(fault) => Err(unput(fault)),
    }
}

/// Puts the answer to a request behind those that are gathered: it is gathered too, and without room for it those
/// before it are put first. One that is too long to be gathered is put itself. Its interim answer, where it has one,
/// is out.
pub(crate) fn put_behind<K: Sink>(
    out: &mut Gathered,
    link: &mut K,
    request: &Request,
    says: &Says,
) -> Result<(), ServeFault>
    ensures says { OutSays (request_bytes request.now (said says.now))
        (record { sent = K.written link.old; held = out.old })
        (record { sent = K.written link.new; held = out.new }) result }
    ensures aside { K.aside link.new ≡ K.aside link.old }
    ensures cause { OnPutFault result (Rose (K.count link.old) (K.count link.new)) }
    ensures never_falls { K.count link.old ≤ K.count link.new }
{
    if gather(out, request, says) {
        return Ok(());
    }
    put_out(out, link)?;
    if gather(out, request, says) {
        return Ok(());
    }
    match put_said(link, request, says) {
        Ok(()) => Ok(()),
        Err(fault) => Err(unput(fault)),
    }
}

/// Puts bytes to a link.
pub(crate) fn put_bytes<K: Sink>(link: &mut K, bytes: &[u8]) -> Result<(), ServeFault>
    ensures says { PutSays bytes.now (K.written link.old) (K.written link.new) result }
    ensures aside { K.aside link.new ≡ K.aside link.old }
    ensures cause { OnPutFault result (Rose (K.count link.old) (K.count link.new)) }
    ensures never_falls { K.count link.old ≤ K.count link.new }
{
    match put_all(link, bytes) {
        Ok(()) => Ok(()),
        Err(fault) => Err(unput(fault)),
    }
}

/// Puts the answer to a request, where nothing is gathered. Its interim answer, where it has one, is out.
pub(crate) fn put_response<K: Sink>(
    out: &mut Gathered,
    link: &mut K,
    request: &Request,
    says: &Says,
) -> Result<(), ServeFault>
    requires empty { out.old ≡ [] }
    ensures empty { OnOk result (out.new ≡ []) }
    ensures says { PutSays (request_bytes request.now (said says.now)) (K.written link.old)
        (K.written link.new) result }
    ensures aside { K.aside link.new ≡ K.aside link.old }
    ensures cause { OnPutFault result (Rose (K.count link.old) (K.count link.new)) }
    ensures never_falls { K.count link.old ≤ K.count link.new }
{
    put_behind(out, link, request, says)?;
    put_out(out, link)
}
