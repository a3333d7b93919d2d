//! What a head comes to.
ghost use Rattle.std.specs.Prelude.{◌≡◌, ◌≤◌, List};
ghost use Rattle.std.specs.Str.{IsUtf8};
ghost use Rattle.httparse.specs.Grammar.{RequestHead};
ghost use Rattle.httparse.specs.Spans.{IsRequestAt, IsRequestWithin};
ghost use Rattle.http_requests.specs.FieldTexts.{FieldText};
ghost use Rattle.http_requests.specs.Lengths.{StatesWithin};
ghost use Rattle.http_requests.specs.Facts.{facts_of};
ghost use Rattle.http_requests.specs.Framing.{is_head_method, wants_interim, closes_after};
ghost use Rattle.http_requests.specs.Heads.{IsHeadOf};
ghost use Rattle.http_requests.specs.Readings.{Becomes};

use crate::facts::Facts;
use crate::framing::body_length;
use crate::head::Head;
use crate::request::Request;
use crate::{Fields, Pages};
use http_words::{Fault, MAX_HEAD_BYTES};
use httparse::spans::{HeaderSpan, RequestSpans};

impl<'b> Head<'b> {
    /// The parts of the head that was found.
    pub(crate) fn of(front: &'b [u8], spans: &[HeaderSpan], found: &RequestSpans) -> Head<'b>
        requires { IsRequestWithin front.now spans.now found.now }
        ensures is { (head : RequestHead) → IsRequestAt front.now spans.now found.now head → IsHeadOf result head }
        ensures bounded { StatesWithin result.facts.stated }
    {
        let fields = Fields {
            bytes: front,
            spans: &spans[..found.headers],
        };
        Head {
            method: found.method.of(front),
            target: found.path.of(front),
            minor: found.version,
            facts: Facts::of(&fields),
            size: found.len,
        }
    }

    #[tactic(auto, unfolding(crate::specs::Framing::is_head_method))]
    pub(crate) fn is_head(&self) -> bool
        ensures { result ≡ is_head_method self.now.method.now }
    {
        self.method == b"HEAD".as_slice()
    }

    #[tactic(auto, unfolding(crate::specs::Framing::wants_interim))]
    fn wants_interim(&self, len: usize) -> bool
        ensures { (fields : List FieldText) → self.now.facts ≡ facts_of fields
            → result ≡ wants_interim self.now.minor fields len }
    {
        self.minor == 1 && 0 < len && self.facts.expects
    }

    #[tactic(auto, unfolding(crate::specs::Framing::closes_after))]
    fn closes(&self) -> bool
        ensures { (fields : List FieldText) → self.now.facts ≡ facts_of fields
            → result ≡ closes_after self.now.minor fields }
    {
        self.minor == 0 || self.facts.closes
    }

    /// What the head becomes: the request, once its body is whole, or the fault for which no body is read. The target
    /// is a text, as that of every head is.
    pub(crate) fn becomes(&self, pages: &Pages) -> Result<Request, Fault>
        requires short { self.now.size ≤ MAX_HEAD_BYTES }
        requires text { IsUtf8 self.now.target.now }
        requires bounded { StatesWithin self.now.facts.stated }
        ensures { (head : RequestHead) → IsHeadOf self.now head → Becomes head result }
    {
        let len = body_length(self.method, self.minor, &self.facts)?;
        Ok(Request {
            interim: self.wants_interim(len),
            withheld: self.is_head(),
            closes: self.closes(),
            asks: pages.endpoint_of(self.method, self.target),
            body: self.size,
            size: self.size + len,
        })
    }
}
