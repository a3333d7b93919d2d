//! What the fields of a head say, gathered in one pass.
ghost use Rattle.std.specs.Prelude.{◌≡◌, ◌∷◌, codes, cond, length, []};
ghost use Rattle.http_requests.specs.FieldTexts.{field_texts};
ghost use Rattle.http_requests.specs.Lengths.{StatesWithin};
ghost use Rattle.http_requests.specs.Texts.{same_text};
ghost use Rattle.http_requests.specs.Facts.{IsAsked, facts_of, is_once, joined, seen_both, stated_both, with_field};
ghost use Rattle.httparse.specs.Spans.{IsHeaderWithin, header_bytes};

use crate::{Fields, StatedLength, is_same, length_in, lists_close};
use httparse::spans::HeaderSpan;

/// How many fields have a name.
#[derive(Clone, Copy)]
pub(crate) enum Seen {
    Never,
    Once,
    Often,
}

impl Seen {
    /// How many there are of these and of others.
    fn and(self, others: Seen) -> Seen
        ensures { result ≡ seen_both self others }
    {
        match self {
            Seen::Never => others,
            Seen::Once => match others {
                Seen::Never => Seen::Once,
                _ => Seen::Often,
            },
            Seen::Often => Seen::Often,
        }
    }

    pub(crate) fn is_once(self) -> bool
        ensures { result ≡ is_once self }
    {
        match self {
            Seen::Once => true,
            _ => false,
        }
    }
}

/// What fields state of a body's length, by what some of them state and what the others do.
fn stated_both(some: StatedLength, others: StatedLength) -> StatedLength
    ensures { result ≡ stated_both some others }
{
    match some {
        StatedLength::Absent => others,
        _ => match others {
            StatedLength::Absent => some,
            _ => StatedLength::Malformed,
        },
    }
}

/// What the rules ask of the fields that have a name.
#[derive(Clone, Copy)]
pub(crate) enum Asked {
    Nothing,
    /// How many there are.
    Host,
    /// Whether there is one.
    Origin,
    /// Whether there is one.
    Coding,
    /// The length that they state.
    Length,
    /// Whether one asks for the interim answer.
    Expect,
    /// Whether one lists `close`.
    Connection,
}

impl Asked {
    /// What is asked of the fields of a name: this, if the name is that word.
    fn where_same(self, name: &[u8], word: &[u8]) -> Asked
        ensures { result ≡ cond (same_text name.now word.now) self Asked.Nothing }
    {
        if is_same(name, word) {
            self
        } else {
            Asked::Nothing
        }
    }

    /// The same of a name that may be either of the two words of six letters.
    fn of_six(name: &[u8]) -> Asked
        ensures { result ≡ cond (same_text name.now (codes "expect")) Asked.Expect
            (cond (same_text name.now (codes "origin")) Asked.Origin Asked.Nothing) }
    {
        if is_same(name, b"expect") {
            Asked::Expect
        } else {
            Asked::Origin.where_same(name, b"origin")
        }
    }

    /// What is asked of the fields of this name. By its length at most two words have to be compared.
    fn of(name: &[u8]) -> Asked
        ensures { IsAsked result name.now }
    {
        match name.len() {
            4 => Asked::Host.where_same(name, b"host"),
            6 => Asked::of_six(name),
            10 => Asked::Connection.where_same(name, b"connection"),
            14 => Asked::Length.where_same(name, b"content-length"),
            17 => Asked::Coding.where_same(name, b"transfer-encoding"),
            _ => Asked::Nothing,
        }
    }
}

/// What the rules ask of the fields of a head.
#[derive(Clone, Copy)]
pub(crate) struct Facts {
    /// What the `Content-Length` fields state.
    pub(crate) stated: StatedLength,
    /// How many `Host` fields there are.
    pub(crate) hosts: Seen,
    /// Whether there is an `Origin` field.
    pub(crate) origin: bool,
    /// Whether a transfer coding is named.
    pub(crate) coding: bool,
    /// Whether an `Expect` field asks for the interim answer.
    pub(crate) expects: bool,
    /// Whether a `Connection` field lists `close`.
    pub(crate) closes: bool,
}

impl Facts {
    /// The facts of no fields.
    fn none() -> Facts
        ensures { result ≡ facts_of [] }
    {
        Facts {
            hosts: Seen::Never,
            origin: false,
            coding: false,
            stated: StatedLength::Absent,
            expects: false,
            closes: false,
        }
    }

    /// Takes up a field, where this is asked of those that have its name.
    fn take(&mut self, asked: Asked, value: &[u8])
        ensures { self.new ≡ with_field asked self.old value.now }
    {
        match asked {
            Asked::Nothing => {}
            Asked::Host => self.hosts = self.hosts.and(Seen::Once),
            Asked::Origin => self.origin = true,
            Asked::Coding => self.coding = true,
            Asked::Length => self.stated = stated_both(self.stated, length_in(value)),
            Asked::Expect => self.expects = self.expects || is_same(value, b"100-continue"),
            Asked::Connection => self.closes = self.closes || lists_close(value),
        }
    }

    /// Takes up a field, whose value is looked at where the rules ask for it.
    fn read(&mut self, bytes: &[u8], span: &HeaderSpan)
        requires { IsHeaderWithin (length bytes.now) span.now }
        ensures { self.new ≡ joined self.old (facts_of (header_bytes bytes.now span.now ∷ [])) }
    {
        match Asked::of(span.name.of(bytes)) {
            Asked::Nothing => {}
            asked => self.take(asked, span.value.of(bytes)),
        }
    }

    /// The facts of all these fields, each of which is looked at once.
    pub(crate) fn of(fields: &Fields) -> Facts
        ensures exact { result ≡ facts_of (field_texts fields.now) }
        ensures bounded { StatesWithin result.stated }
    {
        let bytes = fields.bytes;
        let mut spans = fields.spans;
        let mut facts = Facts::none();
        while let [span, behind @ ..] = spans {
            facts.read(bytes, span);
            spans = behind;
        }
        facts
    }
}
