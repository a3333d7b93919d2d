//! A whole text.

ghost use Rattle.std.specs.Prelude.{◌≡◌, is_some, true};
ghost use Rattle.json_tape.specs.Places.{data_at};

use crate::parsed::Parsed;
use crate::range::is_accepted;
use json::{Error, Scratch, Tape};
use std::alloc::Global;

/// Why a text isn't read.
#[derive(Clone, Copy, Drop)]
pub enum Unread {
    /// It is no JSON text in UTF-8, or `serde_json` refuses it: it nests too deep, or has a number out of range.
    Malformed,
    /// Out of memory, or a text that is too long for the places of a tape (`json::MAX_LEN`, some 4 GiB).
    Memory,
}

/// A text that was read. A contract sees it as the value that `serde_json` reads (`document_data`).
#[derive(Drop)]
pub struct Document<'a> {
    tape: Tape<'a>,
    ghost read: { is_some (data_at tape) ≡ true },
}

impl<'a> Document<'a> {
    ghost use Rattle.std.specs.Prelude.{◌≡◌, ◌≢◌, IfErr, IfOk, IsUtf8, None, Some, is_some, option_map};
    ghost use Rattle.serde_json.specs.Find.{as_object, get};
    ghost use Rattle.serde_json.specs.Read.{read};
    ghost use Rattle.json_tape.specs.Views.{data_of, document_data};

    /// The value that a text is.
    pub fn read(
        alloc: Global,
        bytes: &'a [u8],
        scratch: &'a mut Scratch,
    ) -> Result<Document<'a>, Unread>
        ensures ok { IfOk result (λ d. IsUtf8 bytes.now × (read bytes.now ≡ Some (document_data d))) }
        ensures refused { IfErr result (λ e. e ≢ Unread.Memory → IsUtf8 bytes.now → read bytes.now ≡ None) }
    {
        let Ok(text) = simdutf8::compat::from_utf8(bytes) else {
            return Err(Unread::Malformed);
        };
        let tape = match Tape::parse(text, scratch, Vec::new(alloc)) {
            Ok(tape) => tape,
            Err(Error::Invalid) => return Err(Unread::Malformed),
            Err(_) => return Err(Unread::Memory),
        };
        if is_accepted(tape.nodes()) {
            Ok(Document { tape })
        } else {
            Err(Unread::Malformed)
        }
    }

    /// The text's value.
    fn root(&self) -> Parsed<'_, 'a>
        ensures { data_of result ≡ document_data self.now }
    {
        let element = self.tape.root();
        Parsed { element }
    }

    /// Whether it is an object.
    pub fn is_object(&self) -> bool
        ensures { result ≡ is_some (as_object (document_data self.now)) }
    {
        self.root().is_object()
    }

    /// The member of that name, where the text is an object that has one: the last one of that name.
    pub fn get(&self, name: &str) -> Option<Parsed<'_, 'a>>
        ensures { option_map data_of result ≡ get name.now (document_data self.now) }
    {
        self.root().get(name)
    }
}
