//! A JSON text in the making, whose pieces are written one after the other.

ghost use Rattle.std.specs.Prelude.{◌≡◌, ◌≤◌, ◌++◌, [], IfOk, IsTrue, OnOk, decimal, length, map, string_bytes, true};
ghost use Rattle.std.specs.List.{list_all};
ghost use Rattle.json.specs.Print.{escape, quoted};
ghost use Rattle.json.specs.Run.{is_plain};
ghost use Rattle.serde_json.specs.View.{items_of};
ghost use Rattle.serde_json.specs.Written.{compact_text, items_text};
ghost use Rattle.farm_types.specs.CommitId.{id_digits};
ghost use Rattle.farm_wire.specs.Members.{culprit_in, whole, wholes};
ghost use Rattle.farm_wire.specs.Pieces.{behind_commas, commit_piece, number_piece, numbers_piece};

use crate::commas::{CHUNK, CHUNK_BYTES, write_behind_commas};
use crate::standing::culprit_in;
use farm_entry::Standing;
use farm_types::{CommitId, ID_DIGITS, Memory};
use itoa::Buffer;
use serde_json::Value;
use simdutf8::compat::from_utf8;
use std::alloc::Global;
use std::marker::Model;

/// How many bytes a text has room for at first, which most answers stay below.
const FIRST_ROOM: usize = 512;

/// A text that is written from its first byte to its last. A contract sees it as its bytes.
#[derive(Drop)]
pub(crate) struct JsonText {
    alloc: Global,
    text: String,
}

impl Model for JsonText {
    ghost use Rattle.std.specs.Prelude.{ℕ, List};
    ghost use Rattle.std.specs.String.{string_bytes};

    ghost Value = { List ℕ };

    ghost view = { λ t. string_bytes t.text };
}

impl JsonText {
    /// No byte yet. It is written in this room, whose bytes go, and which is made larger where most texts need more.
    pub(crate) fn within(alloc: Global, room: String) -> Result<JsonText, Memory>
        ensures { IfOk result (λ made. made ≡ []) }
    {
        let mut text = room;
        text.clear();
        text.reserve(FIRST_ROOM)?;
        Ok(JsonText { alloc, text })
    }

    /// The text.
    pub(crate) fn into_text(self) -> String
        ensures { string_bytes result ≡ self }
    {
        let JsonText { alloc: _, text } = self;
        text
    }

    /// Puts a piece behind what is written, as it is.
    pub(crate) fn put(&mut self, piece: &str) -> Result<(), Memory>
        ensures { OnOk result (self.new ≡ self.old ++ piece.now) }
    {
        Ok(self.text.push_str(piece)?)
    }

    /// Puts a whole number behind a piece.
    pub(crate) fn put_number(&mut self, piece: &str, number: u64) -> Result<(), Memory>
        ensures { OnOk result (self.new ≡ self.old ++ (piece.now ++ decimal number)) }
    {
        self.text.push_str(piece)?;
        let mut digits = Buffer::new();
        Ok(self.text.push_str(digits.format(number))?)
    }

    /// Puts a text between quotes behind a piece, with the escapes that it needs.
    pub(crate) fn put_text(&mut self, piece: &str, text: &str) -> Result<(), Memory>
        ensures { OnOk result (self.new ≡ self.old ++ (piece.now ++ quoted text.now)) }
    {
        self.text.push_str(piece)?;
        if is_plain(text.as_bytes()) {
            self.put_plain(text)
        } else {
            self.put_escaped(text)
        }
    }

    /// Puts a text between quotes with the escapes that it needs. It stands apart, so that a text without any needs no
    /// room for a value.
    #[inline(never)]
    fn put_escaped(&mut self, text: &str) -> Result<(), Memory>
        ensures { OnOk result (self.new ≡ self.old ++ quoted text.now) }
    {
        let escaped = Value::try_from_str(self.alloc, text)?.to_string(self.alloc)?;
        Ok(self.text.push_str(escaped.as_str())?)
    }

    /// Puts a text that needs no escape between quotes.
    fn put_plain(&mut self, text: &str) -> Result<(), Memory>
        requires { escape text.now ≡ text.now }
        ensures { OnOk result (self.new ≡ self.old ++ quoted text.now) }
    {
        self.text.push('"')?;
        self.text.push_str(text)?;
        Ok(self.text.push('"')?)
    }

    /// Puts the id of a commit between quotes behind a piece.
    pub(crate) fn put_commit(&mut self, piece: &str, commit: &CommitId) -> Result<(), Memory>
        ensures { OnOk result (self.new ≡ self.old ++ (piece.now ++ quoted (id_digits commit.now))) }
    {
        self.text.push_str(piece)?;
        let mut out = [0; ID_DIGITS];
        commit.digits(&mut out);
        let Ok(digits) = std::str::from_utf8(&out) else {
            unreachable!()
        };
        self.put_plain(digits)
    }

    /// Puts the id of a commit between quotes behind a piece, where there is one.
    pub(crate) fn put_commit_if(
        &mut self,
        piece: &str,
        commit: &Option<CommitId>,
    ) -> Result<(), Memory>
        ensures { OnOk result (self.new ≡ self.old ++ commit_piece piece.now commit.now) }
    {
        match commit {
            Some(commit) => self.put_commit(piece, commit),
            None => Ok(()),
        }
    }

    /// Puts the position that a standing names behind a piece, where there is one.
    pub(crate) fn put_culprit(&mut self, piece: &str, standing: Standing) -> Result<(), Memory>
        ensures { OnOk result (self.new ≡ self.old ++ number_piece piece.now (culprit_in standing)) }
    {
        match culprit_in(standing) {
            Some(culprit) => self.put_number(piece, culprit as u64),
            None => Ok(()),
        }
    }

    /// Puts a whole number behind a piece, where there is one.
    pub(crate) fn put_number_if(&mut self, piece: &str, number: Option<u32>) -> Result<(), Memory>
        ensures { OnOk result (self.new ≡ self.old ++ number_piece piece.now number) }
    {
        match number {
            Some(number) => self.put_number(piece, number as u64),
            None => Ok(()),
        }
    }

    /// Puts an array of whole numbers.
    pub(crate) fn put_numbers(&mut self, numbers: &[u32]) -> Result<(), Memory>
        ensures { OnOk result (self.new ≡ self.old ++ compact_text (wholes numbers.now)) }
    {
        match numbers.split_first() {
            Some((first, more)) => {
                self.put_number("[", *first as u64)?;
                self.put_more(more)
            }
            None => self.put("[]"),
        }
    }

    /// Puts an array of positions behind a piece, where there is one.
    pub(crate) fn put_positions(&mut self, piece: &str, positions: &[u16]) -> Result<(), Memory>
        ensures { OnOk result (self.new ≡ self.old ++ numbers_piece piece.now positions.now) }
    {
        match positions.split_first() {
            Some((first, more)) => {
                self.put(piece)?;
                self.put_number("[", *first as u64)?;
                self.put_more_positions(more)
            }
            None => Ok(()),
        }
    }

    /// Puts what an array of positions goes on with, behind its first.
    fn put_more_positions(&mut self, positions: &[u16]) -> Result<(), Memory>
        ensures { OnOk result (self.new ≡ self.old ++ items_text true (items_of (map whole positions.now))) }
    {
        for position in positions {
            self.put_number(",", *position as u64)?;
        }
        self.put("]")
    }

    /// Puts what an array of whole numbers goes on with, behind its first.
    fn put_more(&mut self, numbers: &[u32]) -> Result<(), Memory>
        ensures { OnOk result (self.new ≡ self.old ++ items_text true (items_of (map whole numbers.now))) }
    {
        let mut left = numbers;
        'chunks: while !left.is_empty() {
            let (chunk, more) = left.split_at(left.len().min(CHUNK));
            self.put_chunk(chunk)?;
            left = more;
        }
        self.put("]")
    }

    /// Puts some numbers, each behind a comma.
    fn put_chunk(&mut self, numbers: &[u32]) -> Result<(), Memory>
        requires { length numbers.now ≤ CHUNK }
        ensures { OnOk result (self.new ≡ self.old ++ behind_commas numbers.now) }
    {
        let mut room = [0; CHUNK_BYTES];
        let start = write_behind_commas(numbers, &mut room);
        let (_, written) = room.split_at(start);
        let Ok(text) = from_utf8(written) else {
            unreachable!()
        };
        Ok(self.text.push_str(text)?)
    }
}

/// Whether a text needs no escape between quotes.
fn is_plain(text: &[u8]) -> bool
    ensures { IsTrue result → escape text.now ≡ text.now }
{
    all_plain(text)
}

/// Whether each byte stands for itself between quotes.
fn all_plain(text: &[u8]) -> bool
    ensures { result ≡ list_all is_plain text.now }
{
    text.iter().all(|byte| is_plain_byte(*byte))
}

/// Whether a byte does.
fn is_plain_byte(byte: u8) -> bool
    ensures { result ≡ is_plain byte }
{
    !(byte == b'"' || byte == b'\\' || byte < 0x20)
}
