//! Bytes in memory that are taken piece by piece, as those that come from a network.
ghost use Rattle.std.specs.Prelude.{◌≡◌, ◌<◌, ◌++◌, ◌==◌, false, drop, take, length, min};
ghost use Rattle.link_io.specs.Pieces.{piece_room};
ghost use Rattle.link_io.specs.MemInput.{fresh_input};

use super::pieces::room_for;
use std::marker::Model;

/// The input of a source or of a link in memory.
///
/// Contracts see it as the bytes left, those taken, whether the last take found the end, and the sizes of the pieces.
#[derive(Drop)]
pub(super) struct MemInput {
    bytes: Vec<u8>,
    at: usize,
    ended: bool,
    pieces: Vec<usize>,
}

impl Model for MemInput {
    ghost use Rattle.std.specs.Prelude.{◌≤◌, drop, take, vec_len};
    ghost use Rattle.link_io.specs.MemInput.{InputInMemory};

    ghost Value = { InputInMemory };

    ghost view = { λ input. record {
      left = drop input.at input.bytes.items;
      taken = take input.at input.bytes.items;
      ended = input.ended;
      pieces = input.pieces.items;
    } };

    ghost invariant = { λ input. input.at ≤ vec_len input.bytes };
}

impl MemInput {
    /// These bytes, in pieces of these sizes, of which nothing was taken yet.
    pub(super) fn of(bytes: Vec<u8>, pieces: Vec<usize>) -> MemInput
        ensures { result ≡ fresh_input bytes.items pieces.items }
    {
        MemInput {
            bytes,
            at: 0,
            ended: false,
            pieces,
        }
    }

    /// Takes as many bytes as there are, up to the buffer and the piece at this index, from 0.
    #[tactic(auto, using(crate::proofs::Taken::taken_bytes))]
    pub(super) fn take(&mut self, index: u64, buf: &mut [u8]) -> usize
        requires { 0 < length buf.old }
        ensures size { result ≡ min (piece_room self.old.pieces index (length buf.old)) (length self.old.left) }
        ensures bytes { take result buf.new ≡ take result self.old.left }
        ensures took { self.new ≡ record self.old {
          left = drop result self.old.left;
          taken = self.old.taken ++ take result self.old.left;
          ended = result == 0;
        } }
    {
        let room = room_for(&self.pieces, index, buf.len());
        let count = room.min(self.bytes.len() - self.at);
        buf[..count].copy_from_slice(&self.bytes[self.at..self.at + count]);
        self.at += count;
        self.ended = count == 0;
        count
    }

    /// A take failed, so the last one found no end.
    pub(super) fn miss(&mut self)
        ensures { self.new ≡ record self.old { ended = false } }
    {
        self.ended = false;
    }

    /// The same bytes in the same pieces, of which nothing was taken yet.
    pub(super) fn afresh(self) -> MemInput
        ensures { result ≡ fresh_input (self.taken ++ self.left) self.pieces }
    {
        MemInput::of(self.bytes, self.pieces)
    }
}
