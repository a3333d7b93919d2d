//! The payloads of a journal, one behind the other.

ghost use Rattle.std.specs.Prelude.{◌≡◌, ◌<◌, ◌++◌, ◌∷◌, [], length, slice_get, Some, OnOk};
ghost use Rattle.farm_journal.specs.Parts.{start_of};

use farm_disk::Memory;
use std::alloc::Global;
use std::marker::Model;

/// The payloads of a journal, in the order in which they were appended. Contracts see the list of them.
///
/// They stand one behind the other in one block of memory, and the end of each beside them: opening a journal takes no
/// block for each payload.
#[derive(Drop)]
pub struct Payloads {
    bytes: Vec<u8>,
    ends: Vec<usize>,
}

impl Model for Payloads {
    ghost use Rattle.std.specs.Prelude.{List, ℕ, length};
    ghost use Rattle.farm_journal.specs.Parts.{AreEnds, parts};

    ghost Value = { List (List ℕ) };

    ghost view = { λ payloads. parts 0 payloads.ends.items payloads.bytes.items };

    ghost invariant = { λ payloads. AreEnds 0 payloads.ends.items (length payloads.bytes.items) };
}

impl Payloads {
    /// No payloads, which takes no memory.
    pub(crate) fn none(alloc: Global) -> Payloads
        ensures { result ≡ [] }
    {
        Payloads {
            bytes: Vec::new(alloc),
            ends: Vec::new(alloc),
        }
    }

    /// Adds a copy of a payload behind the others.
    ///
    /// # Errors
    ///
    /// [`Memory`].
    pub(crate) fn push(&mut self, payload: &[u8]) -> Result<(), Memory>
        ensures { OnOk result (self.new ≡ self.old ++ payload.now ∷ []) }
    {
        self.ends.reserve(1)?;
        self.bytes.extend_from_slice(payload)?;
        self.ends.push_reserved(self.bytes.len());
        Ok(())
    }

    /// How many there are.
    pub fn len(&self) -> usize
        ensures { result ≡ length self.now }
    {
        self.ends.len()
    }

    /// The bytes of the payload at an index, counted from 0.
    pub fn at(&self, index: usize) -> &[u8]
        requires { index < length self.now }
        ensures { slice_get self.now index ≡ Some result.now }
    {
        &self.bytes[start_of(&self.ends, index)..self.ends[index]]
    }
}

/// Where the part with an index begins, by the ends of all.
fn start_of(ends: &[usize], index: usize) -> usize
    requires { index < length ends.now }
    ensures { result ≡ start_of 0 ends.now index }
{
    if index == 0 { 0 } else { ends[index - 1] }
}
