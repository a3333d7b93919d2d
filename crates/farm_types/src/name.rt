ghost use Rattle.std.specs.Prelude.{◌≡◌, None, OnOk, IfOk, IfErr};
ghost use Rattle.std.specs.Cmp.{partial_order_from_own_ties};
ghost use Rattle.std.specs.Cmp.Lexicographic.{slice_cmp};
ghost use Rattle.std.specs.Cmp.Rules.{comparing};
ghost use Rattle.std.specs.Ordering.{as_partial_cmp, nat_cmp};
ghost use Rattle.std.specs.Str.{bytes_eq};
ghost use Rattle.std.proofs.Common.{rules};
ghost use Rattle.farm_types.specs.Name.{first_unprintable, name_fault, refusal};

use crate::Memory;
use std::alloc::Global;
use std::cmp::Ordering;
use std::marker::Model;
use thiserror::Error;

/// The most bytes of a name; it has at least one.
pub const NAME_MAX_BYTES: usize = 200;

/// The least byte that a name may hold, the space.
pub const NAME_FIRST_BYTE: u8 = 0x20;

/// The greatest byte that a name may hold, the tilde.
pub const NAME_LAST_BYTE: u8 = 0x7E;

/// The name of a test, a worker or an agent: 1 to 200 printable ASCII characters, spaces, quotes and backslashes among
/// them. A contract sees it as the list of its bytes, by which names are equal and ordered.
pub struct Name {
    text: String,
}

// Written out, so that the crates above cite its proof, and prove none of its fields' drops again.
impl Drop for Name {
    fn drop(self) {
        let Name { text: _ } = self;
    }
}

impl Model for Name {
    ghost use Rattle.std.specs.Prelude.{ℕ, List};
    ghost use Rattle.std.specs.String.{string_bytes};
    ghost use Rattle.farm_types.specs.Limits.{IsName};

    ghost Value = { List ℕ };

    ghost view = { λ name. string_bytes name.text };

    ghost invariant = { λ name. IsName (string_bytes name.text) };
}

impl PartialEq for Name {
    ghost eq = { bytes_eq };

    ghost laws = { Prim.search (comparing, rules) };

    fn eq(&self, other: &Name) -> bool {
        self.text == other.text
    }
}

impl Eq for Name {
    ghost laws = { Prim.search (comparing, rules) };
}

impl PartialOrd for Name {
    ghost partial_cmp = { as_partial_cmp (slice_cmp nat_cmp) };

    ghost laws = { partial_order_from_own_ties (Prim.search (comparing, rules)) (Prim.search (comparing, rules)) };

    fn partial_cmp(&self, other: &Name) -> Option<Ordering> {
        Some(self.cmp(other))
    }
}

impl Ord for Name {
    ghost cmp = { slice_cmp nat_cmp };

    ghost total = { Prim.search (comparing, rules) };

    ghost matches_partial_cmp = { Prim.search (comparing, rules) };

    ghost matches_eq = { Prim.search (comparing, rules) };

    fn cmp(&self, other: &Name) -> Ordering {
        self.text.cmp(&other.text)
    }
}

/// Why a text is no name, or could not be kept as one.
#[derive(Clone, Copy, Debug, Error)]
pub enum NameFault {
    /// The text has this many bytes, and not 1 to 200.
    #[error("a name has 1 to 200 bytes, and this text has {0}")]
    Length(usize),
    /// The byte at this index, counted from 0, is the first outside 0x20 to 0x7E.
    #[error("the byte at index {0} of the name is no printable ASCII character")]
    Byte(usize),
    /// There was no memory for the name, and the text has no fault.
    #[error("out of memory")]
    Memory,
}

impl Name {
    ghost use Rattle.farm_types.specs.Limits.{IsName};

    /// The name that a text spells. The first fault of the text is answered: its length, else its first byte that is no
    /// printable ASCII character, else out of memory.
    pub fn of(alloc: Global, text: &str) -> Result<Name, NameFault>
        ensures taken { OnOk result (name_fault text.now ≡ None) }
        ensures kept { IfOk result (λ name. name ≡ text.now) }
        ensures refused { IfErr result (λ fault. name_fault text.now ≡ refusal fault) }
    {
        if text.is_empty() || text.len() > NAME_MAX_BYTES {
            return Err(NameFault::Length(text.len()));
        }
        if let Some(index) = first_unprintable(text.as_bytes()) {
            return Err(NameFault::Byte(index));
        }
        match String::from_str(alloc, text) {
            Ok(text) => Ok(Name { text }),
            Err(_) => Err(NameFault::Memory),
        }
    }

    /// A copy of the name, on the allocator of the name itself.
    pub fn copy(&self) -> Result<Name, Memory>
        ensures { IfOk result (λ name. name ≡ self.now) }
    {
        Ok(Name {
            text: self.text.clone()?,
        })
    }

    /// Its text.
    pub fn text(&self) -> &str
        ensures text { result.now ≡ self.now }
        ensures legal { IsName self.now }
    {
        self.text.as_str()
    }
}

/// The index of the first byte that no name may hold.
fn first_unprintable(text: &[u8]) -> Option<usize>
    ensures { result ≡ first_unprintable text.now }
{
    text.iter()
        .position(|byte| !(NAME_FIRST_BYTE..=NAME_LAST_BYTE).contains(byte))
}
