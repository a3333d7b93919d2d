//! A sink in memory whose bytes go on to another one.
ghost use Rattle.std.specs.Prelude.{◌≡◌, ◌≢◌, ◌≤◌, ◌<◌, ◌+◌, ◌++◌, ◌↔◌, ℕ, [], Some, true, OnOk, OnErr, IsErrOf, length, take};
ghost use Rattle.std.specs.Io.KnownBytes.{append_known};
ghost use Rattle.common_types.specs.Counts.{Rose};
ghost use Rattle.link_io.specs.Intake.{no_intake};
ghost use Rattle.link_io.specs.Put.{IfPut};

use crate::sink::{Put, PutFault, Sink, put_all};
use std::marker::Model;

/// How many bytes a [`Gathered`] has room for.
pub const GATHERED_BYTES: usize = 8_192;

/// A sink in memory that holds what is put to it, until it goes on to another one. It has room for [`GATHERED_BYTES`],
/// and never fails: where there is no room for a piece, it answers that memory runs out.
///
/// Contracts see it as the bytes that it holds.
#[derive(Drop)]
pub struct Gathered {
    bytes: [u8; GATHERED_BYTES],
    count: usize,
}

impl Model for Gathered {
    ghost use Rattle.std.specs.Prelude.{ℕ, ◌≤◌, List, take};
    ghost use Rattle.link_io.specs.declared.gathered.TheConstants.{GATHERED_BYTES};

    ghost Value = { List ℕ };

    ghost view = { λ g. take g.count g.bytes };

    ghost invariant = { λ g. g.count ≤ GATHERED_BYTES };
}

impl Gathered {
    /// Nothing is held.
    pub fn new() -> Gathered
        ensures { result ≡ [] }
    {
        Gathered {
            bytes: [0; GATHERED_BYTES],
            count: 0,
        }
    }

    /// How many bytes are held.
    pub fn len(&self) -> usize
        ensures { result ≡ length self.now }
    {
        self.count
    }

    /// Whether no byte is held.
    pub fn is_empty(&self) -> bool
        ensures { (result ≡ true) ↔ (self.now ≡ []) }
    {
        self.count == 0
    }

    /// Holds only the first so many bytes of those that are held.
    pub fn truncate(&mut self, len: usize)
        ensures { self.new ≡ take len self.old }
    {
        self.count = self.count.min(len);
    }

    /// Puts all that is held to another sink, in as many puts as it takes, and then holds nothing. It stops at the
    /// first put that moves nothing: what went on by then is a prefix of the bytes held, and never all of them.
    pub fn put_on<K: Sink>(&mut self, output: &mut K) -> Result<(), PutFault>
        ensures done { OnOk result
            (K.written output.new ≡ append_known (K.written output.old) self.old) }
        ensures empty { OnOk result (self.new ≡ []) }
        ensures stopped { OnErr result
            ((n : ℕ) × (n < length self.old)
            × (K.written output.new ≡ append_known (K.written output.old) (take n self.old))) }
        ensures kept { OnErr result (self.new ≡ self.old) }
        ensures aside { K.aside output.new ≡ K.aside output.old }
        ensures rises { IsErrOf result PutFault.Failed → Rose (K.count output.old) (K.count output.new) }
        ensures never_falls { K.count output.old ≤ K.count output.new }
    {
        put_all(output, &self.bytes[..self.count])?;
        self.count = 0;
        Ok(())
    }
}

impl Sink for Gathered {
    ghost written = { λ g. Some g };

    ghost aside = { λ _. no_intake };

    ghost count = { λ _. 0 };

    /// It never fails.
    fn faults(&self) -> u64 {
        0
    }

    /// Holds the whole piece, where there is room for it.
    fn put(&mut self, bytes: &[u8]) -> Put
        ensures holds { IfPut result (λ n. (n ≡ length bytes.now) × (self.new ≡ self.old ++ bytes.now)) }
        ensures full { (result ≡ Put.Memory) ↔ (GATHERED_BYTES < length self.old + length bytes.now) }
        ensures never { result ≢ Put.Failed }
        ensures kept { result ≡ Put.Memory → self.new ≡ self.old }
    {
        if bytes.len() > GATHERED_BYTES - self.count {
            return Put::Memory;
        }
        let end = self.count + bytes.len();
        self.bytes[self.count..end].copy_from_slice(bytes);
        self.count = end;
        Put::Put(bytes.len())
    }
}
