//! A sink in memory whose bytes are kept.
ghost use Rattle.std.specs.Prelude.{◌≡◌, ◌≢◌, ◌++◌, [], Some, length};
ghost use Rattle.link_io.specs.Intake.{no_intake};
ghost use Rattle.link_io.specs.Put.{IfPut};

use link_io::{Put, Sink};
use std::alloc::Global;
use std::marker::Model;

/// A sink in memory that keeps what is put to it. It never fails, but for memory that runs out. Contracts see it as
/// its bytes.
#[derive(Drop)]
pub(crate) struct KeptBytes {
    bytes: Vec<u8>,
}

impl Model for KeptBytes {
    ghost use Rattle.std.specs.Prelude.{ℕ, List};

    ghost Value = { List ℕ };

    ghost view = { λ k. k.bytes.items };
}

impl KeptBytes {
    /// No byte yet.
    pub fn new(alloc: Global) -> KeptBytes
        ensures { result ≡ [] }
    {
        KeptBytes {
            bytes: Vec::new(alloc),
        }
    }

    /// The bytes.
    pub fn bytes(&self) -> &[u8]
        ensures { result.now ≡ self.now }
    {
        &self.bytes
    }

    /// No byte any more. The room for them stays.
    pub fn clear(&mut self)
        ensures { self.new ≡ [] }
    {
        self.bytes.clear();
    }
}

impl Sink for KeptBytes {
    ghost written = { λ k. Some k };

    ghost aside = { λ _. no_intake };

    ghost count = { λ _. 0 };

    /// It never fails.
    fn faults(&self) -> u64 {
        0
    }

    /// Keeps the whole piece, unless memory runs out.
    fn put(&mut self, bytes: &[u8]) -> Put
        ensures holds { IfPut result (λ n. (n ≡ length bytes.now) × (self.new ≡ self.old ++ bytes.now)) }
        ensures never { result ≢ Put.Failed }
        ensures kept { result ≡ Put.Memory → self.new ≡ self.old }
    {
        match self.bytes.extend_from_slice(bytes) {
            Ok(()) => Put::Put(bytes.len()),
            Err(_) => Put::Memory,
        }
    }
}
