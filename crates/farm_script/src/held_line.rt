//! The line that has not ended yet.
ghost use Rattle.std.specs.Prelude.{◌≡◌, ◌≤◌, ◌+◌, ◌++◌, ℕ, List, [], length, OnOk, OnErr};
ghost use Rattle.farm_wire.specs.declared.limits.TheConstants.{MAX_COMMAND_BYTES};
ghost use Rattle.farm_script.specs.Held.{held};

use farm_types::Memory;
use farm_wire::MAX_COMMAND_BYTES;
use std::alloc::Global;
use std::marker::Model;

/// What was read of a line that has not ended yet. Of a longer line no more is held than shows that it is too long.
#[derive(Drop)]
pub struct HeldLine {
    bytes: Vec<u8>,
}

impl Model for HeldLine {
    ghost use Rattle.std.specs.Prelude.{◌≤◌, ◌+◌, ℕ, List, vec_len};
    ghost use Rattle.farm_wire.specs.declared.limits.TheConstants.{MAX_COMMAND_BYTES};

    ghost Value = { List ℕ };

    ghost view = { λ l. l.bytes.items };

    ghost invariant = { λ l. vec_len l.bytes ≤ MAX_COMMAND_BYTES + 1 };
}

impl HeldLine {
    /// The line of which nothing was read yet.
    pub fn new(alloc: Global) -> HeldLine
        ensures { result ≡ [] }
    {
        HeldLine {
            bytes: Vec::new(alloc),
        }
    }

    /// What is held of the line.
    pub fn bytes(&self) -> &[u8]
        ensures value { result.now ≡ self.now }
        ensures few { length result.now ≤ MAX_COMMAND_BYTES + 1 }
    {
        &self.bytes
    }

    /// Adds what was read further on.
    pub fn hold(&mut self, bytes: &[u8]) -> Result<(), Memory>
        ensures ok { OnOk result (self.new ≡ held (self.old ++ bytes.now)) }
        ensures err { OnErr result (self.new ≡ self.old) }
    {
        let room = MAX_COMMAND_BYTES + 1 - self.bytes.len();
        let count = room.min(bytes.len());
        self.bytes.extend_from_slice(&bytes[..count])?;
        Ok(())
    }

    /// Begins the next line.
    pub fn clear(&mut self)
        ensures { self.new ≡ [] }
    {
        self.bytes.clear();
    }
}
