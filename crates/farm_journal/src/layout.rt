//! The layout of the journal file: its limits, its header, and the bytes of a record.
ghost use Rattle.std.specs.Prelude.{◌≡◌, ◌++◌, ◌∷◌, [], length, IfOk, OnOk};
ghost use Rattle.farm_journal.specs.Layout.{framed, IsPayload};

use std::alloc::{AllocError, Global};

/// The most bytes of a payload. The fewest is one.
pub const MAX_PAYLOAD: usize = 1_048_576;

/// The offset of the first gate, behind the header.
pub const FIRST_GATE: u64 = 16;

/// A payload can be appended where the closed gate stands below this offset.
pub const GATE_LIMIT: u64 = 4_611_686_018_427_387_904;

/// Bytes 1 to 14 of the file.
pub const MAGIC: [u8; 14] = [
    b'C', b'u', b'l', b'p', b'r', b'i', b't', b'F', b'i', b'n', b'd', b'e', b'r', b' ',
];

/// The version byte of version 1. Any other is version 2.
pub const VERSION_1: u8 = b'1';

/// The version byte that this crate writes.
pub const VERSION_2: u8 = b'2';

/// Makes of some bytes, whose room serves for it, the length of a payload, the payload, and a closed gate.
pub(super) fn put_closed_frame(bytes: &mut Vec<u8>, payload: &[u8]) -> Result<(), AllocError>
    requires { IsPayload payload.now }
    ensures { OnOk result (bytes.new.items ≡ framed payload.now ++ 0 ∷ []) }
{
    bytes.clear();
    bytes.reserve(payload.len() + 5)?;
    bytes.extend_from_slice(&(payload.len() as u32).to_be_bytes())?;
    bytes.extend_from_slice(payload)?;
    bytes.push(0)?;
    Ok(())
}

/// All of a new file but its birth byte: the header, an open gate, the first record, and a closed gate.
pub(super) fn first_frame(alloc: Global, payload: &[u8]) -> Result<Vec<u8>, AllocError>
    requires { IsPayload payload.now }
    ensures { IfOk result (λ bytes. bytes.items ≡ MAGIC ++ VERSION_2 ∷ 1 ∷ framed payload.now ++ 0 ∷ []) }
{
    let mut record = Vec::new(alloc);
    put_closed_frame(&mut record, payload)?;
    let mut bytes = Vec::new(alloc);
    bytes.extend_from_slice(&MAGIC)?;
    bytes.push(VERSION_2)?;
    bytes.push(1)?;
    bytes.extend_from_slice(&record)?;
    Ok(bytes)
}
