//! Writing over bytes in memory.
ghost use Rattle.std.specs.Prelude.{◌≡◌, ◌≤◌, ◌+◌, length, vec_len, OnOk, OnErr};
ghost use Rattle.farm_disk.specs.Images.{overwritten};

use std::alloc::AllocError;

/// Writes bytes at an index, over what is there and past the end. Where memory runs out nothing was done.
pub(super) fn overwrite(held: &mut Vec<u8>, at: usize, bytes: &[u8]) -> Result<(), AllocError>
    requires { at ≤ vec_len held.old }
    ensures ok { OnOk result (held.new.items ≡ overwritten at bytes.now held.old.items) }
    ensures err { OnErr result (held.new.items ≡ held.old.items) }
    ensures within { at + length bytes.now ≤ vec_len held.old → OnErr result ⊥ }
{
    let room = held.len() - at;
    if bytes.len() <= room {
        held[at..at + bytes.len()].copy_from_slice(bytes);
        return Ok(());
    }
    held.extend_from_slice(&bytes[room..])?;
    held[at..at + room].copy_from_slice(&bytes[..room]);
    Ok(())
}
