ghost use Rattle.std.specs.Prelude.{◌≡◌, length, Ok, Some, None, OnOk, IfOk, IfErr};
ghost use Rattle.farm_types.specs.declared.commit_id.TheConstants.{ID_BYTES};
ghost use Rattle.hex.specs.Hex.{IsBytes, decode_of};

use crate::id_digits::bytes_of;
use hex::{FromHex, FromHexError, encode_to_slice};
use thiserror::Error;

/// The bytes of a commit's id, which is a SHA-1 sum in git.
pub const ID_BYTES: usize = 20;

/// The hexadecimal digits of a commit's id, two for each byte.
pub const ID_DIGITS: usize = 40;

/// The id of a commit: 20 bytes, which git writes as 40 hexadecimal digits. Ids are equal exactly where their bytes
/// are, and are ordered as their bytes are, the first byte first.
#[derive(Clone, Copy, PartialEq, Eq)]
pub struct CommitId {
    bytes: [u8; ID_BYTES],
    ghost whole: { length bytes ≡ ID_BYTES },
    ghost fits: { IsBytes bytes },
}

/// Why a text is no commit's id.
#[derive(Clone, Copy, Debug, Error)]
pub enum IdFault {
    /// The text has this many bytes, and not 40.
    #[error("a commit id has 40 digits, and this text has {0} bytes")]
    Length(usize),
    /// The byte at this index, counted from 0, is the first that is no hexadecimal digit.
    #[error("the byte at index {0} of the commit id is no hexadecimal digit")]
    Digit(usize),
}

impl CommitId {
    ghost use Rattle.farm_types.specs.CommitId.{id_bytes, id_digits, id_fault};

    /// The id that a text of 40 hexadecimal digits names. Letters may be of either case.
    ///
    /// The first fault of the text is answered: its length, else its first byte that is no digit.
    pub fn read(text: &str) -> Result<CommitId, IdFault>
        ensures taken { OnOk result (id_fault text.now ≡ None) }
        ensures bytes { IfOk result (λ id. decode_of text.now ≡ Ok (id_bytes id)) }
        ensures refused { IfErr result (λ fault. id_fault text.now ≡ Some fault) }
    {
        match bytes_of(text.as_bytes()) {
            Some(bytes) => Ok(CommitId { bytes }),
            None => CommitId::read_slowly(text),
        }
    }

    /// The same of any text, digit by digit up to the first fault.
    #[inline(never)]
    fn read_slowly(text: &str) -> Result<CommitId, IdFault>
        ensures taken { OnOk result (id_fault text.now ≡ None) }
        ensures bytes { IfOk result (λ id. decode_of text.now ≡ Ok (id_bytes id)) }
        ensures refused { IfErr result (λ fault. id_fault text.now ≡ Some fault) }
    {
        match <[u8; ID_BYTES] as FromHex>::from_hex(text) {
            Ok(bytes) => Ok(CommitId { bytes }),
            Err(error) => match error {
                FromHexError::InvalidHexCharacter { index, .. } => Err(IdFault::Digit(index)),
                // `hex` looks at the length before the digits, so every other refusal is for the length.
                _ => Err(IdFault::Length(text.len())),
            },
        }
    }

    /// Writes the 40 digits of the id, with letters in lower case.
    pub fn digits(&self, out: &mut [u8; ID_DIGITS])
        ensures { out.new ≡ id_digits self.now }
    {
        // The room is twice the bytes, so nothing is refused.
        let _done = encode_to_slice(&self.bytes, out);
    }

    /// The id with these bytes.
    pub fn of(bytes: [u8; ID_BYTES]) -> CommitId
        ensures { id_bytes result ≡ bytes }
    {
        CommitId { bytes }
    }

    /// The bytes of the id.
    pub fn bytes(&self) -> [u8; ID_BYTES]
        ensures { result ≡ id_bytes self.now }
    {
        self.bytes
    }
}
