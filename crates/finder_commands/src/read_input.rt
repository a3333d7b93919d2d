//! The whole input, up to its limit.

ghost use Rattle.std.specs.Prelude.{◌≡◌, ◌≤◌, ℕ, List, IfOk, IsErrOf, length};
ghost use Rattle.std.specs.Io.KnownBytes.{prepend_known};
ghost use Rattle.common_types.specs.Counts.{Rose};
ghost use Rattle.finder_commands.specs.ReadInput.{WasRead};

use link_io::{INPUT_LIMIT, PIECE, Source, TakeFailed, take_piece};
use std::alloc::{AllocError, Global};

/// Why an input was not read to its end.
#[derive(Clone, Copy)]
pub enum InputFault {
    /// The input failed, and its count of faults rose.
    Failed,
    /// The input has no end within [`INPUT_LIMIT`] bytes.
    AtLimit,
    /// Out of memory.
    Memory,
}

impl From<TakeFailed> for InputFault {
    ghost use Rattle.std.specs.Prelude.{◌≡◌};
    ghost use Rattle.finder_commands.specs.declared.read_input.InputFault.TheVariants.{Failed};

    ghost from_gives = { λ _ fault. fault ≡ Failed };

    fn from(_failed: TakeFailed) -> InputFault {
        InputFault::Failed
    }
}

impl From<AllocError> for InputFault {
    ghost use Rattle.std.specs.Prelude.{◌≡◌};
    ghost use Rattle.finder_commands.specs.declared.read_input.InputFault.TheVariants.{Memory};

    ghost from_gives = { λ _ fault. fault ≡ Memory };

    fn from(_error: AllocError) -> InputFault {
        InputFault::Memory
    }
}

/// Reads the input to its end. No more bytes are taken than [`INPUT_LIMIT`], and nothing is taken after those.
#[tactic(auto, using(crate::proofs::Taken::taken_bytes))]
pub fn read_input<S: Source>(alloc: Global, input: &mut S) -> Result<Vec<u8>, InputFault>
    ensures whole { IfOk result (λ bytes. WasRead (S.left input.old) (S.left input.new) bytes.items) }
    ensures at_limit { IsErrOf result InputFault.AtLimit →
        (bytes : List ℕ) × (length bytes ≡ INPUT_LIMIT)
        × (S.left input.old ≡ prepend_known bytes (S.left input.new)) }
    ensures rises { IsErrOf result InputFault.Failed → Rose (S.count input.old) (S.count input.new) }
    ensures never_falls { S.count input.old ≤ S.count input.new }
{
    let mut bytes = Vec::new(alloc);
    let mut buf = [0; PIECE];
    while bytes.len() < INPUT_LIMIT {
        let room = PIECE.min(INPUT_LIMIT - bytes.len());
        let piece = take_piece(input, &mut buf[..room])?;
        if piece.is_empty() {
            return Ok(bytes);
        }
        bytes.extend_from_slice(piece)?;
    }
    Err(InputFault::AtLimit)
}
