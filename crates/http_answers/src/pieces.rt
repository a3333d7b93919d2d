//! Several texts put one after the other.
ghost use Rattle.std.specs.Prelude.{◌≡◌, ◌<◌, ◌≤◌, ℕ, OnOk, OnErr, IsErrOf, length, take};
ghost use Rattle.std.specs.Io.KnownBytes.{append_known};
ghost use Rattle.common_types.specs.Counts.{Rose};
ghost use Rattle.http_answers.specs.Pieces.{by_parts, joined};

use link_io::{PutFault, Sink, put_all};

/// Puts the pieces in their order, and stops at the first put that moves nothing. What was put by then stays put: a
/// prefix of them all, and never the whole.
#[tactic(auto, using(link_io::proofs::Told::told_bytes))]
pub(crate) fn put_pieces<K: Sink>(output: &mut K, pieces: &[&[u8]]) -> Result<(), PutFault>
    ensures done { OnOk result
        (K.written output.new ≡ append_known (K.written output.old) (joined pieces.now)) }
    ensures stopped { OnErr result
        ((n : ℕ) × (n < length (joined pieces.now))
        × (K.written output.new ≡ append_known (K.written output.old) (take n (joined pieces.now)))) }
    ensures aside { K.aside output.new ≡ K.aside output.old }
    ensures rises { IsErrOf result PutFault.Failed → Rose (K.count output.old) (K.count output.new) }
    ensures never_falls { K.count output.old ≤ K.count output.new }
{
    for piece in pieces {
        put_all(output, piece)?;
    }
    Ok(())
}

/// Puts an answer by what it opens with, the digits of its length, what stands behind them, and its body.
#[tactic(auto, unfolding(crate::specs::Pieces::by_parts))]
pub(crate) fn put_parts<'p, K: Sink>(
    output: &mut K,
    opening: &'p [u8],
    size: &'p [u8],
    ending: &'p [u8],
    body: &'p [u8],
) -> Result<(), PutFault>
    ensures done { OnOk result
        (K.written output.new ≡ append_known (K.written output.old) (by_parts opening.now size.now ending.now body.now)) }
    ensures stopped { OnErr result
        ((n : ℕ) × (n < length (by_parts opening.now size.now ending.now body.now))
        × (K.written output.new ≡ append_known (K.written output.old)
        (take n (by_parts opening.now size.now ending.now body.now)))) }
    ensures aside { K.aside output.new ≡ K.aside output.old }
    ensures rises { IsErrOf result PutFault.Failed → Rose (K.count output.old) (K.count output.new) }
    ensures never_falls { K.count output.old ≤ K.count output.new }
{
    let pieces = [opening, size, ending, body];
    put_pieces(output, &pieces)
}
