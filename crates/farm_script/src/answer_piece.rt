//! The lines that end in a piece.
ghost use Rattle.std.specs.Prelude.{◌≡◌, ◌<◌, ◌≤◌, ◌++◌, ◌∷◌, ℕ, List, [], length, MatchOption, OnOk, OnErr, IsErrOf};
ghost use Rattle.common_types.specs.Counts.{Rose};
ghost use Rattle.farm_store.specs.Bytes.{StandsFor};
ghost use Rattle.farm_script.specs.FarmRule.{farm_rule};
ghost use Rattle.farm_script.specs.LineFaults.{HasCause};
ghost use Rattle.farm_script.specs.Images.{Grows};
ghost use Rattle.farm_script.specs.Lines.{ended_after, rest_after};
ghost use Rattle.farm_script.specs.Held.{held};
ghost use Rattle.farm_script.specs.Script.{Answered, FailsIn, StopsIn};

use crate::answer_line::answer_line;
use crate::held_line::HeldLine;
use crate::run_end::RunEnd;
use crate::script_farm::ScriptFarm;
use farm_wire::LineReader;
use link_io::Sink;
use memchr::memchr;
use std::alloc::Global;

/// Answers the lines that end in a piece, and holds what follows the last line feed.
#[tactic(auto, using(crate::proofs::Answering::reaching, crate::proofs::Growing::growing))]
pub fn answer_piece<F: ScriptFarm, K: Sink>(
    alloc: Global,
    farm: &mut F,
    output: &mut K,
    reader: &mut LineReader,
    line: &mut HeldLine,
    piece: &[u8],
) -> Result<(), RunEnd>
    requires { F.pending farm.old ≡ [] }
    ensures answered { OnOk result
        (Answered farm_rule (F.history farm.old) (K.written output.old) (ended_after line.old piece.now)
        (F.history farm.new) (K.written output.new)) }
    ensures rest { OnOk result (line.new ≡ held (rest_after line.old piece.now)) }
    ensures stops { OnErr result
        (StopsIn farm_rule (F.history farm.old) (K.written output.old) (ended_after line.old piece.now)
        (F.history farm.new) (K.written output.new)) }
    ensures fails { IsErrOf result RunEnd.StoreFault →
        FailsIn farm_rule (F.history farm.old) (K.written output.old) (ended_after line.old piece.now)
        (F.history farm.new) (F.pending farm.new) (K.written output.new) }
    ensures cause { HasCause result (K.count output.old) (K.count output.new)
        (F.count farm.old) (F.count farm.new) (F.pending farm.new) }
    ensures images { Grows F.tells F.told StandsFor F.history F.pending farm.old farm.new }
{
    let mut rest = piece;
    while let Some((end, after)) = split_line(rest) {
        end_line(alloc, farm, output, reader, line, end)?;
        rest = after;
    }
    line.hold(rest)?;
    Ok(())
}

/// Answers the line that ends with these bytes, and begins the next one.
#[tactic(auto, using(crate::proofs::Growing::growing))]
fn end_line<F: ScriptFarm, K: Sink>(
    alloc: Global,
    farm: &mut F,
    output: &mut K,
    reader: &mut LineReader,
    line: &mut HeldLine,
    end: &[u8],
) -> Result<(), RunEnd>
    requires { F.pending farm.old ≡ [] }
    ensures answered { OnOk result
        (Answered farm_rule (F.history farm.old) (K.written output.old) ((line.old ++ end.now) ∷ [])
        (F.history farm.new) (K.written output.new)) }
    ensures next { OnOk result (line.new ≡ []) }
    ensures stops { OnErr result
        (StopsIn farm_rule (F.history farm.old) (K.written output.old) ((line.old ++ end.now) ∷ [])
        (F.history farm.new) (K.written output.new)) }
    ensures fails { IsErrOf result RunEnd.StoreFault →
        FailsIn farm_rule (F.history farm.old) (K.written output.old) ((line.old ++ end.now) ∷ [])
        (F.history farm.new) (F.pending farm.new) (K.written output.new) }
    ensures cause { HasCause result (K.count output.old) (K.count output.new)
        (F.count farm.old) (F.count farm.new) (F.pending farm.new) }
    ensures images { Grows F.tells F.told StandsFor F.history F.pending farm.old farm.new }
{
    line.hold(end)?;
    answer_line(alloc, farm, output, reader, line.bytes())?;
    line.clear();
    Ok(())
}

/// The bytes before the first line feed, and those after it, where there is one.
fn split_line(bytes: &[u8]) -> Option<(&[u8], &[u8])>
    ensures ended { MatchOption result
        ((line : List ℕ) → ended_after line bytes.now ≡ [])
        (λ parts. (line : List ℕ) → ended_after line bytes.now ≡ (line ++ parts.0.now) ∷ ended_after [] parts.1.now) }
    ensures rest { MatchOption result
        ((line : List ℕ) → rest_after line bytes.now ≡ line ++ bytes.now)
        (λ parts. (line : List ℕ) → rest_after line bytes.now ≡ rest_after [] parts.1.now) }
    ensures shorter { MatchOption result (Unit {0}) (λ parts. length parts.1.now < length bytes.now) }
{
    match memchr(b'\n', bytes) {
        Some(end) => Some((&bytes[..end], &bytes[end + 1..])),
        None => None,
    }
}
