//! The run of a script.

ghost use Rattle.std.specs.Prelude.{◌≡◌, ◌≢◌, ◌≤◌, [], OnOk, OnErr, IsErrOf};
ghost use Rattle.common_types.specs.Counts.{Rose};
ghost use Rattle.link_io.specs.Streams.{streams};
ghost use Rattle.farm_store.specs.Bytes.{StandsFor};
ghost use Rattle.farm_script.specs.FarmRule.{farm_rule};
ghost use Rattle.farm_script.specs.Images.{Grows};
ghost use Rattle.farm_script.specs.LineFaults.{HasCause};
ghost use Rattle.farm_script.specs.Lines.{as_line};
ghost use Rattle.farm_script.specs.RunEnds.{RunCompletes, RunEnds, Seen};
ghost use Rattle.farm_script.specs.Script.{Answered, FailsIn, StopsIn};

use crate::answer_line::answer_line;
use crate::answer_piece::answer_piece;
use crate::held_line::HeldLine;
use crate::run_end::RunEnd;
use crate::script_farm::ScriptFarm;
use farm_wire::LineReader;
use link_io::{INPUT_LIMIT, PIECE, Sink, Source, take_piece};
use std::alloc::Global;

/// Runs the script that an input holds: reads what there is, answers each line as soon as it is whole, and puts its
/// reply line before more is taken. A last line without a line feed is answered once the input has ended. No more is
/// held of a line than shows that it is too long, and no more bytes are taken than [`INPUT_LIMIT`].
///
/// A line with a fault is refused, and the run goes on. What ends the run is said by the answer, and what was answered
/// by then stands.
pub fn run_script<F: ScriptFarm, S: Source, K: Sink>(
    alloc: Global,
    farm: &mut F,
    input: &mut S,
    output: &mut K,
) -> RunEnd
    requires { F.pending farm.old ≡ [] }
    ensures ends { let before = streams S.Source K.Sink input.old output.old in
        let after = streams S.Source K.Sink input.new output.new in
        RunEnds farm_rule result (record { streams = before; history = F.history farm.old; pending = [] })
        (record { streams = after; history = F.history farm.new; pending = F.pending farm.new }) }
    ensures completes { RunCompletes result
        (streams S.Source K.Sink input.old output.old) (streams S.Source K.Sink input.new output.new) }
    ensures store_fault { result ≡ RunEnd.StoreFault → Rose (F.count farm.old) (F.count farm.new) }
    ensures never_falls { F.count farm.old ≤ F.count farm.new }
    ensures decided { result ≢ RunEnd.StoreFault → F.pending farm.new ≡ [] }
    ensures images { Grows F.tells F.told StandsFor F.history F.pending farm.old farm.new }
{
    run_lines(alloc, farm, input, output)
}

/// The run itself.
#[tactic(auto, using(crate::proofs::SoFar::beginning, crate::proofs::Growing::growing))]
fn run_lines<F: ScriptFarm, S: Source, K: Sink>(
    alloc: Global,
    farm: &mut F,
    input: &mut S,
    output: &mut K,
) -> RunEnd
    requires { F.pending farm.old ≡ [] }
    ensures ends { let before = streams S.Source K.Sink input.old output.old in
        let after = streams S.Source K.Sink input.new output.new in
        RunEnds farm_rule result (record { streams = before; history = F.history farm.old; pending = [] })
        (record { streams = after; history = F.history farm.new; pending = F.pending farm.new }) }
    ensures store_fault { result ≡ RunEnd.StoreFault → Rose (F.count farm.old) (F.count farm.new) }
    ensures never_falls { F.count farm.old ≤ F.count farm.new }
    ensures decided { result ≢ RunEnd.StoreFault → F.pending farm.new ≡ [] }
    ensures images { Grows F.tells F.told StandsFor F.history F.pending farm.old farm.new }
{
    let mut reader = LineReader::new(alloc);
    let mut line = HeldLine::new(alloc);
    let mut buf = [0; PIECE];
    let mut taken = 0;
    while taken < INPUT_LIMIT {
        let room = PIECE.min(INPUT_LIMIT - taken);
        let piece = match take_piece(input, &mut buf[..room]) {
            Ok(piece) => piece,
            Err(_) => return RunEnd::ReadFault,
        };
        if piece.is_empty() {
            if let Err(end) = answer_rest(alloc, farm, output, &mut reader, &line) {
                return end;
            }
            return RunEnd::Done;
        }
        taken += piece.len();
        if let Err(end) = answer_piece(alloc, farm, output, &mut reader, &mut line, piece) {
            return end;
        }
    }
    RunEnd::InputLimit
}

/// Answers the last line, which has no line feed, once the input has ended.
#[tactic(auto, using(crate::proofs::Growing::growing))]
fn answer_rest<F: ScriptFarm, K: Sink>(
    alloc: Global,
    farm: &mut F,
    output: &mut K,
    reader: &mut LineReader,
    line: &HeldLine,
) -> Result<(), RunEnd>
    requires { F.pending farm.old ≡ [] }
    ensures answered { OnOk result
        (Answered farm_rule (F.history farm.old) (K.written output.old) (as_line line.now)
        (F.history farm.new) (K.written output.new)) }
    ensures stops { OnErr result
        (StopsIn farm_rule (F.history farm.old) (K.written output.old) (as_line line.now)
        (F.history farm.new) (K.written output.new)) }
    ensures fails { IsErrOf result RunEnd.StoreFault →
        FailsIn farm_rule (F.history farm.old) (K.written output.old) (as_line line.now)
        (F.history farm.new) (F.pending farm.new) (K.written output.new) }
    ensures cause { HasCause result (K.count output.old) (K.count output.new)
        (F.count farm.old) (F.count farm.new) (F.pending farm.new) }
    ensures images { Grows F.tells F.told StandsFor F.history F.pending farm.old farm.new }
{
    let bytes = line.bytes();
    if bytes.is_empty() {
        return Ok(());
    }
    answer_line(alloc, farm, output, reader, bytes)
}
