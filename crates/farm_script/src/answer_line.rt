//! One line and its reply.
ghost use Rattle.std.specs.Prelude.{◌≡◌, ◌≢◌, ◌≤◌, ◌⊎◌, ◌++◌, ◌∷◌, ℕ, List, [], IfErr, IfOk, OnOk, OnErr, IsErrOf};
ghost use Rattle.std.specs.Prelude.{string_bytes};
ghost use Rattle.common_types.specs.Counts.{Rose};
ghost use Rattle.farm_entry.specs.Decision.{decide};
ghost use Rattle.farm_entry.specs.Playing.{after};
ghost use Rattle.farm_store.specs.Bytes.{StandsFor};
ghost use Rattle.farm_wire.specs.Answers.{AnswerHasDates, answer_text, decision_text};
ghost use Rattle.farm_script.specs.FarmRule.{farm_rule};
ghost use Rattle.farm_script.specs.Images.{Grows};
ghost use Rattle.farm_script.specs.LineFaults.{HasCause, IsStop};
ghost use Rattle.farm_script.specs.Script.{Answered, FailsIn, IsPendingOf, IsUnshown, StopsIn, next_history};

use crate::run_end::RunEnd;
use crate::script_farm::ScriptFarm;
use farm_entry::{Answer, Command};
use farm_types::{Memory, Moment};
use farm_wire::{LineReader, WireFault, answer_text, fault_text};
use link_io::{Sink, put_all};
use std::alloc::Global;

/// Answers a line, and puts its reply line.
///
/// # Errors
///
/// How the run ends by it: the output failed, or the store, or memory ran out.
#[tactic(auto, using(crate::proofs::Answering::unshown, crate::proofs::Growing::growing))]
pub fn answer_line<F: ScriptFarm, K: Sink>(
    alloc: Global,
    farm: &mut F,
    output: &mut K,
    reader: &mut LineReader,
    line: &[u8],
) -> Result<(), RunEnd>
    requires { F.pending farm.old ≡ [] }
    ensures answered { OnOk result
        (Answered farm_rule (F.history farm.old) (K.written output.old) (line.now ∷ [])
        (F.history farm.new) (K.written output.new)) }
    ensures stops { OnErr result
        (StopsIn farm_rule (F.history farm.old) (K.written output.old) (line.now ∷ [])
        (F.history farm.new) (K.written output.new)) }
    ensures fails { IsErrOf result RunEnd.StoreFault →
        FailsIn farm_rule (F.history farm.old) (K.written output.old) (line.now ∷ [])
        (F.history farm.new) (F.pending farm.new) (K.written output.new) }
    ensures cause { HasCause result (K.count output.old) (K.count output.new)
        (F.count farm.old) (F.count farm.new) (F.pending farm.new) }
    ensures images { Grows F.tells F.told StandsFor F.history F.pending farm.old farm.new }
{
    let mut reply = reply_to(alloc, farm, reader, line)?;
    reply.push('\n')?;
    put_all(output, reply.as_bytes())?;
    Ok(())
}

/// The reply to a line, without its line feed. The entry that it makes is recorded before its reply is written, and
/// stays where memory runs out for that. Of a line that is too long, its first bytes are enough.
#[tactic(auto, using(crate::proofs::Growing::growing), unfolding(crate::specs::FarmRule::farm_rule))]
fn reply_to<F: ScriptFarm>(
    alloc: Global,
    farm: &mut F,
    reader: &mut LineReader,
    line: &[u8],
) -> Result<String, RunEnd>
    requires { F.pending farm.old ≡ [] }
    ensures reply { IfOk result (λ text. string_bytes text ≡ (farm_rule (F.history farm.old) line.now).0) }
    ensures history { OnOk result (F.history farm.new ≡ next_history farm_rule (F.history farm.old) line.now) }
    ensures err { OnErr result (IsUnshown farm_rule (F.history farm.old) line.now (F.history farm.new)) }
    ensures stop { IfErr result IsStop }
    ensures no_write { result ≢ Err RunEnd.WriteFault }
    ensures decided { ¬ IsErrOf result RunEnd.StoreFault → F.pending farm.new ≡ [] }
    ensures undecided { IsErrOf result RunEnd.StoreFault → (F.history farm.new ≡ F.history farm.old)
        × IsPendingOf farm_rule (F.history farm.old) line.now (F.pending farm.new) }
    ensures store_fault { IsErrOf result RunEnd.StoreFault → Rose (F.count farm.old) (F.count farm.new) }
    ensures stores { F.count farm.old ≤ F.count farm.new }
    ensures images { Grows F.tells F.told StandsFor F.history F.pending farm.old farm.new }
{
    match reader.read(line) {
        Ok((at, command)) => reply_to_command(alloc, farm, &command, at),
        Err(WireFault::Memory) => Err(RunEnd::Memory),
        Err(fault) => Ok(fault_text(alloc, &fault)?),
    }
}

/// The reply to a command at a moment.
fn reply_to_command<F: ScriptFarm>(
    alloc: Global,
    farm: &mut F,
    command: &Command,
    at: Moment,
) -> Result<String, RunEnd>
    requires { F.pending farm.old ≡ [] }
    ensures reply { IfOk result (λ text. string_bytes text
        ≡ decision_text (F.history farm.old) (decide (F.history farm.old) command.now at)) }
    ensures history { OnOk result
        (F.history farm.new ≡ after (F.history farm.old) (decide (F.history farm.old) command.now at)) }
    ensures err { OnErr result ((F.history farm.new ≡ F.history farm.old)
        ⊎ (F.history farm.new ≡ after (F.history farm.old) (decide (F.history farm.old) command.now at))) }
    ensures stop { IfErr result IsStop }
    ensures no_write { result ≢ Err RunEnd.WriteFault }
    ensures decided { ¬ IsErrOf result RunEnd.StoreFault → F.pending farm.new ≡ [] }
    ensures undecided { IsErrOf result RunEnd.StoreFault → (F.history farm.new ≡ F.history farm.old)
        × (F.pending farm.new ≢ []) × (F.history farm.old ++ F.pending farm.new
        ≡ after (F.history farm.old) (decide (F.history farm.old) command.now at)) }
    ensures store_fault { IsErrOf result RunEnd.StoreFault → Rose (F.count farm.old) (F.count farm.new) }
    ensures stores { F.count farm.old ≤ F.count farm.new }
    ensures images { Grows F.tells F.told StandsFor F.history F.pending farm.old farm.new }
{
    let answer = farm.answer_command(alloc, command, at)?;
    Ok(text_of(alloc, answer)?)
}

/// The text of an answer that is done with. It is let go of here alone, since the proof of each way out of a function
/// that holds one goes through all that it may hold.
fn text_of(alloc: Global, answer: Answer) -> Result<String, Memory>
    requires { AnswerHasDates answer }
    ensures { IfOk result (λ text. string_bytes text ≡ answer_text answer) }
{
    answer_text(alloc, &answer)
}
