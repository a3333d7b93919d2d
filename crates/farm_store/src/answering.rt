//! Answering lists of asks by a farm in memory. That of a store is then ahead of its journal by what was added.

ghost use Rattle.std.specs.Prelude.{◌≡◌, ◌++◌, List, map, IfOk, OnOk};
ghost use Rattle.farm_store.specs.Answering.{AreAnswers, history_after};
ghost use Rattle.farm_store.specs.Together.{AreGiven, IsPartGiven, all_asks};

use crate::asking::{Answers, Ask, Part};
use farm_core::Farm;
use farm_entry::{Answer, Entry};
use farm_types::Memory;
use std::alloc::Global;

/// Answers a list of asks, one after the other. The new entries stand at the end of the history; where memory ran out,
/// those of the first asks do.
pub fn answer_all(alloc: Global, farm: &mut Farm, asks: &[Ask]) -> Result<Answers, Memory>
    ensures answers { IfOk result (λ answers. AreAnswers farm.old.history asks.now answers) }
    ensures history { OnOk result (farm.new.history ≡ history_after farm.old.history asks.now) }
    ensures added { (more : List Entry) × (farm.new.history ≡ farm.old.history ++ more) }
{
    let mut answers = Vec::with_capacity(alloc, asks.len())?;
    for ask in asks {
        // (an answer is large, and `?` and `push` would move it five times more)
        match farm.answer(&ask.command, ask.at) {
            Ok(given) => answers.push_reserved(given),
            Err(memory) => return Err(memory),
        }
    }
    Ok(Answers::of(answers))
}

/// Answers the asks of several callers, one caller after the other. The new entries stand at the end of the history;
/// where memory ran out, those of the first asks do.
pub fn answer_parts(alloc: Global, farm: &mut Farm, parts: &mut [Part]) -> Result<(), Memory>
    ensures given { OnOk result (AreGiven farm.old.history parts.old parts.new) }
    ensures asks { map (λ part. part.asks) parts.new ≡ map (λ part. part.asks) parts.old }
    ensures history { OnOk result (farm.new.history ≡ history_after farm.old.history (all_asks parts.old)) }
    ensures added { (more : List Entry) × (farm.new.history ≡ farm.old.history ++ more) }
{
    for index in 0..parts.len() {
        answer_part(alloc, farm, &mut parts[index])?;
    }
    Ok(())
}

/// Answers the asks of one caller.
fn answer_part(alloc: Global, farm: &mut Farm, part: &mut Part) -> Result<(), Memory>
    ensures given { OnOk result (IsPartGiven farm.old.history part.old part.new) }
    ensures asks { part.new.asks ≡ part.old.asks }
    ensures history { OnOk result (farm.new.history ≡ history_after farm.old.history part.old.asks.items) }
    ensures added { (more : List Entry) × (farm.new.history ≡ farm.old.history ++ more) }
{
    part.answers = answer_all(alloc, farm, &part.asks)?;
    part.end = farm.history().len();
    Ok(())
}
