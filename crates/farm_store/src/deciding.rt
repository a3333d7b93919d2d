//! What the farm of a store decides in one call: a command, a list of asks, or the asks of several callers. It is then
//! ahead of its journal by what was added.

ghost use Rattle.std.specs.Prelude.{◌≡◌, ◌++◌, ◌∷◌, [], List, IfOk, OnOk, map, refl, ⊤};
ghost use Rattle.farm_entry.specs.declared.entry.Entry.{Entry};
ghost use Rattle.farm_store.specs.Answering.{AreAnswers, history_after};
ghost use Rattle.farm_store.specs.Entering.{IsEntered};
ghost use Rattle.farm_store.specs.Together.{AreGiven, all_asks};
ghost use Rattle.farm_store.specs.declared.asking.Ask.{Ask};

use crate::answering::{answer_all, answer_parts};
use crate::asking::{Answers, Ask, Part};
use farm_core::{CoreFault, Farm};
use farm_entry::{Answer, Command, LeasedRun, Refusal};
use farm_types::{Memory, Moment};
use std::alloc::Global;

/// What is asked in one call.
pub trait Deciding {
    /// What is given where all of it was decided.
    type Given: Drop;

    /// The asks, in their order.
    ghost asks: { Self → List Ask };

    /// What is given, and becomes of what is asked, where it is decided at a history.
    ghost gives: { List Entry → (old : Self) → Self.Given → (new : Self) → Type 0 };

    /// What stays as it is, whatever comes of it.
    ghost stays: { (old new : Self) → Type 0 };

    /// Decides one ask after the other. The new entries stand at the end of the farm's history; where memory ran out,
    /// those of the first asks do.
    fn decide(&mut self, alloc: Global, farm: &mut Farm) -> Result<Self::Given, Memory>
        ensures gives { IfOk result (λ given. gives farm.old.history self.old given self.new) }
        ensures stays { stays self.old self.new }
        ensures history { OnOk result (farm.new.history ≡ history_after farm.old.history (asks self.old)) }
        ensures added { (more : List Entry) × (farm.new.history ≡ farm.old.history ++ more) };

    /// What isn't touched stays as it is.
    ghost still: { (x : Self) → stays x x };
}

/// One command, at a moment.
#[derive(Drop)]
pub struct OneAsk<'a> {
    pub command: &'a Command,
    pub at: Moment,
}

impl<'a> Deciding for OneAsk<'a> {
    type Given = Answer;

    ghost asks = { λ one. record { command = one.command.now; at = one.at } ∷ [] };

    ghost gives = { λ H one given new.
        AreAnswers H (record { command = one.command.now; at = one.at } ∷ []) (given ∷ []) };

    ghost stays = { λ old new. ⊤ };

    ghost still = { λ x. tt };

    fn decide(&mut self, _alloc: Global, farm: &mut Farm) -> Result<Answer, Memory> {
        farm.answer(self.command, self.at)
    }
}

/// One command, at a moment, of whose reply the run alone is wanted that it hands out.
#[derive(Drop)]
pub struct OneRun<'a> {
    pub command: &'a Command,
    pub at: Moment,
}

impl<'a> Deciding for OneRun<'a> {
    type Given = Result<Option<LeasedRun>, Refusal>;

    ghost asks = { λ one. record { command = one.command.now; at = one.at } ∷ [] };

    ghost gives = { λ H one given new. IsEntered H (record { command = one.command.now; at = one.at }) given };

    ghost stays = { λ old new. ⊤ };

    ghost still = { λ x. tt };

    fn decide(
        &mut self,
        _alloc: Global,
        farm: &mut Farm,
    ) -> Result<Result<Option<LeasedRun>, Refusal>, Memory> {
        match farm.enter(self.command, self.at) {
            Ok(run) => Ok(Ok(run)),
            Err(CoreFault::Refused(refusal)) => Ok(Err(refusal)),
            Err(CoreFault::Memory) => Err(Memory),
        }
    }
}

/// A list of asks.
#[derive(Drop)]
pub struct AskList<'a> {
    pub asks: &'a [Ask],
}

impl<'a> Deciding for AskList<'a> {
    type Given = Answers;

    ghost asks = { λ list. list.asks.now };

    ghost gives = { λ H list given new. AreAnswers H list.asks.now given };

    ghost stays = { λ old new. ⊤ };

    ghost still = { λ x. tt };

    fn decide(&mut self, alloc: Global, farm: &mut Farm) -> Result<Answers, Memory> {
        answer_all(alloc, farm, self.asks)
    }
}

/// The asks of several callers.
#[derive(Drop)]
pub struct AskParts<'a> {
    pub parts: &'a mut [Part],
}

impl<'a> Deciding for AskParts<'a> {
    type Given = ();

    ghost asks = { λ all. all_asks all.parts.now };

    ghost gives = { λ H all given new. AreGiven H all.parts.now new.parts.now };

    ghost stays = { λ old new. (new.parts.ghost_name ≡ old.parts.ghost_name)
        × (map (λ part. part.asks) new.parts.now ≡ map (λ part. part.asks) old.parts.now) };

    ghost still = { λ x. (refl, refl) };

    fn decide(&mut self, alloc: Global, farm: &mut Farm) -> Result<(), Memory> {
        answer_parts(alloc, farm, self.parts)
    }
}
