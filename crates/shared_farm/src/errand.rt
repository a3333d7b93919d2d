//! Calls that whoever has the turn makes for those who wait.
ghost use Rattle.shared_farm.specs.Errands.{IsErrand};
ghost use Rattle.shared_farm.specs.Outcomes.{IsDone};

use crate::beginning::Beginning;
use crate::locked::Locked;
use common_types::Past;
use farm_board::{JobRule, JobTable, Taken};
use farm_disk::DatedDisk;
use farm_store::{Answers, Ask, CallFault};
use std::marker::PhantomData;
use turn_lock::{Pass, TurnLock};

/// The lock of a farm. In a box, so that a turn takes and gives back a pointer, and moves neither the store nor the
/// board.
pub type FarmLock<D, B> = TurnLock<Box<Locked<D, B>>>;

/// A batch that its caller lets another one ask: the caller's pass, which goes along, and the asks.
#[derive(Drop)]
pub struct Errand {
    pub pass: Pass,
    pub asks: Vec<Ask>,
}

/// What an errand came to: the pass after its turn, the asks again, the answers, and a moment of the disk that was over
/// after the turn, by which all that the pass has seen stood.
#[derive(Drop)]
pub struct ErrandOutcome<O> {
    pub pass: Pass,
    pub asks: Vec<Ask>,
    pub result: Result<Answers, CallFault>,
    pub over: O,
}

/// An errand that was taken over, without its asks.
pub struct Helped<K, O> {
    pub taken: Taken<K, Errand, ErrandOutcome<O>>,
    pub pass: Pass,
}

/// What errands and their outcomes hold to, of the farm with this lock: the outcome is what the caller's own call could
/// have come to.
pub struct ByTurns<D, B> {
    marker: PhantomData<(D, B)>,
}

impl<D: DatedDisk, B: Beginning> JobRule<FarmLock<D, B>, Errand, ErrandOutcome<D::Over>>
    for ByTurns<D, B> {
    ghost may = { λ key errand. IsErrand key errand };

    ghost says = { λ key errand outcome. IsDone D.count D.Over.at key errand outcome };
}

/// The errands of a farm's callers. `O` are the moments of its disk.
pub type Errands<D, B, O> = JobTable<FarmLock<D, B>, Errand, ErrandOutcome<O>, ByTurns<D, B>>;
