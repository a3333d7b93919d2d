//! Batches of callers who share a record while turns are long.
ghost use Rattle.std.specs.Prelude.{◌≡◌, ◌<◌, ◌≤◌, ◌++◌, [], List, false, drop, length};
ghost use Rattle.farm_store.specs.declared.asking.Part.{Part};
ghost use Rattle.farm_store.specs.Sizes.{asks_size};
ghost use Rattle.farm_store.specs.Together.{all_asks};
ghost use Rattle.farm_store.specs.declared.asking.TheConstants.{MAX_BATCH, MAX_BATCH_BYTES, MAX_RECORD_BYTES};
ghost use Rattle.std.specs.Vec.{vec_capacity};
ghost use Rattle.common_types.specs.Rows.{IsOlder};
ghost use Rattle.turn_lock.specs.Known.{IsReady};
ghost use Rattle.shared_farm.specs.Errands.{IsErrand};
ghost use Rattle.shared_farm.specs.Logs.{IsOver};
ghost use Rattle.shared_farm.specs.Outcomes.{HadTurn, IsDone};
ghost use Rattle.shared_farm.specs.Rounds.{AreHelped, IsJustTaken, first_asks};
ghost use Rattle.shared_farm.specs.declared.sharing.TheConstants.{MOST_PARTS};

use crate::beginning::Beginning;
use crate::errand::{Errand, ErrandOutcome, Errands, FarmLock, Helped};
use crate::group_wait::GroupWait;
use crate::locked::{Locked, has_failed};
use crate::round::{ask_each, share_out};
use common_types::Past;
use farm_board::Posted;
use farm_disk::DatedDisk;
use farm_store::{Answers, Ask, CallFault, MAX_BATCH_BYTES, MAX_RECORD_BYTES, Part, most_bytes};
use std::alloc::Global;
use std::sync::Wait;
use std::{hint, mem};
use turn_lock::{Pass, Places, Turn};

/// The most callers who share a record.
pub const MOST_PARTS: usize = 16;

/// How often a caller looks after its errand before it sleeps.
const MOST_LOOKS: u32 = 64;

/// Asks a batch as an errand, which another caller may run. The asks come back as they are, and with the answers a
/// moment that is over, by which all that the pass has then seen stood.
pub fn hand_in<R: Wait, D: DatedDisk, B: Beginning>(
    rt: &R,
    lock: &FarmLock<D, B>,
    errands: &Errands<D, B, D::Over>,
    waits: &GroupWait,
    alloc: Global,
    pass: &mut Pass,
    asks: &mut Vec<Ask>,
) -> (Result<Answers, CallFault>, D::Over)
    requires key { errands.now.key ≡ lock.now }
    requires ready { IsReady lock.now pass.old }
    requires some { 1 ≤ length asks.old.items }
    requires few { length asks.old.items ≤ MAX_BATCH }
    ensures asks { asks.new.items ≡ asks.old.items }
    ensures had { HadTurn D.count lock.now asks.old.items result.0 pass.old pass.new }
    ensures over { IsOver (D.Over.at result.1) pass.new }
{
    let errand = Errand {
        pass: pass.take(),
        asks: mem::replace(asks, Vec::new(alloc)),
    };
    let ErrandOutcome {
        pass: mine,
        asks: same,
        result,
        over,
    } = run(rt, lock, errands, waits, alloc, errand);
    *pass = mine;
    *asks = same;
    (result, over)
}

/// Runs an errand at a turn of its pass, or has it run at another caller's turn where somebody has the turn.
fn run<R: Wait, D: DatedDisk, B: Beginning>(
    rt: &R,
    lock: &FarmLock<D, B>,
    errands: &Errands<D, B, D::Over>,
    waits: &GroupWait,
    alloc: Global,
    errand: Errand,
) -> ErrandOutcome<D::Over>
    requires key { errands.now.key ≡ lock.now }
    requires errand { IsErrand lock.now errand }
    ensures { IsDone D.count D.Over.at lock.now errand result }
{
    if lock.is_free() {
        return run_now(rt, lock, errands, waits, alloc, errand);
    }
    match errands.post(errand) {
        Ok(posted) => wait_for(rt, lock, errands, waits, alloc, posted),
        Err(errand) => run_now(rt, lock, errands, waits, alloc, errand),
    }
}

/// Waits for what an errand comes to, or runs it where nobody has the turn and nobody has taken it over.
fn wait_for<R: Wait, D: DatedDisk, B: Beginning>(
    rt: &R,
    lock: &FarmLock<D, B>,
    errands: &Errands<D, B, D::Over>,
    waits: &GroupWait,
    alloc: Global,
    posted: Posted<FarmLock<D, B>, Errand, ErrandOutcome<D::Over>>,
) -> ErrandOutcome<D::Over>
    requires key { errands.now.key ≡ lock.now }
    requires table { posted.table ≡ errands.now }
    requires errand { IsErrand lock.now posted.job }
    ensures { IsDone D.count D.Over.at lock.now posted.job result }
{
    let mut held = posted;
    for _ in rt.forever() {
        held = match errands.fetch(held) {
            Ok(outcome) => return outcome,
            Err(same) => same,
        };
        if lock.is_free() {
            held = match errands.retract(held) {
                Ok(errand) => return run_now(rt, lock, errands, waits, alloc, errand),
                Err(same) => same,
            };
        }
        rest(rt, lock, errands, &held);
    }
    unreachable!()
}

/// Waits until an errand is answered or nobody has the turn: it looks again and again at first, and then sleeps.
fn rest<R: Wait, D: DatedDisk, B: Beginning>(
    rt: &R,
    lock: &FarmLock<D, B>,
    errands: &Errands<D, B, D::Over>,
    posted: &Posted<FarmLock<D, B>, Errand, ErrandOutcome<D::Over>>,
) {
    for _ in 0..MOST_LOOKS {
        if errands.is_answered(posted) || lock.is_free() {
            return;
        }
        hint::spin_loop();
    }
    let key = errands.bell(posted).prepare_wait();
    if !errands.is_answered(posted) && !lock.is_free() {
        key.wait(rt);
    }
}

/// Runs an errand at a turn of its pass, and those of others who wait by then. One of those who came since goes on
/// afterwards.
fn run_now<R: Wait, D: DatedDisk, B: Beginning>(
    rt: &R,
    lock: &FarmLock<D, B>,
    errands: &Errands<D, B, D::Over>,
    waits: &GroupWait,
    alloc: Global,
    errand: Errand,
) -> ErrandOutcome<D::Over>
    requires key { errands.now.key ≡ lock.now }
    requires errand { IsErrand lock.now errand }
    ensures { IsDone D.count D.Over.at lock.now errand result }
{
    let outcome = run_with_others(rt, lock, errands, waits, alloc, errand);
    errands.ring_next();
    outcome
}

/// Asks a batch at one turn of a pass.
pub fn ask_alone<R: Wait, D: DatedDisk, B: Beginning>(
    rt: &R,
    lock: &FarmLock<D, B>,
    alloc: Global,
    pass: &mut Pass,
    asks: &[Ask],
) -> (Result<Answers, CallFault>, D::Over)
    requires ready { IsReady lock.now pass.old }
    requires some { 1 ≤ length asks.now }
    requires few { length asks.now ≤ MAX_BATCH }
    ensures had { HadTurn D.count lock.now asks.now result.0 pass.old pass.new }
    ensures over { IsOver (D.Over.at result.1) pass.new }
{
    let mut turn = lock.turn(rt, pass);
    let result = turn.value.call_batch(alloc, asks);
    turn.failed = has_failed(&result);
    turn.own = turn.value.own_places();
    let over = turn.value.passed();
    lock.back(turn, pass);
    (result, over)
}

/// Runs an errand at a turn of its pass, where there is no memory to have others with it.
fn run_alone<R: Wait, D: DatedDisk, B: Beginning>(
    rt: &R,
    lock: &FarmLock<D, B>,
    alloc: Global,
    errand: Errand,
) -> ErrandOutcome<D::Over>
    requires { IsErrand lock.now errand }
    ensures { IsDone D.count D.Over.at lock.now errand result }
{
    let Errand { mut pass, asks } = errand;
    let (result, over) = ask_alone(rt, lock, alloc, &mut pass, &asks);
    ErrandOutcome {
        pass,
        asks,
        result,
        over,
    }
}

/// Runs an errand at a turn of its pass, and those of others behind it, whose new entries share a record with its own.
fn run_with_others<R: Wait, D: DatedDisk, B: Beginning>(
    rt: &R,
    lock: &FarmLock<D, B>,
    errands: &Errands<D, B, D::Over>,
    waits: &GroupWait,
    alloc: Global,
    errand: Errand,
) -> ErrandOutcome<D::Over>
    requires key { errands.now.key ≡ lock.now }
    requires errand { IsErrand lock.now errand }
    ensures { IsDone D.count D.Over.at lock.now errand result }
{
    let Ok(mut parts) = Vec::with_capacity(alloc, MOST_PARTS) else {
        return run_alone(rt, lock, alloc, errand);
    };
    let Ok(mut group) = Vec::with_capacity(alloc, MOST_PARTS) else {
        return run_alone(rt, lock, alloc, errand);
    };
    let Errand { mut pass, asks } = errand;
    let turn = lock.turn(rt, &mut pass);
    waits.gather(errands);
    let first_bytes = most_bytes(&asks);
    parts.push_reserved(part_of(alloc, asks));
    take_over(errands, alloc, &mut parts, &mut group, first_bytes);
    let (asks, result, over) = share(lock, errands, waits, alloc, turn, &mut pass, parts, group);
    ErrandOutcome {
        pass,
        asks,
        result,
        over,
    }
}

/// A part with these asks, which has no answers yet.
fn part_of(alloc: Global, asks: Vec<Ask>) -> Part
    ensures { result.asks ≡ asks }
{
    Part {
        asks,
        answers: Answers::of(Vec::new(alloc)),
        end: 0,
    }
}

/// Takes over the errands of those who wait, one after the other while any batch is sure to fit the record, and adds a
/// part for each. The entries of the first part take so many bytes of the record at most.
fn take_over<D: DatedDisk, B: Beginning>(
    errands: &Errands<D, B, D::Over>,
    alloc: Global,
    parts: &mut Vec<Part>,
    group: &mut Vec<Helped<FarmLock<D, B>, D::Over>>,
    first_bytes: usize,
)
    requires one { length parts.old.items ≡ 1 }
    requires first { first_bytes ≡ asks_size (all_asks parts.old.items) }
    requires none { group.old.items ≡ [] }
    requires fits { first_bytes ≤ MAX_BATCH_BYTES }
    requires room { (MOST_PARTS ≤ vec_capacity parts.old) × (MOST_PARTS ≤ vec_capacity group.old) }
    ensures helped { (later : List Part) × (parts.new.items ≡ parts.old.items ++ later)
        × AreHelped errands.now.key errands.now later group.new.items }
    ensures few { length parts.new.items ≤ MOST_PARTS }
    ensures fits { asks_size (all_asks parts.new.items) ≤ MAX_RECORD_BYTES }
{
    let mut bytes = first_bytes;
    for _ in 1..MOST_PARTS {
        if MAX_RECORD_BYTES < bytes + MAX_BATCH_BYTES {
            return;
        }
        let Some((taken, errand)) = errands.take() else {
            return;
        };
        let Errand { pass, asks } = errand;
        bytes += most_bytes(&asks);
        parts.push_reserved(part_of(alloc, asks));
        group.push_reserved(Helped { taken, pass });
    }
}

/// Answers the asks of a caller and of those whose errands it took over, in one record, and gives each its turn. Where
/// the record couldn't be stored, the caller is told so, and the others' asks are asked one after the other.
fn share<D: DatedDisk, B: Beginning>(
    lock: &FarmLock<D, B>,
    errands: &Errands<D, B, D::Over>,
    waits: &GroupWait,
    alloc: Global,
    turn: Turn<Box<Locked<D, B>>>,
    pass: &mut Pass,
    parts: Vec<Part>,
    group: Vec<Helped<FarmLock<D, B>, D::Over>>,
) -> (Vec<Ask>, Result<Answers, CallFault>, D::Over)
    requires key { errands.now.key ≡ lock.now }
    requires own { turn.before.pass.lock ≡ lock.now }
    requires out { pass.old.ready ≡ false }
    requires some { 1 ≤ length (first_asks parts.items) }
    requires few { length parts.items ≤ MOST_PARTS }
    requires fits { asks_size (all_asks parts.items) ≤ MAX_RECORD_BYTES }
    requires helped { AreHelped lock.now errands.now (drop 1 parts.items) group.items }
    requires begins { IsJustTaken D.count turn.before turn.value.value.store }
    requires logged { IsOlder turn.before.log turn.value.value.log }
    requires nothing { turn.own ≡ [] }
    requires part { 0 < turn.before.pass.stake.parts }
    ensures asks { result.0.items ≡ first_asks parts.items }
    ensures had { HadTurn D.count lock.now (first_asks parts.items) result.1 turn.before.pass pass.new }
    ensures over { IsOver (D.Over.at result.2) pass.new }
{
    let mut turn = turn;
    let mut parts = parts;
    let mut group = group;
    let result = turn.value.call_together(alloc, &mut parts);
    turn.failed = has_failed(&result);
    let start = turn.value.history().len() - turn.value.recorded();
    waits.note(errands, parts.len(), turn.value.recorded());
    let over = turn.value.passed();
    let Part { asks, answers, end } = parts.remove(0);
    match result {
        Ok(()) => {
            turn.own = Places::run(start, end - start);
            share_out(lock, errands, turn, pass, end, &mut parts, &mut group);
            group.destroy_empty();
            (asks, Ok(answers), over)
        }
        Err(fault) => {
            ask_each(lock, errands, alloc, turn, pass, &mut parts, &mut group);
            group.destroy_empty();
            (asks, Err(fault), over)
        }
    }
}
