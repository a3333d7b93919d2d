//! The turns of those whose batches were asked at another caller's turn.
ghost use Rattle.std.specs.Prelude.{◌≡◌, ◌≤◌, [], false, Some, length, take};
ghost use Rattle.common_types.specs.Prefix.{IsPrefix};
ghost use Rattle.common_types.specs.Rows.{IsOlder};
ghost use Rattle.turn_lock.specs.Known.{AccountsFor, IsReady, IsSettled, known_after};
ghost use Rattle.turn_lock.specs.Places.{ArePlaces};
ghost use Rattle.shared_farm.specs.Rounds.{AreHelped, IsShared};

use crate::beginning::Beginning;
use crate::errand::{ErrandOutcome, Errands, FarmLock, Helped};
use crate::locked::{Locked, has_failed};
use farm_disk::DatedDisk;
use farm_store::Part;
use std::alloc::Global;
use turn_lock::{Pass, Places, Turn};

/// Gives each of those whose asks share a record with these its turn and its answers, one after the other: the pass
/// that has the turn has then seen the first `shown` entries, and each other one the entries up to those of its asks.
/// The last one gives the turn back.
pub fn share_out<D: DatedDisk, B: Beginning>(
    lock: &FarmLock<D, B>,
    errands: &Errands<D, B, D::Over>,
    turn: Turn<Box<Locked<D, B>>>,
    pass: &mut Pass,
    shown: usize,
    parts: &mut Vec<Part>,
    group: &mut Vec<Helped<FarmLock<D, B>, D::Over>>,
)
    requires key { errands.now.key ≡ lock.now }
    requires own { turn.before.pass.lock ≡ lock.now }
    requires out { pass.old.ready ≡ false }
    requires grown { IsPrefix turn.before.taken.entries (take shown turn.value.value.store.history) }
    requires faults { turn.before.taken.count ≤ D.count turn.value.value.store.disk }
    requires settled { IsSettled (Some turn.before.taken.pending) turn.before.taken.count
        (D.count turn.value.value.store.disk) turn.value.value.store.pending }
    requires places { ArePlaces (length turn.before.taken.entries)
        (length (take shown turn.value.value.store.history)) turn.own }
    requires shared { IsShared turn.value.value.store shown parts.old.items }
    requires logged { IsOlder turn.before.log turn.value.value.log }
    requires helped { AreHelped lock.now errands.now parts.old.items group.old.items }
    requires owned { AccountsFor turn.before.taken (take shown turn.value.value.store.history)
        turn.value.value.store.pending turn.own turn.failed }
    ensures pass { pass.new ≡ known_after lock.now turn.before (take shown turn.value.value.store.history) turn.own
        (D.count turn.value.value.store.disk) turn.value.value.store.pending turn.value.value.log turn.failed }
    ensures all { group.new.items ≡ [] }
{
    if group.is_empty() {
        lock.back(turn, pass);
        return;
    }
    let Helped {
        taken,
        pass: mut next,
    } = group.remove(0);
    let Part { asks, answers, end } = parts.remove(0);
    let mut turn = lock.hand_on(turn, pass, &mut next, shown);
    turn.own = Places::run(shown, end - shown);
    let over = turn.value.passed();
    share_out(lock, errands, turn, &mut next, end, parts, group);
    errands.answer(
        taken,
        ErrandOutcome {
            pass: next,
            asks,
            result: Ok(answers),
            over,
        },
    );
}

/// Asks the batch of each of those at a turn of its own, one after the other, and gives it its answers. The last one
/// gives the turn back.
pub fn ask_each<D: DatedDisk, B: Beginning>(
    lock: &FarmLock<D, B>,
    errands: &Errands<D, B, D::Over>,
    alloc: Global,
    turn: Turn<Box<Locked<D, B>>>,
    pass: &mut Pass,
    parts: &mut Vec<Part>,
    group: &mut Vec<Helped<FarmLock<D, B>, D::Over>>,
)
    requires key { errands.now.key ≡ lock.now }
    requires own { turn.before.pass.lock ≡ lock.now }
    requires out { pass.old.ready ≡ false }
    requires grown { IsPrefix turn.before.taken.entries turn.value.value.store.history }
    requires faults { turn.before.taken.count ≤ D.count turn.value.value.store.disk }
    requires settled { IsSettled (Some turn.before.taken.pending) turn.before.taken.count
        (D.count turn.value.value.store.disk) turn.value.value.store.pending }
    requires places { ArePlaces (length turn.before.taken.entries) (length turn.value.value.store.history) turn.own }
    requires logged { IsOlder turn.before.log turn.value.value.log }
    requires helped { AreHelped lock.now errands.now parts.old.items group.old.items }
    requires owned { AccountsFor turn.before.taken turn.value.value.store.history turn.value.value.store.pending
        turn.own turn.failed }
    ensures pass { pass.new ≡ known_after lock.now turn.before turn.value.value.store.history turn.own
        (D.count turn.value.value.store.disk) turn.value.value.store.pending turn.value.value.log turn.failed }
    ensures all { group.new.items ≡ [] }
{
    if group.is_empty() {
        lock.back(turn, pass);
        return;
    }
    let Helped {
        taken,
        pass: mut next,
    } = group.remove(0);
    let Part {
        asks,
        answers: _,
        end: _,
    } = parts.remove(0);
    let shown = turn.value.history().len();
    let mut turn = lock.hand_on(turn, pass, &mut next, shown);
    let result = turn.value.call_batch(alloc, &asks);
    turn.failed = has_failed(&result);
    turn.own = turn.value.own_places();
    let over = turn.value.passed();
    ask_each(lock, errands, alloc, turn, &mut next, parts, group);
    errands.answer(
        taken,
        ErrandOutcome {
            pass: next,
            asks,
            result,
            over,
        },
    );
}
