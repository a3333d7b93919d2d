//! When a command is answered as before.
ghost use Rattle.std.specs.Prelude.{◌≡◌, ◌≢◌, ◌↔◌, ℕ, ◌≤◌, false, List, slice_get, Some, None};
ghost use Rattle.farm_entry.specs.Decision.{decide};
ghost use Rattle.farm_entry.specs.History.{carried_in, is_closing};
ghost use Rattle.farm_entry.specs.Legal.{IsLegal, command_of};
ghost use Rattle.leaf_laws.specs.Causes.{AsksTheSame, IsWhat, run_told};
ghost use Rattle.leaf_laws.specs.Spelled.{IsSpelledOtherwise};

use farm_entry::{Command, Decision, Entry, OpenAsk, Refusal};
use farm_types::Moment;

/// A command is answered as an earlier one was, by the place of its entry, exactly where that entry is what the command
/// asks for: its kind, its key and its contents are the same. An open whose rates are spelled otherwise asks for the
/// same search, and a report of a run that has a report asks for that one, whatever either says of the run.
pub fn repeats_are_of_the_same_command()
    ensures { (H : List Entry) (q : Command) (m : Moment) (place : ℕ) → IsLegal H
        → (decide H q m ≡ Decision.Repeat place) ↔ ((e : Entry) × (slice_get H place ≡ Some e) × IsWhat e q) }
{}

/// What asks for the same as a command that is answered as before is answered as before too, by the same place and at
/// every moment: a report of the run with either verdict or with none, and an open with its rates spelled otherwise.
pub fn repeats_hold_for_all_that_ask_the_same()
    ensures same { (H : List Entry) (q p : Command) (m n : Moment) (place : ℕ) → IsLegal H → AsksTheSame q p
        → decide H q m ≡ Decision.Repeat place → decide H p n ≡ Decision.Repeat place }
    ensures reports { (H : List Entry) (run place : ℕ) (q p : Command) (m n : Moment) → IsLegal H
        → run_told q ≡ Some run → run_told p ≡ Some run
        → decide H q m ≡ Decision.Repeat place → decide H p n ≡ Decision.Repeat place }
    ensures opens { (H : List Entry) (ask other : OpenAsk) (m n : Moment) (place : ℕ) → IsLegal H
        → IsSpelledOtherwise ask other → decide H (Command.Open ask) m ≡ Decision.Repeat place
        → decide H (Command.Open other) n ≡ Decision.Repeat place }
{}

/// Each entry past the founding names a command, which is answered by the entry's place at every moment, unless it is an
/// order that was carried over or the closing. What names no command is nobody's command: none is answered by its
/// place, and no key is taken by it. So it is with the founding, with carried orders and with a closing.
pub fn entries_past_the_founding_are_repeated()
    ensures past { (H : List Entry) (place : ℕ) (e : Entry) → IsLegal H → slice_get H place ≡ Some e → 1 ≤ place
        → carried_in e.what ≡ None → is_closing e.what ≡ false
        → (q : Command) × (command_of e.what ≡ Some q) × ((m : Moment) → decide H q m ≡ Decision.Repeat place) }
    ensures no_repeat { (H : List Entry) (place : ℕ) (e : Entry) (q : Command) (m : Moment) → IsLegal H
        → slice_get H place ≡ Some e → command_of e.what ≡ None → decide H q m ≢ Decision.Repeat place }
    ensures no_clash { (H : List Entry) (place : ℕ) (e : Entry) (q : Command) (m : Moment) → IsLegal H
        → slice_get H place ≡ Some e → command_of e.what ≡ None
        → decide H q m ≢ Decision.Refuse (Refusal.KeyClash place) }
{}
