//! What holds of every text, each law the contract of a call that does nothing.

ghost use Rattle.std.specs.Prelude.{◌≡◌, ◌<◌, Err, List, length, ℕ};
ghost use Rattle.farm_types.specs.declared.moment.Moment.{Moment};
ghost use Rattle.farm_entry.specs.Answer.{IsAnswer};
ghost use Rattle.farm_entry.specs.Decision.{decide};
ghost use Rattle.farm_entry.specs.Legal.{IsLegal};
ghost use Rattle.farm_entry.specs.Playing.{after};
ghost use Rattle.farm_entry.specs.declared.answer.Answer.{Answer};
ghost use Rattle.farm_entry.specs.declared.command.Command.{Command};
ghost use Rattle.farm_entry.specs.declared.entry.Entry.{Entry};
ghost use Rattle.farm_wire.specs.Answers.{AnswerHasDates, answer_text, decision_text};
ghost use Rattle.farm_wire.specs.Reading.{line_reading};
ghost use Rattle.farm_wire.specs.declared.fault.WireFault.TheVariants.{TooLong};
ghost use Rattle.farm_wire.specs.declared.limits.TheConstants.{MAX_COMMAND_BYTES};

/// That a line is too long is told by its length alone, so by its first [`MAX_COMMAND_BYTES`](crate::MAX_COMMAND_BYTES)
/// bytes and one more.
pub fn too_long_lines()
    ensures { (line : List ℕ) → MAX_COMMAND_BYTES < length line → line_reading line ≡ Err TooLong }
{}

/// An answer to a command has the text of what the command comes to.
pub fn answers_have_one_text()
    ensures { (H : List Entry) (q : Command) (m : Moment) (a : Answer) → IsAnswer H (decide H q m) a
        → answer_text a ≡ decision_text H (decide H q m) }
{}

/// Where the history with what a command adds to it is legal, the days that its answer shows have dates.
pub fn answers_have_dates()
    ensures { (H : List Entry) (q : Command) (m : Moment) (a : Answer) → IsLegal (after H (decide H q m))
        → IsAnswer H (decide H q m) a → AnswerHasDates a }
{}
