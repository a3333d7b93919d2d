//! What holds of every script and of every run, each law the contract of a call that does nothing.

ghost use Rattle.std.specs.Prelude.{◌≡◌, ◌≢◌, ◌++◌, ℕ, List, [], All};
ghost use Rattle.farm_entry.specs.Legal.{IsLegal};
ghost use Rattle.farm_entry.specs.declared.entry.Entry.{Entry};
ghost use Rattle.farm_script.specs.FarmRule.{farm_rule};
ghost use Rattle.farm_script.specs.Lines.{LINE_FEED, ended_lines, joined, lines, rest_of};
ghost use Rattle.farm_script.specs.Script.{history_of};

/// The lines that end in a text and what follows them make up the text, and no line feed is in any of them.
pub fn lines_make_up_their_text()
    ensures whole { (bytes : List ℕ) → joined (ended_lines bytes) ++ rest_of bytes ≡ bytes }
    ensures ended { (bytes : List ℕ) → All (All (λ b. b ≢ LINE_FEED)) (ended_lines bytes) }
    ensures rest { (bytes : List ℕ) → All (λ b. b ≢ LINE_FEED) (rest_of bytes) }
{}

/// The lines that end in what was taken of a text are the first ones of the text. So what is put for them is a prefix
/// of what the whole script puts.
pub fn lines_taken_are_the_first()
    ensures { (taken further : List ℕ) →
        (others : List (List ℕ)) × (lines (taken ++ further) ≡ ended_lines taken ++ others) }
{}

/// A script leaves a legal history where it began with one.
pub fn scripts_leave_legal_histories()
    ensures { (history : List Entry) (answered : List (List ℕ)) → IsLegal history
        → IsLegal (history_of farm_rule history answered) }
{}
