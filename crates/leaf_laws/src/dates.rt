//! Texts of days.
ghost use Rattle.std.specs.Prelude.{◌≡◌};
ghost use Rattle.jiff.specs.Types.{Date};
ghost use Rattle.jiff.specs.Words.{date_text, epoch_day};

/// There is one text for each day, and no text is that of two days.
pub fn days_and_their_texts_go_together()
    ensures one_text { (a b : Date) → epoch_day a ≡ epoch_day b → date_text a ≡ date_text b }
    ensures one_day { (a b : Date) → date_text a ≡ date_text b → epoch_day a ≡ epoch_day b }
{}
