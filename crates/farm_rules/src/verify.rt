//! The state of a verification.

ghost use Rattle.std.specs.Prelude.{◌≡◌, ◌≢◌, ◌↔◌, ◌⊎◌, ◌+◌, ◌-◌, ◌<◌, ◌≤◌, ◌++◌, ◌∷◌, [], List, false, not};
ghost use Rattle.farm_rules.specs.Reruns.{counts, is_against, outcome as outcome_of, reruns_at, after_rerun};
ghost use Rattle.weight_exact.specs.declared.run.Run.{Run};
ghost use Rattle.farm_rules.specs.StandsFor.{StandsFor, counted_at};
ghost use Rattle.farm_rules.specs.Answer.{said, answer};

use crate::Outcome;
use std::marker::Model;
use weight_exact::Verdict;

/// The verification of a culprit, in the midst of its reruns. A side is a position: the culprit's own, where the
/// culprit is in the tree, and its parent's just below it, where it isn't.
#[derive(Clone, Copy)]
pub struct Verify {
    culprit: u16,
    asked: u8,
    at_culprit: u8,
    at_parent: u8,
    against: bool,
}

impl Model for Verify {
    ghost use Rattle.farm_rules.specs.Verification.{Verification, IsVerification};

    ghost Value = { Verification };

    ghost view = { λ v. record {
      culprit = v.culprit;
      asked = v.asked;
      at_culprit = v.at_culprit;
      at_parent = v.at_parent;
      against = v.against;
    } };

    ghost invariant = { λ v. IsVerification v.culprit v.asked v.at_culprit v.at_parent };

    ghost inverse = { λ v. record {
      culprit = v.culprit;
      asked = v.asked;
      at_culprit = v.at_culprit;
      at_parent = v.at_parent;
      against = v.against;
    } };
}

impl Verify {
    /// The verification of the suspect at position `culprit`, before any rerun, with so many reruns asked for on each
    /// side. With none asked for it is over at once, the culprit is confirmed, and every rerun is late.
    pub fn start(culprit: u16, reruns: u8) -> Verify
        requires { 1 ≤ culprit }
        ensures culprit { result.culprit ≡ culprit }
        ensures asked { result.asked ≡ reruns }
        ensures none_yet { StandsFor result [] }
    {
        Verify {
            culprit,
            asked: reruns,
            at_culprit: 0,
            at_parent: 0,
            against: false,
        }
    }

    /// Takes in a rerun at the culprit's position or at its parent's.
    pub fn note(&mut self, position: u16, verdict: Verdict) -> Outcome
        requires side { (position ≡ self.old.culprit) ⊎ (position + 1 ≡ self.old.culprit) }
        ensures answer { (reruns : List Run) → StandsFor self.old reruns
            → result ≡ answer self.old.culprit self.old.asked reruns (record { position = position; verdict = verdict }) }
        ensures late { (reruns : List Run) → StandsFor self.old reruns → ((result ≡ Outcome.Late)
            ↔ (counts self.old.culprit self.old.asked reruns (record { position = position; verdict = verdict }) ≡ false)) }
        ensures unchanged { result ≡ Outcome.Late → self.new ≡ self.old }
        ensures counted { (reruns : List Run) → StandsFor self.old reruns → StandsFor self.new
            (after_rerun self.old.culprit self.old.asked reruns (record { position = position; verdict = verdict })) }
        ensures culprit { self.new.culprit ≡ self.old.culprit }
        ensures asked { self.new.asked ≡ self.old.asked }
    {
        if self.is_late(position) {
            return Outcome::Late;
        }
        self.count(position, verdict);
        self.outcome()
    }

    /// How many reruns counted at the culprit's position, and how many at its parent's: on each side at most as many as
    /// were asked for.
    pub fn counts(&self) -> (u8, u8)
        ensures at_culprit { result.0 ≡ self.now.at_culprit }
        ensures at_parent { result.1 ≡ self.now.at_parent }
        ensures reruns_at_culprit { (reruns : List Run) → StandsFor self.now reruns
            → result.0 ≡ reruns_at self.now.culprit reruns }
        ensures reruns_at_parent { (reruns : List Run) → StandsFor self.now reruns
            → result.1 ≡ reruns_at (self.now.culprit - 1) reruns }
        ensures culprit_within { result.0 ≤ self.now.asked }
        ensures parent_within { result.1 ≤ self.now.asked }
    {
        (self.at_culprit, self.at_parent)
    }

    /// What the reruns that counted come to.
    fn outcome(&self) -> Outcome
        ensures said { (reruns : List Run) → StandsFor self.now reruns
            → result ≡ said (outcome_of self.now.culprit self.now.asked reruns) }
        ensures never_late { result ≢ Outcome.Late }
    {
        if self.against {
            Outcome::Vindicated
        } else if self.asked <= self.at_culprit && self.asked <= self.at_parent {
            Outcome::Confirmed
        } else {
            Outcome::Open
        }
    }

    /// Whether a rerun at this position is late.
    fn is_late(&self, position: u16) -> bool
        requires { (position ≡ self.now.culprit) ⊎ (position + 1 ≡ self.now.culprit) }
        ensures late { (reruns : List Run) → StandsFor self.now reruns → (r : Run) → r.position ≡ position
            → result ≡ not (counts self.now.culprit self.now.asked reruns r) }
        ensures room { result ≡ false → counted_at self.now position < self.now.asked }
    {
        match self.outcome() {
            Outcome::Open => self.asked <= self.counted_at(position),
            _ => true,
        }
    }

    /// How many reruns counted at this position.
    fn counted_at(&self, position: u16) -> u8
        ensures { result ≡ counted_at self.now position }
    {
        if position == self.culprit {
            self.at_culprit
        } else {
            self.at_parent
        }
    }

    /// Counts a rerun whose side has room for it.
    fn count(&mut self, position: u16, verdict: Verdict)
        requires side { (position ≡ self.old.culprit) ⊎ (position + 1 ≡ self.old.culprit) }
        requires room { counted_at self.old position < self.old.asked }
        ensures counted { (reruns : List Run) → StandsFor self.old reruns
            → StandsFor self.new (reruns ++ record { position = position; verdict = verdict } ∷ []) }
        ensures culprit { self.new.culprit ≡ self.old.culprit }
        ensures asked { self.new.asked ≡ self.old.asked }
    {
        self.against |= self.is_against(position, verdict);
        if position == self.culprit {
            self.at_culprit += 1;
        } else {
            self.at_parent += 1;
        }
    }

    /// Whether a rerun speaks against the culprit.
    fn is_against(&self, position: u16, verdict: Verdict) -> bool
        requires { (position ≡ self.now.culprit) ⊎ (position + 1 ≡ self.now.culprit) }
        ensures { result ≡ is_against self.now.culprit (record { position = position; verdict = verdict }) }
    {
        match verdict {
            Verdict::Pass => position == self.culprit,
            Verdict::Fail => position != self.culprit,
        }
    }
}
