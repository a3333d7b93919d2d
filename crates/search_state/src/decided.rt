//! Where a search stands by the hypothesis at the bar, by its reruns, and by what was skipped of it.

ghost use Rattle.std.specs.Prelude.{◌≡◌, ℕ, ◌+◌, ◌≤◌, nat_lt, ◌&&◌, false, List, [], None, Some, if◌then◌else◌};
ghost use Rattle.weight_exact.specs.Share.{reached};
ghost use Rattle.weight_exact.specs.Weights.{hypotheses};
ghost use Rattle.weight_exact.specs.declared.limits.TheConstants.{MAX_SUSPECTS, MAX_WIDTH};
ghost use Rattle.threshold_pick.specs.HiddenBlocks.{is_hidden};
ghost use Rattle.threshold_pick.specs.Open.{is_skipped};
ghost use Rattle.farm_rules.specs.Reruns.{Outcome as Ruling};
ghost use Rattle.threshold_pick.specs.CanPick.{CanPick};
ghost use Rattle.threshold_pick.specs.Picks.{open_pick_in};
ghost use Rattle.farm_rules.specs.Answer.{said};
ghost use Rattle.farm_entry.specs.Setup.{setup_of};
ghost use Rattle.farm_entry.specs.Standing.{standing_of_hidden, standing_of_outcome, standing_of_reached};
ghost use Rattle.farm_entry.specs.declared.standing.Standing.TheVariants.{Inconclusive, Searching, Verifying};
ghost use Rattle.search_state.specs.Begun.{IsBegunBy, IsBelieved, begun_standing, lacks_by};
ghost use Rattle.search_state.specs.SearchInside.{IsVerificationOf};

use farm_entry::{Opening, Standing};
use farm_rules::{Outcome, Verify};
use flake_rate::Bar;
use posterior::Belief;
use threshold_pick::{Skips, is_hidden, open_pick_uncounted};
use weight_exact::Run;

/// What follows of the belief of a search that has no reruns.
#[derive(Clone, Copy)]
pub(crate) struct Beginning {
    /// Where the search stands.
    pub(crate) standing: Standing,
    /// The first position of its plan, where one is open. Only in a search that is searching anybody reads it.
    pub(crate) first: Option<u16>,
    /// The verification of the suspect at the bar. Only in a search that verifies one anybody reads it.
    pub(crate) verification: Verify,
}

/// What follows of a belief and of what was skipped, for so many suspects, runs at once, and reruns on each side.
pub(crate) fn begun(
    belief: &Belief,
    skips: &Skips,
    bar: Bar,
    suspects: u16,
    width: u8,
    asked: u8,
) -> Beginning
    requires believed { (o : Opening) × (told : List Run) × IsBelieved o told belief.now bar suspects }
    requires some { 1 ≤ width }
    requires narrow { width ≤ MAX_WIDTH }
    ensures { (o : Opening) (told : List Run) → IsBelieved o told belief.now bar suspects → width ≡ o.width
        → asked ≡ o.reruns
        → IsBegunBy o told skips.now belief.now result.standing result.first result.verification }
{
    let standing = first_standing(belief, skips, bar, suspects);
    Beginning {
        standing,
        first: first_pick(standing, belief, skips, width),
        verification: first_verification(standing, asked),
    }
}

/// Where a search stands before any rerun.
fn first_standing(belief: &Belief, skips: &Skips, bar: Bar, suspects: u16) -> Standing
    requires { (o : Opening) × (told : List Run) × IsBelieved o told belief.now bar suspects }
    ensures { (o : Opening) (told : List Run) → IsBelieved o told belief.now bar suspects
        → result ≡ begun_standing o told skips.now }
{
    match belief.reached() {
        None => undecided_standing(belief, skips, bar),
        Some(hypothesis) => named_standing(hypothesis, skips, suspects),
    }
}

/// Where a search stands that no hypothesis of is at the bar.
fn undecided_standing(belief: &Belief, skips: &Skips, bar: Bar) -> Standing
    requires { (o : Opening) × (told : List Run) × (suspects : ℕ) × IsBelieved o told belief.now bar suspects
        × (reached (setup_of o) told ≡ None) }
    ensures { (o : Opening) (told : List Run) (suspects : ℕ) → IsBelieved o told belief.now bar suspects
        → reached (setup_of o) told ≡ None → result ≡ standing_of_hidden (is_hidden (setup_of o) told skips.now) }
{
    if skips.is_empty() {
        return Standing::Searching;
    }
    if is_hidden(belief.sums(), bar, skips) {
        Standing::Inconclusive
    } else {
        Standing::Searching
    }
}

/// Where a search stands that a hypothesis of is at the bar, before any rerun.
fn named_standing(hypothesis: u16, skips: &Skips, suspects: u16) -> Standing
    requires first { 1 ≤ hypothesis }
    requires last { hypothesis ≤ suspects + 1 }
    requires few { suspects ≤ MAX_SUSPECTS }
    ensures { (o : Opening) (told : List Run) → suspects + 1 ≡ hypotheses (setup_of o) → 1 ≤ o.reruns
        → result ≡ standing_of_reached o told skips.now [] (Some hypothesis) }
{
    if usize::from(hypothesis) == usize::from(suspects) + 1 {
        Standing::NoCulprit
    } else if skips.is_skipped(hypothesis) || skips.is_skipped(hypothesis - 1) {
        Standing::Inconclusive
    } else {
        Standing::Verifying(hypothesis)
    }
}

/// The first position of the plan of a search that is searching, where one is open.
fn first_pick(standing: Standing, belief: &Belief, skips: &Skips, width: u8) -> Option<u16>
    requires sums { standing ≡ Searching → CanPick belief.now.floor belief.now.sums }
    requires some { 1 ≤ width }
    requires narrow { width ≤ MAX_WIDTH }
    ensures { standing ≡ Searching → result ≡ open_pick_in belief.now.sums belief.now.floor skips.now 1 width }
{
    match standing {
        Standing::Searching => {
            open_pick_uncounted(belief.sums(), belief.floor(), skips, 1, width)
        }
        _ => None,
    }
}

/// The verification of a suspect that is to be verified, before any rerun.
fn first_verification(standing: Standing, asked: u8) -> Verify
    requires { (culprit : ℕ) → standing ≡ Verifying culprit → 1 ≤ culprit }
    ensures { (culprit : ℕ) → standing ≡ Verifying culprit → IsVerificationOf result culprit asked [] }
{
    match standing {
        Standing::Verifying(culprit) => Verify::start(culprit, asked),
        _ => Verify::start(1, asked),
    }
}

/// Where a search stands that verifies a suspect, after a rerun that counted was answered so. No side lacks reruns
/// then: none did before, and one has one more.
pub(crate) fn next_standing(standing: Standing, outcome: Outcome) -> Standing
    ensures { (culprit : ℕ) (ruling : Ruling) → standing ≡ Verifying culprit → outcome ≡ said ruling
        → result ≡ standing_of_outcome culprit false ruling }
{
    let Standing::Verifying(culprit) = standing else {
        return standing;
    };
    match outcome {
        Outcome::Confirmed => Standing::Confirmed(culprit),
        Outcome::Vindicated => Standing::Vindicated(culprit),
        Outcome::Open | Outcome::Late => standing,
    }
}

/// Where a search stands that verified a suspect, with one position more that was skipped.
pub(crate) fn standing_with_skip(
    standing: Standing,
    verification: &Verify,
    asked: u8,
    skips: &Skips,
) -> Standing
    requires { (culprit : ℕ) → standing ≡ Verifying culprit → (1 ≤ culprit) × (culprit ≤ MAX_SUSPECTS) }
    ensures { (culprit : ℕ) → standing ≡ Verifying culprit → result
        ≡ (if lacks_by culprit asked skips.now verification.now.at_culprit verification.now.at_parent
        then Inconclusive else Verifying culprit) }
{
    let Standing::Verifying(culprit) = standing else {
        return standing;
    };
    let (at_culprit, at_parent) = verification.counts();
    if lacks(skips, culprit, at_culprit, asked) || lacks(skips, culprit - 1, at_parent, asked) {
        Standing::Inconclusive
    } else {
        standing
    }
}

/// Whether a side with so many reruns lacks some that can't be made any more, since its position was skipped.
fn lacks(skips: &Skips, position: u16, counted: u8, asked: u8) -> bool
    requires { position ≤ MAX_SUSPECTS }
    ensures { result ≡ (is_skipped skips.now position && nat_lt counted asked) }
{
    counted < asked && skips.is_skipped(position)
}
