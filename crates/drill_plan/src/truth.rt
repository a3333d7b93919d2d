//! What is true of the searches of a drill.

ghost use Rattle.std.specs.Prelude.{◌≡◌, Some};
ghost use Rattle.drill_plan.specs.Plan.{planned_culprit, planned_suspects, planned_verdict, verdict_with};

use weight_exact::Verdict;

/// How many suspects a search has.
pub fn planned_suspects(search: u32) -> u32
    ensures { result ≡ planned_suspects search }
{
    20 + (37 * u64::from(search) % 81) as u32
}

/// The position of the true culprit of a search, if it has one.
pub fn planned_culprit(search: u32) -> Option<u32>
    ensures { result ≡ planned_culprit search }
{
    if search % 5 == 0 {
        None
    } else {
        let suspects = u64::from(planned_suspects(search));
        Some(1 + (53 * u64::from(search) % suspects) as u32)
    }
}

/// What a run of a search says at a position: it fails exactly where the true culprit is in the tree.
pub fn planned_verdict(search: u32, position: u16) -> Verdict
    ensures { result ≡ planned_verdict search position }
{
    match planned_culprit(search) {
        Some(culprit) => verdict_with(culprit, u32::from(position)),
        None => Verdict::Pass,
    }
}

/// What a run says at a position where the culprit is at another one.
fn verdict_with(culprit: u32, position: u32) -> Verdict
    ensures { result ≡ verdict_with (Some culprit) position }
{
    if culprit <= position {
        Verdict::Fail
    } else {
        Verdict::Pass
    }
}
