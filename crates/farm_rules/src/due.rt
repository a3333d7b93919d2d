//! The position to run next.

ghost use Rattle.std.specs.Prelude.{ℕ, ◌≡◌, ◌↔◌, ◌+◌, ◌≤◌, nat_lt, List, [], ◌∷◌, ◌++◌, length, true, false, Some, IsNone};
ghost use Rattle.farm_rules.specs.Due.{due_search, due_verify, first_entry, struck, times_at};

/// The position that a searching search is to run next: the first entry of its plan that no outstanding run stands for.
///
/// A position stands in `plan` as often as it is to run, and in `outstanding` as often as it runs. Each outstanding run
/// stands for one entry at its position, the first that is left; one at a position that the plan no longer has stands
/// for none, but takes up room all the same. Nothing is due where as many runs are outstanding as the plan has entries.
///
/// It takes no memory. It compares each entry, up to the one that is due, with the entries before it and with all that
/// is outstanding: a plan is short.
pub fn due_search(plan: &[u16], outstanding: &[u16]) -> Option<u16>
    ensures due { result ≡ due_search plan.now outstanding.now }
    ensures full { IsNone result ↔ (length plan.now ≤ length outstanding.now) }
{
    if plan.len() <= outstanding.len() {
        return None;
    }
    for (index, position) in plan.iter().enumerate() {
        if is_left(*position, &plan[..index], outstanding) {
            return Some(*position);
        }
    }
    None
}

/// Whether the next entry of a plan, at `position`, is left, where outstanding runs stand for each entry `before` it:
/// it is, where as many entries before it stand at its position as runs are outstanding there. What comes after it in
/// the plan doesn't matter, so a plan can be made entry by entry, up to the one that is due.
pub fn is_left(position: u16, before: &[u16], outstanding: &[u16]) -> bool
    requires { struck before.now outstanding.now ≡ [] }
    ensures left { result ≡ true → (after : List ℕ) →
        first_entry (struck (before.now ++ position ∷ after) outstanding.now) ≡ Some position }
    ensures struck { result ≡ false → struck (before.now ++ position ∷ []) outstanding.now ≡ [] }
{
    times_at(position, outstanding) <= times_at(position, before)
}

/// The position that a verifying search is to run next: the culprit's, and then its parent's, which is the tree just
/// below it. Each is due while the reruns counted there and the runs outstanding there are fewer than `reruns`, the
/// number asked for on each side.
///
/// That a suspect is taken for the culprit once it failed again and its parent passed again is how LUCI's bisection
/// verifies what it names.
pub fn due_verify(
    culprit: u16,
    at_culprit: u8,
    at_parent: u8,
    outstanding: &[u16],
    reruns: u8,
) -> Option<u16>
    requires { 1 ≤ culprit }
    ensures { result ≡ due_verify culprit at_culprit at_parent outstanding.now reruns }
{
    let parent = culprit - 1;
    if is_short(culprit, at_culprit, outstanding, reruns) {
        Some(culprit)
    } else if is_short(parent, at_parent, outstanding, reruns) {
        Some(parent)
    } else {
        None
    }
}

/// Whether the reruns counted at a position and the runs outstanding there are fewer than those asked for.
fn is_short(position: u16, counted: u8, outstanding: &[u16], asked: u8) -> bool
    ensures { result ≡ nat_lt (counted + times_at position outstanding.now) asked }
{
    usize::from(counted) + times_at(position, outstanding) < usize::from(asked)
}

/// How often a position stands in a list.
fn times_at(position: u16, positions: &[u16]) -> usize
    ensures { result ≡ times_at position positions.now }
{
    positions.iter().filter(|p| **p == position).count()
}
