//! Entries of a page beside those that are held.

ghost use Rattle.std.specs.Prelude.{◌≡◌, ◌≢◌, ◌<◌, ◌↔◌, length, take, slice_get, IfSome, IsTrue, None};

use farm_entry::Entry;

/// The index of the first entry that isn't the one held in its place, as far as both go.
pub(crate) fn first_difference(held: &[Entry], page: &[Entry]) -> Option<usize>
    ensures same { result ≡ None → take (length held.now) page.now ≡ take (length page.now) held.now }
    ensures within { IfSome result (λ i. (i < length held.now) × (i < length page.now)) }
    ensures before { IfSome result (λ i. take i page.now ≡ take i held.now) }
    ensures differs { IfSome result (λ i. slice_get page.now i ≢ slice_get held.now i) }
{
    let both = held.len().min(page.len());
    for i in 0..both {
        if !is_same(&held[i], &page[i]) {
            return Some(i);
        }
    }
    None
}

fn is_same(one: &Entry, other: &Entry) -> bool
    ensures { IsTrue result ↔ (one.now ≡ other.now) }
{
    *one == *other
}
