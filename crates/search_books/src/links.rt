//! The links of a ring of numbers.

ghost use Rattle.std.specs.Prelude.{ℕ, ◌≡◌, ◌≢◌, ◌<◌, List, ◌∷◌, true, false, length};
ghost use Rattle.std.specs.Vec.{vec_capacity};
ghost use Rattle.search_books.specs.Rings.{after_of, before_of, IsLow, IsRing};
ghost use Rattle.search_books.specs.Order.{has, put_behind, strike};

/// The numbers right behind and right in front of one.
#[derive(Clone, Copy)]
pub(crate) struct Link {
    pub(crate) after: usize,
    pub(crate) before: usize,
}

/// The number right behind one.
pub(crate) fn after(links: &[Link], at: usize) -> usize
    requires { at < length links.now }
    ensures { result ≡ after_of links.now at }
{
    links[at].after
}

/// The number right in front of one.
pub(crate) fn before(links: &[Link], at: usize) -> usize
    requires { at < length links.now }
    ensures { result ≡ before_of links.now at }
{
    links[at].before
}

/// Sets the number right behind one.
pub(crate) fn set_after(links: &mut Vec<Link>, at: usize, to: usize)
    requires { at < length links.old.items }
    ensures here { after_of links.new.items at ≡ to }
    ensures others { (i : ℕ) → i ≢ at → after_of links.new.items i ≡ after_of links.old.items i }
    ensures before { (i : ℕ) → before_of links.new.items i ≡ before_of links.old.items i }
    ensures len { length links.new.items ≡ length links.old.items }
    ensures capacity { vec_capacity links.new ≡ vec_capacity links.old }
{
    links[at].after = to;
}

/// Sets the number right in front of one.
pub(crate) fn set_before(links: &mut Vec<Link>, at: usize, to: usize)
    requires { at < length links.old.items }
    ensures here { before_of links.new.items at ≡ to }
    ensures others { (i : ℕ) → i ≢ at → before_of links.new.items i ≡ before_of links.old.items i }
    ensures after { (i : ℕ) → after_of links.new.items i ≡ after_of links.old.items i }
    ensures len { length links.new.items ≡ length links.old.items }
    ensures capacity { vec_capacity links.new ≡ vec_capacity links.old }
{
    links[at].before = to;
}

/// Takes a number out of its ring.
pub(crate) fn cut(links: &mut Vec<Link>, number: usize)
    requires at { number < length links.old.items }
    requires low { IsLow links.old.items }
    ensures ring { (xs : List ℕ) → IsRing links.old.items xs → has number xs ≡ true
        → IsRing links.new.items (strike number xs) }
    ensures len { length links.new.items ≡ length links.old.items }
    ensures capacity { vec_capacity links.new ≡ vec_capacity links.old }
{
    let next = after(links, number);
    let prior = before(links, number);
    set_after(links, prior, next);
    set_before(links, next, prior);
    set_after(links, number, number);
    set_before(links, number, number);
}

/// Puts a number behind another one, or in front of all behind 0.
pub(crate) fn join(links: &mut Vec<Link>, prior: usize, number: usize)
    requires prior { prior < length links.old.items }
    requires at { number < length links.old.items }
    requires low { IsLow links.old.items }
    ensures ring { (xs : List ℕ) → IsRing links.old.items xs → has prior (0 ∷ xs) ≡ true
        → has number (0 ∷ xs) ≡ false → IsRing links.new.items (put_behind prior number 0 xs) }
    ensures len { length links.new.items ≡ length links.old.items }
    ensures capacity { vec_capacity links.new ≡ vec_capacity links.old }
{
    let next = after(links, prior);
    set_after(links, prior, number);
    set_after(links, number, next);
    set_before(links, next, number);
    set_before(links, number, prior);
}
