//! Laws of orders, each a function with an empty body whose contract is the law.

ghost use Rattle.std.specs.Prelude.{ℕ, ◌≡◌, List, ◌∷◌, true};
ghost use Rattle.search_books.specs.Order.{has, strike, put_behind, prior_of, IsOnce};

/// What was taken out of a list can be put back where it was.
pub fn put_back()
    ensures { (s : ℕ) (xs : List ℕ) → IsOnce (0 ∷ xs) → has s xs ≡ true
        → put_behind (prior_of s 0 xs) s 0 (strike s xs) ≡ xs }
{}
