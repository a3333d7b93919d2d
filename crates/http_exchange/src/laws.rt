//! What a whole response is. A function here does nothing: its contract is the law.
ghost use Rattle.std.specs.Prelude.{◌≡◌, ℕ, List, ◌++◌};
ghost use Rattle.http_exchange.specs.Whole.{IsWhole};

/// Bytes begin with at most one whole response, and still do when more follow.
pub fn a_whole_response_stays()
    ensures one { (bytes : List ℕ) (status other : ℕ) (body text : List ℕ) → IsWhole bytes status body
        → IsWhole bytes other text → (status ≡ other) × (body ≡ text) }
    ensures stays { (bytes more : List ℕ) (status : ℕ) (body : List ℕ) → IsWhole bytes status body
        → IsWhole (bytes ++ more) status body }
{}
