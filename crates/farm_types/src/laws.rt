//! Facts about what the values hold, each of them the contract of a call that does nothing.

ghost use Rattle.std.specs.Prelude.{◌≡◌, ◌↔◌, ℕ, List, length, Ok, None, IsTrue};
ghost use Rattle.std.specs.List.{AllPass};
ghost use Rattle.hex.specs.Hex.{decode_of, is_hex_digit};
ghost use Rattle.farm_types.specs.CommitId.{id_bytes, id_digits, id_fault, same_id};
ghost use Rattle.farm_types.specs.Limits.{IsName};
ghost use Rattle.farm_types.specs.Moment.{moment_ms};
ghost use Rattle.farm_types.specs.Name.{name_fault};

use crate::{CommitId, ID_DIGITS, Moment};

/// Ids are equal exactly where their bytes are, and `same_id` tells.
pub fn ids_equal_by_bytes()
    ensures same { (a b : CommitId) → id_bytes a ≡ id_bytes b → a ≡ b }
    ensures told { (a b : CommitId) → IsTrue (same_id a b) ↔ (a ≡ b) }
{}

/// A text names an id exactly where it has 40 bytes and each of them is a hexadecimal digit.
pub fn id_texts()
    ensures { (text : List ℕ) → (id_fault text ≡ None) ↔ ((length text ≡ ID_DIGITS) × AllPass is_hex_digit text) }
{}

/// The digits that an id writes name it: reading them gives it back.
pub fn digits_name_the_id()
    ensures taken { (id : CommitId) → id_fault (id_digits id) ≡ None }
    ensures back { (id : CommitId) → decode_of (id_digits id) ≡ Ok (id_bytes id) }
{}

/// A text is a name exactly where it has 1 to 200 bytes and each of them is a printable ASCII character.
pub fn name_texts()
    ensures { (text : List ℕ) → (name_fault text ≡ None) ↔ IsName text }
{}

/// Moments with the same number of milliseconds are equal.
pub fn moments_equal_by_number()
    ensures { (a b : Moment) → moment_ms a ≡ moment_ms b → a ≡ b }
{}
