//! Texts of commit ids.
ghost use Rattle.std.specs.Prelude.{◌≡◌, ℕ, List, map, Ok};
ghost use Rattle.std.specs.Char.{to_ascii_lowercase};
ghost use Rattle.farm_types.specs.CommitId.{id_bytes, id_digits};
ghost use Rattle.hex.specs.Hex.{decode_of};

use farm_types::CommitId;

/// A text that is read as a commit id is written again in lower case; and what is written is read as the same id.
pub fn ids_are_written_in_lower_case()
    ensures lower { (text : List ℕ) (id : CommitId) → decode_of text ≡ Ok (id_bytes id)
        → id_digits id ≡ map to_ascii_lowercase text }
    ensures again { (id : CommitId) → decode_of (id_digits id) ≡ Ok (id_bytes id) }
{}
