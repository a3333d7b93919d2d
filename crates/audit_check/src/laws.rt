//! Facts about what bytes tell, each of them the contract of a call that does nothing.

ghost use Rattle.std.specs.Prelude.{◌≡◌, ℕ, List, Some};
ghost use Rattle.audit_check.specs.Told.{Told, entries_of, told};
ghost use Rattle.audit_check.specs.Verdict.{IsFinding};
ghost use Rattle.entry_codec.specs.Grammar.{AreSpelled};
ghost use Rattle.entry_codec.specs.Spelling.{spelling};
ghost use Rattle.hex.specs.Hex.{IsBytes};

use crate::finding::Finding;
use farm_entry::Entry;

/// The entries of a payload are those that the codec spells with these bytes, and there are no others.
pub fn payloads_are_spelled()
    ensures read { (payload : List ℕ) (H : List Entry) → IsBytes payload → entries_of payload ≡ Some H
        → AreSpelled H × (payload ≡ spelling H) }
    ensures again { (H : List Entry) → AreSpelled H → entries_of (spelling H) ≡ Some H }
{}

/// Bytes have one finding.
pub fn findings_are_unique()
    ensures { (bytes : List ℕ) (a b : Finding) → IsFinding bytes a → IsFinding bytes b → a ≡ b }
{}
