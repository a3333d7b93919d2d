//! Facts about spellings, each of them the contract of a call that does nothing.

ghost use Rattle.std.specs.Prelude.{◌≡◌, ℕ, ◌≤◌, ◌*◌, List, ◌++◌, length, Contains, All, Some};
ghost use Rattle.entry_codec.specs.Grammar.{AreSpelled, HasSpelling, IsBadAt, IsOpenedWithin, IsWithinLimits};
ghost use Rattle.entry_codec.specs.LogPage.{IsLongestFront, front_within};
ghost use Rattle.entry_codec.specs.Reading.{entry_at};
ghost use Rattle.entry_codec.specs.Spelling.{entry_bytes, spelling};
ghost use Rattle.entry_codec.specs.declared.limits.TheConstants.{MAX_ENTRY_BYTES};
ghost use Rattle.farm_entry.specs.History.{openings};
ghost use Rattle.farm_entry.specs.declared.entry.What.TheVariants.{Carried, Founded};
ghost use Rattle.hex.specs.Hex.{IsBytes};

use farm_entry::{Entry, Opening, Settings};
use farm_types::CommitId;

/// Reading and spelling are each other's inverse: what was spelled is read again, whatever stands after it, and what is
/// read of some bytes is spelled there.
pub fn reading_undoes_spelling()
    ensures again { (entry : Entry) (rest : List ℕ) → HasSpelling entry.what
        → entry_at (entry_bytes entry ++ rest) ≡ Some (entry, rest) }
    ensures spelled { (bytes rest : List ℕ) (entry : Entry) → IsBytes bytes → entry_at bytes ≡ Some (entry, rest)
        → HasSpelling entry.what × (bytes ≡ entry_bytes entry ++ rest) }
{}

/// No spelling begins another: where two entries begin the same bytes, they are one. So a list has one spelling, and a
/// spelling one list.
pub fn no_spelling_begins_another()
    ensures entries { (a b : Entry) (more others : List ℕ) → HasSpelling a.what → HasSpelling b.what
        → entry_bytes a ++ more ≡ entry_bytes b ++ others → (a ≡ b) × (more ≡ others) }
    ensures lists { (these those : List Entry) → AreSpelled these → AreSpelled those
        → spelling these ≡ spelling those → these ≡ those }
{}

/// Bytes have at most one fault, and the spelling of entries has none.
pub fn faults_are_unique()
    ensures one { (bytes : List ℕ) (a b : ℕ) → IsBadAt bytes a → IsBadAt bytes b → a ≡ b }
    ensures none { (bytes : List ℕ) (offset : ℕ) (entries : List Entry) → IsBadAt bytes offset → AreSpelled entries
        → bytes ≡ spelling entries → ⊥ }
{}

/// An entry has 9 to [`MAX_ENTRY_BYTES`](crate::MAX_ENTRY_BYTES) bytes, and entries at most as many times that. A
/// founding has exactly 17, and an order that was carried over exactly 33.
pub fn entries_are_short()
    ensures entry { (entry : Entry) → HasSpelling entry.what
        → (9 ≤ length (entry_bytes entry)) × (length (entry_bytes entry) ≤ MAX_ENTRY_BYTES) }
    ensures entries { (entries : List Entry) → AreSpelled entries
        → length (spelling entries) ≤ length entries * MAX_ENTRY_BYTES }
    ensures founded { (entry : Entry) (settings : Settings) → entry.what ≡ Founded settings
        → length (entry_bytes entry) ≡ 17 }
    ensures carried { (entry : Entry) (commit : CommitId) (day : ℕ) → entry.what ≡ Carried commit day
        → length (entry_bytes entry) ≡ 33 }
{}

/// What a log page holds is the longest front that fits, of the entries from the first one that it is to hold.
pub fn fronts_within_are_longest()
    ensures { (most : ℕ) (entries : List Entry) → IsLongestFront most entries (front_within most entries) }
{}

/// Entries can be written where each opening among them is as in a legal history, and so can entries that were read.
pub fn what_can_be_written()
    ensures openings { (entries : List Entry) → ((o : Opening) → Contains (openings entries) o → IsOpenedWithin o)
        → All (λ (entry : Entry). IsWithinLimits entry.what) entries }
    ensures read { (entries : List Entry) → AreSpelled entries
        → All (λ (entry : Entry). IsWithinLimits entry.what) entries }
{}
