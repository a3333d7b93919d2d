//! Facts on what bytes stand for and on what entries take, each of them the contract of a call that does nothing.

ghost use Rattle.std.specs.Prelude.{◌≡◌, ◌≤◌, ◌++◌, ℕ, List, length};
ghost use Rattle.entry_codec.specs.Grammar.{AreSpelled};
ghost use Rattle.entry_codec.specs.Spelling.{spelling};
ghost use Rattle.farm_journal.specs.Layout.{opens, unborn};
ghost use Rattle.farm_store.specs.Answering.{history_after};
ghost use Rattle.farm_store.specs.Bytes.{StandsFor};
ghost use Rattle.farm_store.specs.Damage.{IsDamagedAt};
ghost use Rattle.farm_store.specs.Sizes.{asks_size};

use crate::asking::Ask;
use farm_entry::Entry;

/// Bytes stand for one history at most, and bytes that stand for one are neither unborn nor damaged.
pub fn bytes_stand_for_one_history()
    ensures one { (H K : List Entry) (bytes : List ℕ) → StandsFor H bytes → StandsFor K bytes → H ≡ K }
    ensures born { (H : List Entry) (bytes : List ℕ) → StandsFor H bytes → opens bytes ≡ unborn → ⊥ }
    ensures sound { (H : List Entry) (bytes : List ℕ) (o : ℕ) → StandsFor H bytes → IsDamagedAt bytes o → ⊥ }
{}

/// Bytes are damaged at one offset at most, and not where they are unborn.
pub fn bytes_are_damaged_at_one_offset()
    ensures one { (bytes : List ℕ) (a b : ℕ) → IsDamagedAt bytes a → IsDamagedAt bytes b → a ≡ b }
    ensures born { (bytes : List ℕ) (o : ℕ) → IsDamagedAt bytes o → opens bytes ≡ unborn → ⊥ }
{}

/// The entries that asks add to a history take no more bytes of a record than `most_bytes` says of the asks.
pub fn new_entries_fit()
    ensures { (H more : List Entry) (asks : List Ask) → history_after H asks ≡ H ++ more → AreSpelled more
        → length (spelling more) ≤ asks_size asks }
{}
