//! Keys that stand in no entry.
ghost use Rattle.std.specs.Prelude.{◌≡◌, ◌≤◌, ◌<◌, ◌+◌, ◌∷◌, ◌++◌, ℕ, ◌||◌, [], true, false, length, get_or, replicate, IfOk, IfSome, IfNone, Some, None};
ghost use Rattle.farm_entry.specs.History.{has_key, key_in, place_of_key};
ghost use Rattle.farm_entry.specs.Legal.{IsLegal};
ghost use Rattle.farm_drill.specs.Free.{AreFree, AreMarked, key_numbered};

use farm_entry::Entry;
use farm_types::{Key, Memory};
use std::alloc::Global;

/// The keys below a number, by whether they are used, and which is looked at next. There are always some that stand in
/// no entry of a history, since its founding has none.
#[derive(Drop)]
pub(crate) struct Keys {
    pub(crate) used: Vec<bool>,
    pub(crate) next: usize,
}

impl Keys {
    /// The keys below the number of entries of a history.
    pub(crate) fn of(alloc: Global, history: &[Entry]) -> Result<Keys, Memory>
        ensures marked { IfOk result (λ keys. AreMarked history.now keys.used.items) }
        ensures all { IfOk result (λ keys. length keys.used.items ≡ length history.now) }
        ensures first { IfOk result (λ keys. keys.next ≡ 0) }
    {
        let mut used = unused(alloc, history.len())?;
        for entry in history {
            mark(&mut used, entry);
        }
        Ok(Keys { used, next: 0 })
    }

    /// A key that stands in no entry of a history. The keys that are left stand in none then either, nor once this key
    /// stands in one.
    pub(crate) fn fresh(&mut self, alloc: Global, history: &[Entry]) -> Result<Key, Memory>
        requires legal { IsLegal history.now }
        requires free { AreFree history.now self.old }
        ensures key { IfOk result (λ key. place_of_key history.now key ≡ None) }
        ensures free { IfOk result (λ key. (e : Entry) → key_in e.what ≡ Some key
            → AreFree (history.now ++ e ∷ []) self.new) }
        ensures still { IfOk result (λ key. AreFree history.now self.new) }
    {
        if let Some(key) = self.take() {
            return Ok(key);
        }
        *self = Keys::of(alloc, history)?;
        match self.take() {
            Some(key) => Ok(key),
            None => unreachable!(),
        }
    }

    /// The next key that isn't marked as used.
    fn take(&mut self) -> Option<Key>
        ensures used { self.new.used.items ≡ self.old.used.items }
        ensures some { IfSome result (λ key. (self.old.next ≤ key.0) × (key.0 < length self.old.used.items)
            × (get_or self.old.used.items key.0 true ≡ false) × (self.new.next ≡ key.0 + 1)) }
        ensures none { IfNone result ((number : ℕ) → self.old.next ≤ number → number < length self.old.used.items
            → get_or self.old.used.items number true ≡ true) }
    {
        while self.next < self.used.len() {
            let number = self.next;
            self.next += 1;
            if !self.used[number] {
                return Some(Key(number as u128));
            }
        }
        None
    }
}

/// So many marks, none of them set.
pub(crate) fn unused(alloc: Global, count: usize) -> Result<Vec<bool>, Memory>
    ensures { IfOk result (λ used. used.items ≡ replicate count false) }
{
    Ok(vec![in alloc; false; count]?)
}

/// Marks the key of an entry, where it is among these.
pub(crate) fn mark(used: &mut Vec<bool>, entry: &Entry)
    ensures length { length used.new.items ≡ length used.old.items }
    ensures marks { (number : ℕ) → number < length used.old.items → get_or used.new.items number true
        ≡ (get_or used.old.items number true || has_key (key_numbered number) entry.now) }
{
    if let Some(key) = entry.what.key() {
        if key.0 < used.len() as u128 {
            used[key.0 as usize] = true;
        }
    }
}
