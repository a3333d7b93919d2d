//! The table that finds a key: a dense list of items, and for each bucket a chain of its items from the newest to the
//! oldest.

ghost use Rattle.std.specs.Prelude.{ℕ, suc, ◌≡◌, ◌≢◌, ◌<◌, ◌≤◌, ◌+◌, ◌++◌, ◌∷◌, [], IfOk, length, get_or, set};
ghost use Rattle.std.specs.Vec.{vec_capacity};
ghost use Rattle.search_books.specs.KeyChains.{blank, top, IsDown, IsLinked, IsMoved, IsWhole};
ghost use Rattle.search_books.specs.KeyTable.{entry_of, entries_of, IsGrown};

use crate::bucket::home;
use farm_types::Memory;
use std::alloc::Global;

/// One key with its place, and the next older item of its bucket, as one more than its index, or 0.
#[derive(Clone, Copy)]
pub(crate) struct Item {
    pub(crate) key: u128,
    pub(crate) place: u32,
    pub(crate) below: usize,
}

/// One more than the index of the item with a key, or 0.
pub(crate) fn seek(heads: &[usize], items: &[Item], key: u128) -> usize
    requires linked { IsWhole heads.now items.now }
    requires size { 0 < length heads.now }
    ensures in_range { result ≤ length items.now }
    ensures found { (m : ℕ) → result ≡ m + 1 → (get_or items.now m blank).key ≡ key }
    ensures absent { result ≡ 0 → (k : ℕ) → k < length items.now → (get_or items.now k blank).key ≢ key }
{
    let mut at = heads[home(heads.len(), key)];
    while at > 0 {
        let item = items[at - 1];
        if item.key == key {
            return at;
        }
        at = item.below;
    }
    0
}

/// Sets the pointer of a bucket's chain that leads to an item up to `at`, or to none, and returns what it was.
pub(crate) fn point(
    heads: &mut Vec<usize>,
    items: &mut Vec<Item>,
    bucket: usize,
    at: usize,
    to: usize,
) -> usize
    requires down { IsDown heads.old.items items.old.items }
    requires bucket { bucket < length heads.old.items }
    requires at { at < length items.old.items }
    requires to { to ≤ at + 1 }
    ensures down { IsDown heads.new.items items.new.items }
    ensures was { (h : ℕ → ℕ) → IsLinked h at heads.old.items items.old.items
        → result ≡ top h bucket (suc at) }
    ensures was_low { result ≤ at + 1 }
    ensures linked { (h k : ℕ → ℕ) → IsLinked h at heads.old.items items.old.items
        → IsMoved h k at bucket (length heads.old.items) → to ≡ top k bucket (suc at)
        → IsLinked k at heads.new.items items.new.items }
    ensures keys { (i : ℕ) → (get_or items.new.items i blank).key ≡ (get_or items.old.items i blank).key }
    ensures places { (i : ℕ) → (get_or items.new.items i blank).place ≡ (get_or items.old.items i blank).place }
    ensures len { length items.new.items ≡ length items.old.items }
    ensures capacity { vec_capacity items.new ≡ vec_capacity items.old }
    ensures heads { length heads.new.items ≡ length heads.old.items }
{
    let mut above = 0;
    let mut next = heads[bucket];
    while next > at + 1 {
        above = next;
        next = items[above - 1].below;
    }
    if above == 0 {
        heads[bucket] = to;
    } else {
        items[above - 1].below = to;
    }
    next
}

/// Adds an item, which takes no memory.
pub(crate) fn link(heads: &mut Vec<usize>, items: &mut Vec<Item>, key: u128, place: u32)
    requires linked { IsWhole heads.old.items items.old.items }
    requires size { 0 < length heads.old.items }
    requires room { length items.old.items < vec_capacity items.old }
    ensures linked { IsWhole heads.new.items items.new.items }
    ensures entries { entries_of items.new.items ≡ entries_of items.old.items ++ (key, place) ∷ [] }
    ensures capacity { vec_capacity items.new ≡ vec_capacity items.old }
    ensures len { length items.new.items ≡ length items.old.items + 1 }
    ensures heads { length heads.new.items ≡ length heads.old.items }
{
    let bucket = home(heads.len(), key);
    let below = heads[bucket];
    items.push_reserved(Item { key, place, below });
    heads[bucket] = items.len();
}

/// Takes the newest item away, whose room is free then.
pub(crate) fn unlink_last(heads: &mut Vec<usize>, items: &mut Vec<Item>) -> Item
    requires linked { IsWhole heads.old.items items.old.items }
    requires size { 0 < length heads.old.items }
    requires some { 0 < length items.old.items }
    ensures linked { IsWhole heads.new.items items.new.items }
    ensures entries { entries_of items.old.items ≡ entries_of items.new.items ++ entry_of result ∷ [] }
    ensures capacity { vec_capacity items.new ≡ vec_capacity items.old }
    ensures len { length items.new.items + 1 ≡ length items.old.items }
    ensures heads { length heads.new.items ≡ length heads.old.items }
{
    let Some(last) = items.pop() else {
        unreachable!();
    };
    let bucket = home(heads.len(), last.key);
    heads[bucket] = last.below;
    last
}

/// Puts another key and place into an item.
pub(crate) fn replace(
    heads: &mut Vec<usize>,
    items: &mut Vec<Item>,
    at: usize,
    key: u128,
    place: u32,
)
    requires linked { IsWhole heads.old.items items.old.items }
    requires size { 0 < length heads.old.items }
    requires at { at < length items.old.items }
    ensures linked { IsWhole heads.new.items items.new.items }
    ensures entries { entries_of items.new.items ≡ set (entries_of items.old.items) at (key, place) }
    ensures len { length items.new.items ≡ length items.old.items }
    ensures capacity { vec_capacity items.new ≡ vec_capacity items.old }
    ensures heads { length heads.new.items ≡ length heads.old.items }
{
    let old = items[at];
    let from = home(heads.len(), old.key);
    point(heads, items, from, at, old.below);
    let into = home(heads.len(), key);
    let below = point(heads, items, into, at, at + 1);
    items[at] = Item { key, place, below };
}

/// A table of some items with so many buckets, and room for as many items.
pub(crate) fn grown(
    alloc: Global,
    items: &[Item],
    size: usize,
) -> Result<(Vec<usize>, Vec<Item>), Memory>
    requires size { 0 < size }
    requires fits { length items.now ≤ size }
    ensures { IfOk result (λ table. IsGrown items.now size table.0.items table.1.items (vec_capacity table.1)) }
{
    let mut heads = Vec::new(alloc);
    heads.resize(size, 0)?;
    let mut moved = Vec::with_capacity(alloc, size)?;
    for item in items {
        link(&mut heads, &mut moved, item.key, item.place);
    }
    Ok((heads, moved))
}
