//! The table that finds an order by its commit.

ghost use Rattle.std.specs.Prelude.{◌≡◌, ◌<◌, ◌≤◌, ◌+◌, ◌++◌, ◌∷◌, [], false, length, IfOk};
ghost use Rattle.std.specs.Vec.{vec_capacity};
ghost use Rattle.farm_rules.specs.Orders.{has_order};
ghost use Rattle.farm_rules.specs.Book.{ordered};
ghost use Rattle.farm_rules.specs.OrderChains.{IsGrown, IsLinked, home_of, orders_in};

use farm_types::{CommitId, Memory};
use std::alloc::Global;

/// One order, and the next older one of its bucket, as one more than its index, or 0.
#[derive(Clone, Copy)]
pub(crate) struct Item {
    pub(crate) commit: CommitId,
    pub(crate) day: u32,
    pub(crate) below: usize,
}

/// The bucket of a commit among so many. An id is a digest, so any two of its bytes spread commits evenly.
fn home(size: usize, commit: CommitId) -> usize
    requires { 0 < size }
    ensures home { result ≡ home_of size commit }
    ensures in_range { result < size }
{
    let bytes = commit.bytes();
    (usize::from(bytes[18]) * 256 + usize::from(bytes[19])) % size
}

/// Whether an item is for a commit.
pub(crate) fn is_there(heads: &[usize], items: &[Item], commit: CommitId) -> bool
    requires linked { IsLinked heads.now items.now }
    requires size { 0 < length heads.now }
    ensures { result ≡ has_order (orders_in items.now) commit }
{
    let mut at = heads[home(heads.len(), commit)];
    while at > 0 {
        let item = items[at - 1];
        if item.commit == commit {
            return true;
        }
        at = item.below;
    }
    false
}

/// Adds an item, which takes no memory.
pub(crate) fn link(heads: &mut Vec<usize>, items: &mut Vec<Item>, commit: CommitId, day: u32)
    requires linked { IsLinked heads.old.items items.old.items }
    requires size { 0 < length heads.old.items }
    requires room { length items.old.items < vec_capacity items.old }
    ensures linked { IsLinked heads.new.items items.new.items }
    ensures orders { orders_in items.new.items ≡ orders_in items.old.items ++ ordered commit day ∷ [] }
    ensures capacity { vec_capacity items.new ≡ vec_capacity items.old }
    ensures len { length items.new.items ≡ length items.old.items + 1 }
    ensures heads { length heads.new.items ≡ length heads.old.items }
{
    let bucket = home(heads.len(), commit);
    let below = heads[bucket];
    items.push_reserved(Item { commit, day, below });
    heads[bucket] = items.len();
}

/// Takes the newest item away, whose room is free then.
pub(crate) fn unlink_last(heads: &mut Vec<usize>, items: &mut Vec<Item>) -> Item
    requires linked { IsLinked heads.old.items items.old.items }
    requires size { 0 < length heads.old.items }
    requires some { 0 < length items.old.items }
    ensures linked { IsLinked heads.new.items items.new.items }
    ensures orders { orders_in items.old.items ≡ orders_in items.new.items ++ ordered result.commit result.day ∷ [] }
    ensures capacity { vec_capacity items.new ≡ vec_capacity items.old }
    ensures len { length items.new.items + 1 ≡ length items.old.items }
    ensures heads { length heads.new.items ≡ length heads.old.items }
{
    let Some(last) = items.pop() else {
        unreachable!();
    };
    let bucket = home(heads.len(), last.commit);
    heads[bucket] = last.below;
    last
}

/// A table of the same orders with so many buckets, and room for as many items.
pub(crate) fn grown(
    alloc: Global,
    items: &[Item],
    size: usize,
) -> Result<(Vec<usize>, Vec<Item>), Memory>
    requires size { 0 < size }
    requires fits { length items.now ≤ size }
    ensures { IfOk result (λ table. IsGrown items.now size table.0.items table.1.items (vec_capacity table.1)) }
{
    let mut heads = Vec::new(alloc);
    heads.resize(size, 0)?;
    let mut moved = Vec::with_capacity(alloc, size)?;
    for item in items {
        link(&mut heads, &mut moved, item.commit, item.day);
    }
    Ok((heads, moved))
}
