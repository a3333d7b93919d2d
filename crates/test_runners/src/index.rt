//! The index by which the rows of a test at a commit are found.
ghost use Rattle.std.specs.Prelude.{ℕ, ◌≡◌, ◌<◌, IfOk, get_or, length, map, set};
ghost use Rattle.farm_types.specs.CommitId.{id_bytes};
ghost use Rattle.test_runners.specs.Index.{IsIndex, bucket_of, hash_after};
ghost use Rattle.test_runners.specs.Rows.{row_seen};
ghost use Rattle.test_runners.specs.Tables.{tested_in};

use crate::row::Row;
use farm_types::{CommitId, Memory, Name};
use std::alloc::Global;
use worker_core::Tested;

/// By what a hash is multiplied for each byte.
const HASH_FACTOR: u64 = 31;

/// How many hashes there are.
const HASH_SIZE: u64 = 4_294_967_296;

/// Of each bucket the place of its first row, and of each row the place of the next one in its bucket. A place past the
/// last row says that there is none.
#[derive(Drop)]
pub(crate) struct Index {
    heads: Vec<usize>,
    next: Vec<usize>,
}

impl Index {
    /// The index of some rows, which has as many buckets as there are rows.
    pub(crate) fn of(alloc: Global, rows: &[Row]) -> Result<Index, Memory>
        ensures { IfOk result (λ index. IsIndex (map row_seen rows.now) index.heads.items index.next.items) }
    {
        let mut heads = Vec::new(alloc);
        heads.resize(rows.len().max(1), rows.len())?;
        let mut next = Vec::new(alloc);
        next.resize(rows.len(), 0)?;
        link_all(&mut heads, &mut next, rows);
        Ok(Index { heads, next })
    }

    /// What the first of these rows, whose index it is, says of a test at a commit.
    pub(crate) fn tested(&self, rows: &[Row], test: &Name, commit: &CommitId) -> Option<Tested>
        requires { IsIndex (map row_seen rows.now) self.now.heads.items self.now.next.items }
        ensures { result ≡ tested_in (map row_seen rows.now) test.now (id_bytes commit.now) }
    {
        let mut at = self.heads[bucket(self.heads.len(), test, commit)];
        while at < rows.len() {
            let row = &rows[at];
            if row.is_of(test, commit) {
                return Some(row.tested);
            }
            at = self.next[at];
        }
        None
    }
}

/// Links the chains of all rows, from the last row to the first.
fn link_all(heads: &mut [usize], next: &mut [usize], rows: &[Row])
    requires size { 0 < length heads.old }
    requires count { length next.old ≡ length rows.now }
    requires ends { (b : ℕ) → b < length heads.old → get_or heads.old b 0 ≡ length rows.now }
    ensures { IsIndex (map row_seen rows.now) heads.new next.new }
{
    let mut left = rows.len();
    while left > 0 {
        left -= 1;
        let row = &rows[left];
        let bucket = bucket(heads.len(), &row.test, &row.commit);
        link(heads, next, bucket, left);
    }
}

/// Puts a place in front of the chain of a bucket.
fn link(heads: &mut [usize], next: &mut [usize], bucket: usize, place: usize)
    requires bucket { bucket < length heads.old }
    requires place { place < length next.old }
    ensures heads { heads.new ≡ set heads.old bucket place }
    ensures next { next.new ≡ set next.old place (get_or heads.old bucket 0) }
{
    next[place] = heads[bucket];
    heads[bucket] = place;
}

/// The bucket of a test at a commit among so many.
fn bucket(size: usize, test: &Name, commit: &CommitId) -> usize
    requires { 0 < size }
    ensures bucket { result ≡ bucket_of size test.now (id_bytes commit.now) }
    ensures in_range { result < size }
{
    let hash = hash(hash(0, &commit.bytes()), test.text().as_bytes());
    (hash % size as u64) as usize
}

/// The hash of bytes that come after others with this hash.
fn hash(before: u64, bytes: &[u8]) -> u64
    requires { before < HASH_SIZE }
    ensures hash { result ≡ hash_after before bytes.now }
    ensures in_range { result < HASH_SIZE }
{
    let mut hash = before;
    for byte in bytes {
        hash = (hash * HASH_FACTOR + u64::from(*byte)) % HASH_SIZE;
    }
    hash
}
