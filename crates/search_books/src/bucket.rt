//! The bucket in which a key is kept.

ghost use Rattle.std.specs.Prelude.{◌≡◌, ◌<◌};
ghost use Rattle.search_books.specs.Bucket.{home_of, mixed_of};

/// One more than the greatest word of 64 bits.
const WORD: u128 = 1 << 64;

/// How many keys that differ in the last bits of their low half alone have buckets beside one another.
const RUN: u64 = 1 << 12;

/// The bucket of a key among so many: the low bits of its low half and of all its other bits mixed. Keys that count up
/// in their low half have buckets beside one another, so that the next one is found where the last one was put, but for
/// each run of them, which stands elsewhere. Keys that count up in other steps or in the high half are spread over all
/// buckets, since two that share their low half, or their high half and their run, have different words.
pub(crate) fn home(size: usize, key: u128) -> usize
    requires { 0 < size }
    ensures home { result ≡ home_of size key }
    ensures in_range { result < size }
{
    let low = (key % WORD) as u64;
    let high = (key / WORD) as u64;
    (low ^ mixed(mixed(low / RUN) ^ high)) as usize & (size - 1)
}

/// A word with each of its bits spread over all of it. No two words are mixed to the same one. These are the last steps
/// of the generator SplitMix64 of Steele, Lea and Flood, with the constants that Stafford found.
fn mixed(word: u64) -> u64
    ensures { result ≡ mixed_of word }
{
    let once = (word ^ (word >> 30)).wrapping_mul(0xbf58_476d_1ce4_e5b9);
    let twice = (once ^ (once >> 27)).wrapping_mul(0x94d0_49bb_1331_11eb);
    twice ^ (twice >> 31)
}
