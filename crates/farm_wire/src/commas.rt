//! Numbers behind commas, as the text of an array goes on with them.

ghost use Rattle.std.specs.Prelude.{◌≡◌, ◌≤◌, drop, length};
ghost use Rattle.farm_wire.specs.Pieces.{behind_commas};

use itoa::write_digits;

/// How many numbers are written at a time.
pub(crate) const CHUNK: usize = 64;

/// The most bytes that they take: each has ten digits and its comma.
pub(crate) const CHUNK_BYTES: usize = CHUNK * 11;

/// Writes numbers, each behind a comma, at the end of some room, and answers where they start.
pub(crate) fn write_behind_commas(numbers: &[u32], room: &mut [u8; CHUNK_BYTES]) -> usize
    requires { length numbers.now ≤ CHUNK }
    ensures within { result ≤ CHUNK_BYTES }
    ensures written { drop result room.new ≡ behind_commas numbers.now }
{
    let count = numbers.len();
    let mut start = CHUNK_BYTES;
    'numbers: for done in 0..count {
        let number = numbers[count - 1 - done];
        let digits = write_digits(number as u64, room, start);
        start = digits - 1;
        room[start] = b',';
    }
    start
}
