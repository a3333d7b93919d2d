//! Which bytes of an image are certain, as data.
ghost use Rattle.std.specs.Prelude.{◌≡◌, ◌&&◌, nat_le, nat_lt, ℕ, IfOk, None, Some, map, if◌then◌else◌, unwrap_or};
ghost use Rattle.std.specs.List.{range_with_len};
ghost use Rattle.farm_disk.specs.Certain.{mark_at};

use std::alloc::{AllocError, Global};

/// A mark for each byte: all of them are certain.
pub(super) fn marks_of(alloc: Global, bytes: &[u8]) -> Result<Vec<Option<u8>>, AllocError>
    ensures { IfOk result (λ marks. marks.items ≡ map Some bytes.now) }
{
    bytes.iter().map(|byte| Some(*byte)).collect(alloc)
}

/// Takes the marks of a range away, as far as there are any.
pub(super) fn unmark(marks: &mut [Option<u8>], from: usize, to: usize)
    ensures { (i : ℕ) → mark_at marks.new i ≡ (if nat_le from i && nat_lt i to then None else mark_at marks.old i) }
{
    let end = to.min(marks.len());
    let start = from.min(end);
    for i in start..end {
        marks[i] = None;
    }
}

// The mark at an index, and where there is none this byte.
fn byte_at(marks: &[Option<u8>], i: usize, fill: u8) -> u8
    ensures { result ≡ unwrap_or (mark_at marks.now i) fill }
{
    match marks.get(i) {
        Some(Some(byte)) => *byte,
        _ => fill,
    }
}

/// The marks, and where there is none this byte.
pub(super) fn filled(
    alloc: Global,
    marks: &[Option<u8>],
    size: usize,
    fill: u8,
) -> Result<Vec<u8>, AllocError>
    ensures { IfOk result (λ bytes. bytes.items
        ≡ map (λ i. unwrap_or (mark_at marks.now i) fill) (range_with_len 0 size)) }
{
    (0..size).map(|i| byte_at(marks, i, fill)).collect(alloc)
}
