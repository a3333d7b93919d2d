//! Bytes written to a file: all of some, and what is written again as it was or as it reads.
use crate::file::DiskFile;
use crate::unsynced::Write;
use farm_journal::{FIRST_GATE, MAGIC, MAX_PAYLOAD};
use std::alloc::Global;
use std::io;

/// How many bytes at a journal's end hold its last gate, and the one before it: the greatest record, of its length, its
/// payload and the gate behind it, and its own gate.
const TAIL: u64 = MAX_PAYLOAD as u64 + 6;

/// Writes bytes at an offset, as far as the file takes them. Answers how many it took, and the error that ended it.
pub(crate) fn put_all<F: DiskFile>(file: &mut F, at: u64, bytes: &[u8]) -> (usize, io::Result<()>) {
    let mut put = 0;
    for _ in 0..u64::MAX {
        if put >= bytes.len() {
            break;
        }
        match file.write_at(&bytes[put..], at.saturating_add(put as u64)) {
            Ok(0) => return (put, Err(io::Error::from(io::ErrorKind::WriteZero))),
            Ok(n) => put += n,
            Err(error) if error.kind() == io::ErrorKind::Interrupted => {}
            Err(error) => return (put, Err(error)),
        }
    }
    (put, Ok(()))
}

/// Writes again what was written.
pub(crate) fn put_again<F: DiskFile>(file: &mut F, writes: &[Write]) -> io::Result<()> {
    for write in writes {
        put_all(file, write.at, write.bytes.as_slice()).1?;
    }
    Ok(())
}

/// Writes the header and the end of a journal again, as they read: what they say was written by a program that may
/// have ended after a sync that failed. A file that doesn't begin as a journal is left alone.
pub(crate) fn put_ends_again<F: DiskFile>(
    alloc: Global,
    file: &mut F,
    size: u64,
) -> io::Result<()> {
    if size < FIRST_GATE {
        return Ok(());
    }
    let mut header = [0; FIRST_GATE as usize];
    file.read_exact_at(&mut header, 0)?;
    if !is_journal(&header) {
        return Ok(());
    }
    put_all(file, 0, &header).1?;
    let length = size.min(TAIL);
    let mut tail = vec![in alloc; 0; length as usize]?;
    file.read_exact_at(tail.as_mut_slice(), size - length)?;
    put_all(file, size - length, tail.as_slice()).1
}

/// Whether a file that begins with these bytes is a journal.
fn is_journal(header: &[u8; FIRST_GATE as usize]) -> bool {
    header[0] != 0 && header[1..=MAGIC.len()].starts_with(&MAGIC)
}
