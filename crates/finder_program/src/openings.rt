//! What the file of the journal is opened for.
use farm_entry::MAX_CARRIED;
use farm_journal::FIRST_GATE;
use farm_types::Memory;
use file_disk::Opening;
use finder_words::{Subcommand, read_subcommand};
use std::alloc::Global;

/// The most bytes that a crash in `found` may leave: the header, an open gate, the length of a record in 4 bytes, the
/// founding in 17, and a closed gate.
const FOUNDING_BYTES: u64 = FIRST_GATE + 1 + 4 + 17 + 1;

/// The most bytes that a crash in `inherit` may leave: those of `found`, and 33 for each order that it carries over.
const INHERITING_BYTES: u64 = FOUNDING_BYTES + 33 * MAX_CARRIED as u64;

/// The most bytes that a crash may leave where `follow` makes a journal: its first record has the entries of a page,
/// which stand in a body of 262,144 bytes at most, in two digits a byte.
const FIRST_PAGE_BYTES: u64 = FIRST_GATE + 1 + 4 + 131_072 + 1;

/// What the subcommand that these words name opens the file of the journal for. Where they name none, or one without a
/// journal, it isn't opened.
///
/// # Errors
///
/// [`Memory`].
pub(crate) fn read_opening(alloc: Global, words: &[String]) -> Result<Opening, Memory> {
    Ok(match read_subcommand(alloc, words)? {
        Some(Subcommand::Found(_)) => Opening::Found(FOUNDING_BYTES),
        Some(Subcommand::Inherit(_)) => Opening::Found(INHERITING_BYTES),
        Some(Subcommand::Follow { .. }) => Opening::FoundOrAppend(FIRST_PAGE_BYTES),
        Some(Subcommand::RunJournal) | Some(Subcommand::Serve { .. }) | Some(Subcommand::Close) => {
            Opening::Append
        }
        _ => Opening::Read,
    })
}
