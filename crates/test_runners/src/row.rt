//! The rows of a table.
ghost use Rattle.std.specs.Prelude.{◌≡◌, ◌≢◌, ◌≤◌, ℕ, List, IfSome, IfNone, Ok, length, take};
ghost use Rattle.hex.specs.Hex.{decode_sized};
ghost use Rattle.farm_types.specs.CommitId.{id_bytes};
ghost use Rattle.farm_types.specs.declared.commit_id.TheConstants.{ID_BYTES, ID_DIGITS};
ghost use Rattle.test_runners.specs.Rows.{IsRead, named_row, row_of, row_seen, tested_row};
ghost use Rattle.test_runners.specs.Tables.{is_row_of};

use farm_types::{CommitId, ID_BYTES, ID_DIGITS, Name, NameFault};
use hex::FromHex;
use std::alloc::Global;
use weight_exact::Verdict;
use worker_core::Tested;

/// Why a line is no row of a table.
#[derive(Clone, Copy)]
pub enum RowFault {
    /// Its first 40 bytes are not the digits of a commit's id.
    Commit,
    /// What follows the id is none of ` pass `, ` fail ` and ` skip `.
    Verdict,
    /// What follows the verdict is not the name of a test.
    Test,
    /// There was no memory for the name, and the line is a row.
    Memory,
}

/// What comes of a test at a commit.
#[derive(Drop)]
pub(crate) struct Row {
    pub commit: CommitId,
    pub tested: Tested,
    pub test: Name,
}

impl Row {
    /// Whether it is of this test at this commit.
    pub(crate) fn is_of(&self, test: &Name, commit: &CommitId) -> bool
        ensures { result ≡ is_row_of test.now (id_bytes commit.now) (row_seen self.now) }
    {
        self.commit == *commit && self.test == *test
    }
}

/// The row that a line writes. The first of its faults is answered, else out of memory.
pub(crate) fn read_row(alloc: Global, line: &[u8]) -> Result<Row, RowFault>
    ensures { IsRead (row_of line.now) result }
{
    let Some(commit) = read_commit(line) else {
        return Err(RowFault::Commit);
    };
    read_tested(alloc, commit, &line[ID_DIGITS..])
}

/// The commit that the first digits of a line name.
fn read_commit(line: &[u8]) -> Option<CommitId>
    ensures commit { IfSome result (λ commit. decode_sized (take ID_DIGITS line.now) ID_BYTES ≡ Ok (id_bytes commit)) }
    ensures long { IfSome result (λ _. ID_DIGITS ≤ length line.now) }
    ensures none { IfNone result ((id : List ℕ) → decode_sized (take ID_DIGITS line.now) ID_BYTES ≢ Ok id) }
{
    let digits = &line[..ID_DIGITS.min(line.len())];
    match <[u8; ID_BYTES] as FromHex>::from_hex(digits) {
        Ok(bytes) => Some(CommitId::of(bytes)),
        Err(_) => None,
    }
}

/// The row of a commit, where this follows the commit's digits.
fn read_tested(alloc: Global, commit: CommitId, rest: &[u8]) -> Result<Row, RowFault>
    ensures { IsRead (tested_row (id_bytes commit) rest.now) result }
{
    if let Some(test) = rest.strip_prefix(b" pass ") {
        read_test(alloc, commit, Tested::Verdict(Verdict::Pass), test)
    } else if let Some(test) = rest.strip_prefix(b" fail ") {
        read_test(alloc, commit, Tested::Verdict(Verdict::Fail), test)
    } else if let Some(test) = rest.strip_prefix(b" skip ") {
        read_test(alloc, commit, Tested::Untestable, test)
    } else {
        Err(RowFault::Verdict)
    }
}

/// The row of a commit and what comes of its test, where this follows the word for that.
fn read_test(alloc: Global, commit: CommitId, tested: Tested, test: &[u8]) -> Result<Row, RowFault>
    ensures { IsRead (named_row (id_bytes commit) tested test.now) result }
{
    let Ok(text) = str::from_utf8(test) else {
        return Err(RowFault::Test);
    };
    match Name::of(alloc, text) {
        Ok(test) => Ok(Row {
            commit,
            tested,
            test,
        }),
        Err(NameFault::Memory) => Err(RowFault::Memory),
        Err(_) => Err(RowFault::Test),
    }
}
