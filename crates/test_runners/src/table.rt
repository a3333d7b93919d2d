//! A table of what tests say.
ghost use Rattle.std.specs.Prelude.{◌≡◌, ◌≢◌, Err, IfErr, IfOk, IsErrOf, Ok};
ghost use Rattle.farm_types.specs.CommitId.{id_bytes};
ghost use Rattle.test_runners.specs.Tables.{table_of, tested_in};

use crate::index::Index;
use crate::lines::split_line;
use crate::row::{Row, RowFault, read_row};
use farm_types::{CommitId, Name};
use std::alloc::Global;
use std::marker::Model;
use worker_core::Tested;

/// Why a text is no table.
#[derive(Clone, Copy)]
pub enum TableFault {
    /// The line with this number, counted from 1, is the first that is no row, and this is why.
    Line(u64, RowFault),
    /// Out of memory.
    Memory,
}

/// A table of what tests say, which is seen as the list of its rows.
#[derive(Drop)]
pub struct Table {
    rows: Vec<Row>,
    index: Index,
}

impl Model for Table {
    ghost use Rattle.std.specs.Prelude.{List, map};
    ghost use Rattle.test_runners.specs.Rows.{TableRow, row_seen};

    ghost Value = { List TableRow };

    ghost view = { λ table. map row_seen table.rows.items };

    ghost use Rattle.test_runners.specs.Index.{IsIndex};

    ghost invariant = { λ table. IsIndex (map row_seen table.rows.items) table.index.heads.items table.index.next.items };
}

/// The table that a text writes: lines of a commit's id in 40 digits, `pass`, `fail` or `skip`, and the name of a test,
/// with one space between two. Each line ends with a line feed, which the last one may lack.
///
/// # Errors
///
/// [`TableFault::Line`] with the first line that is no row, exactly where there is one, else [`TableFault::Memory`].
pub fn read_table(alloc: Global, text: &[u8]) -> Result<Table, TableFault>
    ensures table { IfOk result (λ table. table_of text.now ≡ Ok table) }
    ensures refused { IfErr result (λ fault. fault ≢ TableFault.Memory → table_of text.now ≡ Err fault) }
{
    let mut rows = Vec::new(alloc);
    let mut rest = text;
    let mut number = 1u64;
    while !rest.is_empty() {
        let (line, behind) = split_line(rest);
        match read_row(alloc, line) {
            Ok(row) => {
                if rows.push(row).is_err() {
                    return Err(TableFault::Memory);
                }
            }
            Err(RowFault::Memory) => return Err(TableFault::Memory),
            Err(fault) => return Err(TableFault::Line(number, fault)),
        }
        rest = behind;
        number += 1;
    }
    match Index::of(alloc, &rows) {
        Ok(index) => Ok(Table { rows, index }),
        Err(_) => Err(TableFault::Memory),
    }
}

impl Table {
    /// What the first row of this test at this commit says. It is found by an index, so that the number of rows
    /// counts little.
    pub fn tested(&self, test: &Name, commit: &CommitId) -> Option<Tested>
        ensures { result ≡ tested_in self.now test.now (id_bytes commit.now) }
    {
        self.index.tested(&self.rows, test, commit)
    }
}
