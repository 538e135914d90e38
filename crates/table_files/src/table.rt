// A table line by line.
ghost use Rattle.std.specs.Prelude.{◌≡◌, ◌<◌, ◌∷◌, [], ℕ, List, Result, IfNone, IfOk, IfSome, length};
ghost use Rattle.pk_types.specs.Pieces.{lines_of};
ghost use Rattle.table_files.specs.declared.fault.TableFault.{TableFault as Fault};
ghost use Rattle.table_files.specs.Faults.{Reads};
ghost use Rattle.table_files.specs.Tables.{is_passed_over, after_line, table_of};

use crate::fault::TableFault;
use crate::limits::MAX_FILE;
use pk_types::cut;
use std::alloc::Global;

/// A table that grows line by line.
pub trait Table<'a>: Drop + Sized {
    // What the table stands for.
    ghost Rows: { Type 0 };

    ghost rows: { Self → Rows };

    // The rows with those of one more line, beside what the table knows of other tables.
    ghost with_line: { Self → ℕ → List ℕ → Rows → Result Rows Fault };

    /// The table with one more line, which says something.
    fn add_line(self, alloc: Global, number: usize, line: &'a [u8]) -> Result<Self, TableFault>
        ensures rows { Reads rows result (with_line self number line.now (rows self)) }
        ensures beside { IfOk result (λ table. with_line table ≡ with_line self) };
}

/// Whether a line says nothing.
fn is_passed_over(line: &[u8]) -> bool
    ensures passed_over { result ≡ is_passed_over line.now }
{
    match line {
        [] => true,
        [first, ..] => *first == b'#',
    }
}

/// The first line, and what stands behind its end.
fn next_line(bytes: &[u8]) -> Option<(&[u8], &[u8])>
    ensures end { IfNone result (bytes.now ≡ []) }
    ensures line { IfSome result (λ (line, behind). lines_of bytes.now ≡ line.now ∷ lines_of behind.now) }
    ensures shorter { IfSome result (λ (line, behind). length behind.now < length bytes.now) }
{
    if bytes.is_empty() {
        return None;
    }
    match cut(bytes, b'\n') {
        Some((line, behind)) => Some((line, behind)),
        None => Some(bytes.split_at(bytes.len())),
    }
}

/// The table with one more line.
fn after_line<'a, T: Table<'a>>(
    alloc: Global,
    table: T,
    number: usize,
    line: &'a [u8],
) -> Result<T, TableFault>
    ensures rows { Reads T.rows result (after_line (T.with_line table) number line.now (T.rows table)) }
    ensures beside { IfOk result (λ after. T.with_line after ≡ T.with_line table) }
{
    if is_passed_over(line) {
        return Ok(table);
    }
    table.add_line(alloc, number, line)
}

/// The table with the lines of a file.
pub fn read_lines<'a, T: Table<'a>>(
    alloc: Global,
    table: T,
    bytes: &'a [u8],
) -> Result<T, TableFault>
    ensures rows { Reads T.rows result (table_of (T.with_line table) bytes.now (T.rows table)) }
{
    if bytes.len() > MAX_FILE {
        return Err(TableFault::TooLong);
    }
    let mut table = table;
    let mut number = 1;
    let mut rest = bytes;
    while let Some((line, behind)) = next_line(rest) {
        table = after_line(alloc, table, number, line)?;
        number += 1;
        rest = behind;
    }
    Ok(table)
}
