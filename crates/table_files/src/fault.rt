// Why bytes are no table.
use pk_types::NoMemory;
use std::alloc::AllocFailed;
use thiserror::Error;

/// The first fault of a table, with the number of its line, counted from 1.
#[derive(Clone, Copy, Debug, PartialEq, Eq, Error)]
pub enum TableFault {
    /// The file has more than 16,777,216 bytes.
    #[error("the file has more than 16777216 bytes")]
    TooLong,
    /// The line has another number of fields, or one that is out of its form and is no number.
    #[error("line {line} has no such fields")]
    Fields { line: usize },
    /// A field is no number, or the number is out of its range.
    #[error("line {line} has a field that is not a number in its range")]
    Number { line: usize },
    /// The key of the row stands already.
    #[error("line {line} repeats a row")]
    Repeated { line: usize },
    /// The session of the process is not listed.
    #[error("line {line} names a session that is not listed")]
    Dangling { line: usize },
    /// The table would have this number of rows, which is more than 65,536.
    #[error("the table has {rows} rows, and at most 65536 are allowed")]
    TooMany { rows: usize },
    /// Memory was refused.
    #[error("out of memory")]
    NoMemory,
}

impl From<NoMemory> for TableFault {
    ghost use Rattle.std.specs.Prelude.{◌≡◌};
    ghost use Rattle.table_files.specs.declared.fault.TableFault.TheVariants as fault;

    ghost from_gives = { λ _ given. given ≡ fault.NoMemory };

    fn from(_: NoMemory) -> Self {
        TableFault::NoMemory
    }
}

impl<T: Drop> From<AllocFailed<T>> for TableFault {
    ghost use Rattle.std.specs.Prelude.{◌≡◌};
    ghost use Rattle.table_files.specs.declared.fault.TableFault.TheVariants as fault;

    ghost from_gives = { λ _ given. given ≡ fault.NoMemory };

    fn from(_: AllocFailed<T>) -> Self {
        TableFault::NoMemory
    }
}
