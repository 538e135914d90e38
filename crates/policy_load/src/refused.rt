// Why a load is refused.
use pk_types::{NoMemory, Text};
use std::fmt::{Display, Error as FmtError, Formatter, Write};
use table_files::TableFault;

/// A count of a tree that has a limit, in the order in which the limits are judged.
#[derive(Clone, Copy, Debug, PartialEq, Eq)]
pub enum LoadLimit {
    /// The policy files whose names match, also those that are absent or skipped.
    Files,
    /// The bytes of the policy files that are within their own limits.
    PolicyBytes,
    /// The actions that they give.
    Actions,
    /// The authorization entries that they give.
    Entries,
}

/// Why the load of a tree is refused.
#[derive(Debug, Drop)]
pub enum LoadRefused {
    /// The tree failed. The count is that of its faults after the load.
    TreeFault { count: u64 },
    /// A count passed its limit: the first of the four that did, with the whole count.
    Limit { which: LoadLimit, count: u64 },
    /// A table has a fault: the first of `etc/passwd`, `etc/group`, `tables/sessions` and
    /// `tables/processes` that has one, by its path below the root.
    BadTable { file: Text, fault: TableFault },
    /// Memory was refused.
    NoMemory,
}

impl LoadRefused {
    ghost use Rattle.std.specs.Prelude.{◌≡◌};
    ghost use Rattle.policy_load.specs.Codes.{code_of};

    /// The number of the cause: 1 for a fault of the tree, 2 for a limit, 3 for a table, and 4 for want
    /// of memory.
    pub fn code(&self) -> u32
        ensures code { result ≡ code_of self.now }
    {
        match self {
            LoadRefused::TreeFault { .. } => 1,
            LoadRefused::Limit { .. } => 2,
            LoadRefused::BadTable { .. } => 3,
            LoadRefused::NoMemory => 4,
        }
    }
}

/// Writes a table's fault as the text of a status has it: the variant's name, and its number.
fn write_fault<W: Write>(f: &mut Formatter<W>, fault: TableFault) -> Result<(), FmtError> {
    match fault {
        TableFault::TooLong => f.write_str("TooLong"),
        TableFault::Fields { line } => write!(f, "Fields {line}"),
        TableFault::Number { line } => write!(f, "Number {line}"),
        TableFault::Repeated { line } => write!(f, "Repeated {line}"),
        TableFault::Dangling { line } => write!(f, "Dangling {line}"),
        TableFault::TooMany { rows } => write!(f, "TooMany {rows}"),
        TableFault::NoMemory => f.write_str("NoMemory"),
    }
}

impl Display for LoadRefused {
    fn fmt<W: Write>(&self, f: &mut Formatter<W>) -> Result<(), FmtError> {
        match self {
            LoadRefused::TreeFault { count } => write!(f, "TreeFault {count}"),
            LoadRefused::Limit { which, count } => write!(f, "Limit {which:?} {count}"),
            LoadRefused::BadTable { file, fault } => {
                write!(f, "BadTable {} ", file.bytes().escape_ascii())?;
                write_fault(f, *fault)
            }
            LoadRefused::NoMemory => f.write_str("NoMemory"),
        }
    }
}

impl From<NoMemory> for LoadRefused {
    ghost use Rattle.std.specs.Prelude.{◌≡◌};
    ghost use Rattle.policy_load.specs.declared.refused.LoadRefused.TheVariants as refused;

    ghost from_gives = { λ _ given. given ≡ refused.NoMemory };

    fn from(_: NoMemory) -> Self {
        LoadRefused::NoMemory
    }
}
