// How an audit ended.
ghost use Rattle.std.specs.Prelude.{◌≡◌};
ghost use Rattle.pkaudit_tool.specs.Audits.{code_of, status_of_finding, status_of_refused};

use audit_text::{AuditReadRefused, LineKind};
use journal_audit::{Clause, Finding};
use std::fmt;

/// How an audit ended. Each status has an exit code, and a text of one line that is the variant's name
/// and its fields in order.
#[derive(Clone, Copy, Debug, PartialEq, Eq)]
pub enum AuditStatus {
    /// Each entry is as it must be, and each yes is licensed.
    Accepted,
    /// This entry, counted from 0, is the first faulty one, and this is what it breaks first.
    Faulty { entry: u64, clause: Clause },
    /// There are words.
    Usage,
    /// The input counted a fault.
    ReadFault,
    /// The output counted a fault.
    WriteFault,
    /// The first line tells more than 65,536 entries.
    TooMany { entries: u64 },
    /// The first line that is out of the grammar, counted from 1.
    BadLine { line: u64, kind: LineKind },
    /// Memory was refused.
    NoMemory,
}

impl AuditStatus {
    /// How a text that is refused ends the run.
    pub(crate) fn of_refused(refused: AuditReadRefused) -> AuditStatus
        ensures status { result ≡ status_of_refused refused }
    {
        match refused {
            AuditReadRefused::ReadFault => AuditStatus::ReadFault,
            AuditReadRefused::TooMany { entries } => AuditStatus::TooMany { entries },
            AuditReadRefused::BadLine { line, kind } => AuditStatus::BadLine { line, kind },
            AuditReadRefused::NoMemory => AuditStatus::NoMemory,
        }
    }

    /// How a run ends that told what was found.
    pub(crate) fn of_finding(finding: Finding) -> AuditStatus
        ensures status { result ≡ status_of_finding finding }
    {
        match finding {
            Finding::Accepted { .. } => AuditStatus::Accepted,
            Finding::Faulty { entry, clause } => AuditStatus::Faulty { entry, clause },
        }
    }

    /// The exit code of the program.
    pub fn code(self) -> u8
        ensures code { result ≡ code_of self }
    {
        match self {
            AuditStatus::Accepted => 0,
            AuditStatus::Faulty { .. } => 1,
            AuditStatus::Usage => 2,
            AuditStatus::ReadFault => 3,
            AuditStatus::WriteFault => 4,
            AuditStatus::TooMany { .. } => 5,
            AuditStatus::BadLine { .. } => 6,
            AuditStatus::NoMemory => 70,
        }
    }
}

impl fmt::Display for AuditStatus {
    fn fmt<W: fmt::Write>(&self, f: &mut fmt::Formatter<W>) -> fmt::Result {
        match self {
            AuditStatus::Accepted => write!(f, "Accepted"),
            AuditStatus::Faulty { entry, clause } => write!(f, "Faulty {entry} {clause}"),
            AuditStatus::Usage => write!(f, "Usage"),
            AuditStatus::ReadFault => write!(f, "ReadFault"),
            AuditStatus::WriteFault => write!(f, "WriteFault"),
            AuditStatus::TooMany { entries } => write!(f, "TooMany {entries}"),
            AuditStatus::BadLine { line, kind } => write!(f, "BadLine {line} {kind}"),
            AuditStatus::NoMemory => write!(f, "NoMemory"),
        }
    }
}
