// Why no history was read, and why none was written.
ghost use Rattle.std.specs.Prelude.{◌≡◌};
ghost use Rattle.audit_text.specs.declared.fault.Stop.TheVariants.{Memory};

use pk_types::NoMemory;
use thiserror::Error;

/// What is wrong with a line. Its words are judged from left to right.
#[derive(Clone, Copy, Debug, PartialEq, Eq, Error)]
pub enum LineKind {
    /// The first word is not the one that is due.
    #[error("Word")]
    Word,
    /// All words that stand there are in place, and words are missing or left over.
    #[error("Count")]
    Count,
    /// A number is due, and another word stands there, or the number is above its type.
    #[error("Number")]
    Number,
    /// Any other word is out of its form, or the name of a user or a group has over 4,096 bytes.
    #[error("Value")]
    Value,
    /// The input ends before the last line that is due, or goes on after it.
    #[error("End")]
    End,
}

/// Why no value was read from a line.
#[derive(Clone, Copy, Debug, PartialEq, Eq)]
pub enum LineStop {
    /// Memory was refused.
    Memory,
    /// The line is out of the grammar.
    Bad(LineKind),
}

/// Why no value was read from lines.
#[derive(Clone, Copy, Debug, PartialEq, Eq)]
pub enum Stop {
    /// Memory was refused.
    Memory,
    /// The source failed, and counted it.
    Failed,
    /// This line, counted from 1, is out of the grammar.
    Bad { line: u64, kind: LineKind },
}

impl From<NoMemory> for Stop {
    ghost from_gives = { λ _ e. e ≡ Memory };

    fn from(_: NoMemory) -> Stop {
        Stop::Memory
    }
}

/// Why no history was read from an audit text.
#[derive(Clone, Copy, Debug, PartialEq, Eq, Error)]
pub enum AuditReadRefused {
    /// The source failed, and counted it.
    #[error("the input failed")]
    ReadFault,
    /// The first line tells more than 65,536 entries.
    #[error("{entries} entries, and at most 65536 are allowed")]
    TooMany { entries: u64 },
    /// The first line that is out of the grammar, counted from 1.
    #[error("line {line}: {kind}")]
    BadLine { line: u64, kind: LineKind },
    /// Memory was refused.
    #[error("out of memory")]
    NoMemory,
}

/// Why an audit text was not written.
#[derive(Clone, Copy, Debug, PartialEq, Eq, Error)]
pub enum AuditWriteRefused {
    /// The sink failed, and counted it.
    #[error("the output failed")]
    WriteFault,
    /// Memory was refused, and nothing was written.
    #[error("out of memory")]
    NoMemory,
}
