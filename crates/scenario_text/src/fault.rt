// What is wrong with a line.
use pk_types::{IdFault, NoMemory, TextFault};
use thiserror::Error;

/// The kinds of fault of a line, in the order in which they are judged over the whole line.
///
/// Each is shown by the variant's name.
#[derive(Clone, Copy, Debug, PartialEq, Eq, Error)]
pub enum LineKind {
    /// The line has more than 4,096 bytes.
    #[error("TooLong")]
    TooLong,
    /// The first word is not one that a line begins with.
    #[error("Word")]
    Word,
    /// The number of words is not one that the first word allows.
    #[error("Count")]
    Count,
    /// A number isn't one, or is out of its range.
    #[error("Number")]
    Number,
    /// Another word is out of its form.
    #[error("Value")]
    Value,
    /// Memory was refused. It says nothing of the line.
    #[error("NoMemory")]
    NoMemory,
}

impl From<NoMemory> for LineKind {
    ghost use Rattle.std.specs.Prelude.{◌≡◌};
    ghost use Rattle.scenario_text.specs.declared.fault.LineKind.TheVariants as kind;

    ghost from_gives = { λ _ e. e ≡ kind.NoMemory };

    fn from(_: NoMemory) -> Self {
        LineKind::NoMemory
    }
}

impl From<TextFault> for LineKind {
    ghost use Rattle.std.specs.Prelude.{◌≡◌};
    ghost use Rattle.scenario_text.specs.Faults.{kind_of_text};

    ghost from_gives = { λ fault e. e ≡ kind_of_text fault };

    fn from(fault: TextFault) -> Self {
        match fault {
            TextFault::TooLong { .. } | TextFault::BadByte { .. } => LineKind::Value,
            TextFault::NoMemory => LineKind::NoMemory,
        }
    }
}

impl From<IdFault> for LineKind {
    ghost use Rattle.std.specs.Prelude.{◌≡◌};
    ghost use Rattle.scenario_text.specs.Faults.{kind_of_id};

    ghost from_gives = { λ fault e. e ≡ kind_of_id fault };

    fn from(fault: IdFault) -> Self {
        match fault {
            IdFault::Empty | IdFault::TooLong { .. } | IdFault::BadChar { .. } => LineKind::Value,
            IdFault::NoMemory => LineKind::NoMemory,
        }
    }
}

/// What is wrong with which line. It is shown as the number and the kind, as `2 Word`.
#[derive(Clone, Copy, Debug, PartialEq, Eq, Error)]
#[error("{line} {kind}")]
pub struct LineFault {
    /// The number of the line, as the reader was told it.
    pub line: u64,
    /// The first kind of fault that the line has.
    pub kind: LineKind,
}
