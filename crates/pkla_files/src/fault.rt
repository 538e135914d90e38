// Why a file has no entries.
use pk_types::NoMemory;
use std::fmt::{Display, Error as FmtError, Formatter, Write};
use thiserror::Error;

/// What is wrong with a group, in the order in which the kinds are judged.
#[derive(Clone, Copy, Debug, PartialEq, Eq)]
pub enum PklaFaultKind {
    /// `Identity` or `Action` has no item, or all of `ResultAny`, `ResultInactive` and
    /// `ResultActive` are absent.
    MissingKey,
    /// A result is none of the six words of an implicit authorization.
    ResultWord,
    /// An identity is a netgroup; this authority knows none.
    Netgroup,
    /// `ReturnValue` has an escape other than `\;`, or an item that is not `KEY=VALUE`.
    ReturnValue,
    /// Memory was refused. It says nothing of the group.
    NoMemory,
}

/// The first fault of a file, and the place of its group, counted from 0. The place says nothing
/// where memory was refused.
#[derive(Clone, Copy, Debug, PartialEq, Eq, Error)]
#[error("{kind} in group {group}")]
pub struct PklaFault {
    pub kind: PklaFaultKind,
    pub group: u64,
}

impl PklaFaultKind {
    ghost use Rattle.std.specs.Prelude.{◌≡◌};
    ghost use Rattle.pkla_files.specs.Faults.{kind_name};

    /// The variant's name, by which a report of a skipped file tells the kind.
    pub fn name(self) -> &'static str
        ensures name { result.now ≡ kind_name self }
    {
        match self {
            PklaFaultKind::MissingKey => "MissingKey",
            PklaFaultKind::ResultWord => "ResultWord",
            PklaFaultKind::Netgroup => "Netgroup",
            PklaFaultKind::ReturnValue => "ReturnValue",
            PklaFaultKind::NoMemory => "NoMemory",
        }
    }
}

impl Display for PklaFaultKind {
    fn fmt<W: Write>(&self, f: &mut Formatter<W>) -> Result<(), FmtError> {
        f.write_str(self.name())
    }
}

impl From<NoMemory> for PklaFaultKind {
    ghost use Rattle.std.specs.Prelude.{◌≡◌};
    ghost use Rattle.pkla_files.specs.declared.fault.PklaFaultKind.TheVariants as kind;

    ghost from_gives = { λ _ fault. fault ≡ kind.NoMemory };

    fn from(_: NoMemory) -> Self {
        PklaFaultKind::NoMemory
    }
}

impl From<NoMemory> for PklaFault {
    ghost use Rattle.std.specs.Prelude.{◌≡◌};
    ghost use Rattle.pkla_files.specs.declared.fault.PklaFaultKind.TheVariants as kind;

    ghost from_gives = { λ _ fault. fault.kind ≡ kind.NoMemory };

    fn from(_: NoMemory) -> Self {
        PklaFault {
            kind: PklaFaultKind::NoMemory,
            group: 0,
        }
    }
}
