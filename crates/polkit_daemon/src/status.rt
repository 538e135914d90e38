// How a command of the daemon ended.
ghost use Rattle.std.specs.Prelude.{◌≡◌};
ghost use Rattle.polkit_daemon.specs.Codes.{code_of};
ghost use Rattle.polkit_daemon.specs.Replayed.{refused_status};
ghost use Rattle.polkit_daemon.specs.Replayed as replayed;
ghost use Rattle.polkit_daemon.specs.Served.{status_of};
ghost use Rattle.polkit_daemon.specs.declared.status.Status.TheVariants as status;

use authority_core::Fullness;
use authority_service::ServiceEnd;
use dbus_values::FaultKind;
use policy_load::LoadRefused;
use replay_run::ReplayEnd;
use scenario_text::LineKind;
use std::fmt;

/// How a command of the daemon ended. Each status has an exit code, and a text of one line that is
/// the variant's name and its fields in order.
#[derive(Debug, Drop)]
pub enum Status {
    /// The command did all that its words and its input ask for.
    Done,
    /// The words are not in the grammar of the daemon's command line.
    Usage,
    /// The tree of the root counted a fault while the first load was read.
    TreeFault { count: u64 },
    /// The first load was refused by a limit or by a table.
    LoadRefused { refused: LoadRefused },
    /// The input counted a fault.
    ReadFault,
    /// The output counted a fault.
    WriteFault,
    /// A further entry was due, and the journal had reached a limit.
    JournalFull { entries: u64, bytes: u64 },
    /// The greatest number of connections was admitted.
    Admissions { admitted: u32 },
    /// A line of the scenario is not in its grammar. Lines are counted from 1.
    BadLine { line: u64, kind: LineKind },
    /// The input is not a message, with the fault at this byte.
    BadBytes { kind: FaultKind, at: u64 },
    /// The input ended inside a message, after this many bytes of it.
    Truncated { rest: u64 },
    /// A listening socket could not be made or shut.
    DoorFault,
    /// The file of the segments could not be made, or failed.
    SegmentFault,
    /// Memory was refused.
    NoMemory,
}

impl Status {
    /// The status of a command whose journal was full.
    pub(crate) fn full(full: Fullness) -> Status
        ensures status { result ≡ status.JournalFull full.entries full.bytes }
    {
        let Fullness { entries, bytes } = full;
        Status::JournalFull { entries, bytes }
    }

    /// The status of a command whose first load was refused so.
    pub(crate) fn of_refused(refused: LoadRefused) -> Status
        ensures status { result ≡ refused_status refused }
    {
        match refused {
            LoadRefused::TreeFault { count } => Status::TreeFault { count },
            LoadRefused::NoMemory => Status::NoMemory,
            refused => Status::LoadRefused { refused },
        }
    }

    /// The status of a replay, or of an audit, that ended so.
    pub(crate) fn of_replay(end: ReplayEnd) -> Status
        ensures status { result ≡ replayed.status_of end }
    {
        match end {
            ReplayEnd::Done => Status::Done,
            ReplayEnd::TreeFault { count } => Status::TreeFault { count },
            ReplayEnd::LoadRefused { refused } => Status::LoadRefused { refused },
            ReplayEnd::ReadFault => Status::ReadFault,
            ReplayEnd::WriteFault => Status::WriteFault,
            ReplayEnd::Full(full) => Status::full(full),
            ReplayEnd::SegmentFault => Status::SegmentFault,
            ReplayEnd::BadLine { line, kind } => Status::BadLine { line, kind },
            ReplayEnd::NoMemory => Status::NoMemory,
        }
    }

    /// The status of a service that ended so.
    pub(crate) fn of_service(end: ServiceEnd) -> Status
        ensures status { result ≡ status_of end }
    {
        match end {
            ServiceEnd::Done => Status::Done,
            ServiceEnd::TreeFault { count } => Status::TreeFault { count },
            ServiceEnd::LoadRefused { refused } => Status::LoadRefused { refused },
            ServiceEnd::WriteFault => Status::WriteFault,
            ServiceEnd::Full(full) => Status::full(full),
            ServiceEnd::Admissions { admitted } => Status::Admissions { admitted },
            ServiceEnd::DoorFault => Status::DoorFault,
            ServiceEnd::NoMemory => Status::NoMemory,
        }
    }

    /// The exit code of the program.
    pub fn code(&self) -> u8
        ensures code { result ≡ code_of self.now }
    {
        match self {
            Status::Done => 0,
            Status::Usage => 1,
            Status::TreeFault { .. } | Status::LoadRefused { .. } => 2,
            Status::ReadFault => 3,
            Status::WriteFault => 4,
            Status::JournalFull { .. } | Status::Admissions { .. } => 5,
            Status::BadLine { .. } | Status::BadBytes { .. } | Status::Truncated { .. } => 6,
            Status::DoorFault => 7,
            Status::SegmentFault => 8,
            Status::NoMemory => 70,
        }
    }
}

impl fmt::Display for Status {
    fn fmt<W: fmt::Write>(&self, f: &mut fmt::Formatter<W>) -> fmt::Result {
        match self {
            Status::Done => write!(f, "Done"),
            Status::Usage => write!(f, "Usage"),
            Status::TreeFault { count } => write!(f, "TreeFault {count}"),
            Status::LoadRefused { refused } => write!(f, "LoadRefused {refused}"),
            Status::ReadFault => write!(f, "ReadFault"),
            Status::WriteFault => write!(f, "WriteFault"),
            Status::JournalFull { entries, bytes } => write!(f, "JournalFull {entries} {bytes}"),
            Status::Admissions { admitted } => write!(f, "Admissions {admitted}"),
            Status::BadLine { line, kind } => write!(f, "BadLine {line} {kind:?}"),
            Status::BadBytes { kind, at } => write!(f, "BadBytes {kind:?} {at}"),
            Status::Truncated { rest } => write!(f, "Truncated {rest}"),
            Status::DoorFault => write!(f, "DoorFault"),
            Status::SegmentFault => write!(f, "SegmentFault"),
            Status::NoMemory => write!(f, "NoMemory"),
        }
    }
}
