// How an explanation ended.
ghost use Rattle.std.specs.Prelude.{◌≡◌};
ghost use Rattle.pkexplain_tool.specs.Explains.{code_of, status_of};

use policy_load::LoadRefused;
use std::fmt;

/// How an explanation ended. Each status has an exit code, and a text of one line that is the
/// variant's name and its fields in order.
#[derive(Debug, Drop)]
pub enum ExplainStatus {
    /// All lines were written.
    Done,
    /// The words are not in the grammar of the command line.
    Usage,
    /// The tree of the root counted a fault while it was loaded.
    TreeFault { count: u64 },
    /// The load was refused by a limit or by a table.
    LoadRefused { refused: LoadRefused },
    /// The output counted a fault.
    WriteFault,
    /// Memory was refused.
    NoMemory,
}

impl ExplainStatus {
    /// How a load that is refused ends the run.
    pub(crate) fn of_refused(refused: LoadRefused) -> ExplainStatus
        ensures status { result ≡ status_of refused }
    {
        match refused {
            LoadRefused::TreeFault { count } => ExplainStatus::TreeFault { count },
            LoadRefused::NoMemory => ExplainStatus::NoMemory,
            refused => ExplainStatus::LoadRefused { refused },
        }
    }

    /// The exit code of the program.
    pub fn code(&self) -> u8
        ensures code { result ≡ code_of self.now }
    {
        match self {
            ExplainStatus::Done => 0,
            ExplainStatus::Usage => 1,
            ExplainStatus::TreeFault { .. } | ExplainStatus::LoadRefused { .. } => 2,
            ExplainStatus::WriteFault => 4,
            ExplainStatus::NoMemory => 70,
        }
    }
}

impl fmt::Display for ExplainStatus {
    fn fmt<W: fmt::Write>(&self, f: &mut fmt::Formatter<W>) -> fmt::Result {
        match self {
            ExplainStatus::Done => write!(f, "Done"),
            ExplainStatus::Usage => write!(f, "Usage"),
            ExplainStatus::TreeFault { count } => write!(f, "TreeFault {count}"),
            ExplainStatus::LoadRefused { refused } => write!(f, "LoadRefused {refused}"),
            ExplainStatus::WriteFault => write!(f, "WriteFault"),
            ExplainStatus::NoMemory => write!(f, "NoMemory"),
        }
    }
}
