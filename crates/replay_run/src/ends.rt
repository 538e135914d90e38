// How a replay ends, and what stops it at a line.
ghost use Rattle.std.specs.Prelude.{◌≡◌};
ghost use Rattle.replay_run.specs.Lines.{end_of, stop_of};

use authority_core::Fullness;
use policy_load::LoadRefused;
use scenario_run::LineStop;
use scenario_text::{LineFault, LineKind};

/// How a replay ended.
#[derive(Debug, Drop)]
pub enum ReplayEnd {
    /// The input ended, and all its lines were run.
    Done,
    /// The tree of the root counted a fault while the first load was read.
    TreeFault { count: u64 },
    /// The first load was refused by a limit or by a table.
    LoadRefused { refused: LoadRefused },
    /// The input counted a fault.
    ReadFault,
    /// The output counted a fault.
    WriteFault,
    /// A further entry was due, and the journal had reached a limit. It is this full.
    Full(Fullness),
    /// The file of the segments counted a fault, of a journal in segments.
    SegmentFault,
    /// A line is not in the grammar of scenarios. Lines are counted from 1.
    BadLine { line: u64, kind: LineKind },
    /// Memory was refused.
    NoMemory,
}

/// Why a run stopped at a line.
#[derive(Clone, Copy, Debug, PartialEq, Eq)]
pub enum Stopped {
    /// The line has this fault.
    Fault(LineKind),
    /// The journal had reached a limit. It is this full.
    Full(Fullness),
    /// The file of the segments failed, and counted it.
    SegmentFault,
    /// The output failed, and counted it.
    WriteFault,
    /// Memory was refused.
    NoMemory,
}

impl Stopped {
    /// How a line stops the run.
    pub fn of(stop: LineStop) -> Stopped
        ensures stop { result ≡ stop_of stop }
    {
        match stop {
            LineStop::Fault(
                LineFault {
                    kind: LineKind::NoMemory,
                    ..
                },
            ) => Stopped::NoMemory,
            LineStop::Fault(LineFault { kind, .. }) => Stopped::Fault(kind),
            LineStop::Full(full) => Stopped::Full(full),
            LineStop::SegmentFault => Stopped::SegmentFault,
        }
    }

    /// How a run ends at the line of this number, which stopped it.
    pub fn end(self, number: u64) -> ReplayEnd
        ensures end { result ≡ end_of self number }
    {
        match self {
            Stopped::Fault(kind) => ReplayEnd::BadLine { line: number, kind },
            Stopped::Full(full) => ReplayEnd::Full(full),
            Stopped::SegmentFault => ReplayEnd::SegmentFault,
            Stopped::WriteFault => ReplayEnd::WriteFault,
            Stopped::NoMemory => ReplayEnd::NoMemory,
        }
    }
}
