// How a run ends, and what stops it.
use authority_core::{Fullness, Halt};
use dbus_values::FaultKind;
use pk_outside::Failed;
use pk_types::NoMemory;

/// How the run of a connection ended.
#[derive(Clone, Copy, Debug, PartialEq, Eq)]
pub enum PipeEnd {
    /// The input ended behind a message, and all was answered.
    Done,
    /// The input counted a fault.
    ReadFault,
    /// The output counted a fault.
    WriteFault,
    /// A further entry was due, and the journal had reached a limit. It is this full.
    Full(Fullness),
    /// Behind the messages that were answered stands this fault, at this byte of the next message.
    BadBytes { kind: FaultKind, at: u64 },
    /// The input ended inside a message, after this many bytes of it.
    Truncated { rest: u64 },
    /// Memory was refused.
    NoMemory,
}

/// What stops a run at something that is handed in.
#[derive(Clone, Copy, Debug, PartialEq, Eq)]
pub enum Stopped {
    /// The journal had reached a limit. It is this full.
    Full(Fullness),
    /// The output counted a fault.
    WriteFault,
    /// Memory was refused.
    NoMemory,
}

impl From<NoMemory> for Stopped {
    ghost use Rattle.std.specs.Prelude.{◌≡◌};
    ghost use Rattle.pipe_run.specs.declared.ends.Stopped.TheVariants as stopped;

    ghost from_gives = { λ _ e. e ≡ stopped.NoMemory };

    fn from(_: NoMemory) -> Self {
        Stopped::NoMemory
    }
}

impl From<Halt> for Stopped {
    ghost use Rattle.std.specs.Prelude.{◌≡◌};
    ghost use Rattle.pipe_run.specs.Stops.{stopped_by};

    ghost from_gives = { λ halt e. e ≡ stopped_by halt };

    fn from(halt: Halt) -> Self {
        match halt {
            Halt::Full(full) => Stopped::Full(full),
            Halt::NoMemory => Stopped::NoMemory,
        }
    }
}

impl From<Failed> for Stopped {
    ghost use Rattle.std.specs.Prelude.{◌≡◌};
    ghost use Rattle.pipe_run.specs.declared.ends.Stopped.TheVariants as stopped;

    ghost from_gives = { λ _ e. e ≡ stopped.WriteFault };

    fn from(_: Failed) -> Self {
        Stopped::WriteFault
    }
}

impl Stopped {
    ghost use Rattle.std.specs.Prelude.{◌≡◌};
    ghost use Rattle.pipe_run.specs.Stops.{end_of};

    /// How this ends the run.
    pub fn end(self) -> PipeEnd
        ensures end { result ≡ end_of self }
    {
        match self {
            Stopped::Full(full) => PipeEnd::Full(full),
            Stopped::WriteFault => PipeEnd::WriteFault,
            Stopped::NoMemory => PipeEnd::NoMemory,
        }
    }
}
