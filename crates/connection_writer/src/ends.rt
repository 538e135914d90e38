// How writing ends.
use history_lock::EndCause;
use pk_outside::Failed;
use pk_types::NoMemory;
use std::alloc::AllocError;

/// How the writing half of a connection ended.
#[derive(Clone, Copy, Debug, PartialEq, Eq)]
pub enum WriterEnd {
    /// The connection has departed, and all that was sent to it was written.
    All,
    /// The lock has ended, by this cause.
    Ended { cause: EndCause },
    /// The sink failed.
    WriteFault,
    /// Memory was refused.
    NoMemory,
}

/// Why no more of a batch was written.
#[derive(Clone, Copy, Debug, PartialEq, Eq)]
pub enum WriteStop {
    /// The sink failed.
    Failed,
    /// Memory was refused.
    NoMemory,
}

impl From<NoMemory> for WriteStop {
    ghost use Rattle.std.specs.Prelude.{◌≡◌};
    ghost use Rattle.connection_writer.specs.declared.ends.WriteStop.TheVariants as stop;

    ghost from_gives = { λ _ e. e ≡ stop.NoMemory };

    fn from(_: NoMemory) -> Self {
        WriteStop::NoMemory
    }
}

impl From<AllocError> for WriteStop {
    ghost use Rattle.std.specs.Prelude.{◌≡◌};
    ghost use Rattle.connection_writer.specs.declared.ends.WriteStop.TheVariants as stop;

    ghost from_gives = { λ _ e. e ≡ stop.NoMemory };

    fn from(_: AllocError) -> Self {
        WriteStop::NoMemory
    }
}

impl From<Failed> for WriteStop {
    ghost use Rattle.std.specs.Prelude.{◌≡◌};
    ghost use Rattle.connection_writer.specs.declared.ends.WriteStop.TheVariants as stop;

    ghost from_gives = { λ _ e. e ≡ stop.Failed };

    fn from(_: Failed) -> Self {
        WriteStop::Failed
    }
}
