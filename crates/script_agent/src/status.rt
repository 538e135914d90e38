// How an agent ends.
use client_link::LinkStop;
use dbus_values::FaultKind;
use link_handshake::ShakeFault;
use pk_outside::{Failed, StationRefused};
use pk_types::NoMemory;

/// How an agent ends. Except `Done` and `Refused`, which are its exit statuses 0 and 126, and
/// `NoMemory`, which is 70, each is the exit status 127.
#[derive(Clone, Copy, Debug, PartialEq, Eq)]
pub enum AgentStatus {
    /// All challenges were met.
    Done,
    /// The registration was answered by an error.
    Refused,
    /// The words of the command line are not in the grammar.
    Usage,
    /// The tree of files failed, and counted it.
    TreeFault,
    /// The rule file is not one.
    RuleFile,
    /// The station failed, and counted it: it could not dial, or a link failed that was hung up.
    StationFault,
    /// The output failed, and counted it.
    WriteFault,
    /// The handshake of a link has this fault.
    BadShake { fault: ShakeFault },
    /// A message of a link has this fault, at this byte of it.
    BadBytes { kind: FaultKind, at: u64 },
    /// A link ended before what was awaited.
    Cut,
    /// Memory was refused.
    NoMemory,
}

impl AgentStatus {
    ghost use Rattle.std.specs.Prelude.{◌≡◌};
    ghost use Rattle.script_agent.specs.Stops.{code_of};

    /// The exit status of the program: 0, 126, 70 or 127.
    pub fn code(self) -> u8
        ensures code { result ≡ code_of self }
    {
        match self {
            AgentStatus::Done => 0,
            AgentStatus::Refused => 126,
            AgentStatus::NoMemory => 70,
            _ => 127,
        }
    }
}

impl From<LinkStop> for AgentStatus {
    ghost use Rattle.std.specs.Prelude.{◌≡◌};
    ghost use Rattle.script_agent.specs.Stops.{status_of};

    ghost from_gives = { λ stop given. given ≡ status_of stop };

    fn from(stop: LinkStop) -> Self {
        match stop {
            LinkStop::Failed => AgentStatus::StationFault,
            LinkStop::BadShake { fault } => AgentStatus::BadShake { fault },
            LinkStop::BadBytes { kind, at } => AgentStatus::BadBytes { kind, at },
            LinkStop::Cut => AgentStatus::Cut,
            LinkStop::NoMemory => AgentStatus::NoMemory,
        }
    }
}

impl From<StationRefused> for AgentStatus {
    ghost use Rattle.std.specs.Prelude.{◌≡◌};
    ghost use Rattle.script_agent.specs.Stops.{status_of_refused};

    ghost from_gives = { λ refused given. given ≡ status_of_refused refused };

    fn from(refused: StationRefused) -> Self {
        match refused {
            StationRefused::Failed => AgentStatus::StationFault,
            StationRefused::NoMemory => AgentStatus::NoMemory,
        }
    }
}

impl From<Failed> for AgentStatus {
    ghost use Rattle.std.specs.Prelude.{◌≡◌};
    ghost use Rattle.script_agent.specs.declared.status.AgentStatus.TheVariants as status;

    ghost from_gives = { λ _ given. given ≡ status.WriteFault };

    fn from(_: Failed) -> Self {
        AgentStatus::WriteFault
    }
}

impl From<NoMemory> for AgentStatus {
    ghost use Rattle.std.specs.Prelude.{◌≡◌};
    ghost use Rattle.script_agent.specs.declared.status.AgentStatus.TheVariants as status;

    ghost from_gives = { λ _ given. given ≡ status.NoMemory };

    fn from(_: NoMemory) -> Self {
        AgentStatus::NoMemory
    }
}
