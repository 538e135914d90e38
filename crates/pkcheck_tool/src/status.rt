// How a check ended.
ghost use Rattle.std.specs.Prelude.{◌≡◌};
ghost use Rattle.pkcheck_tool.specs.Statuses.{code_of, status_of_stop};

use client_link::LinkStop;
use dbus_values::FaultKind;
use link_handshake::ShakeFault;
use std::fmt;

/// How a check ended. Each status has an exit code, and a text of one line that is the variant's name
/// and its fields in order.
#[derive(Clone, Copy, Debug, PartialEq, Eq)]
pub enum CheckStatus {
    /// The subject is authorized.
    Yes,
    /// It is not, and a challenge would not change that.
    No,
    /// It would be authorized after a challenge.
    Challenge,
    /// It is not, since the user dismissed the challenge.
    Dismissed,
    /// The reply is an error.
    Error,
    /// The words are not in the grammar of the command line.
    Usage,
    /// The station counted a fault: it could not dial, or the link failed.
    StationFault,
    /// The output counted a fault.
    WriteFault,
    /// The server's line of the handshake has this fault.
    BadShake { fault: ShakeFault },
    /// Behind the messages before the reply stands this fault, at this byte of the next message.
    BadBytes { kind: FaultKind, at: u64 },
    /// The link ended before the reply.
    Cut,
    /// Memory was refused.
    NoMemory,
}

impl CheckStatus {
    /// The exit code of the program.
    pub fn code(self) -> u8
        ensures code { result ≡ code_of self }
    {
        match self {
            CheckStatus::Yes => 0,
            CheckStatus::No => 1,
            CheckStatus::Challenge => 2,
            CheckStatus::Dismissed => 3,
            CheckStatus::Error => 126,
            CheckStatus::Usage
            | CheckStatus::StationFault
            | CheckStatus::WriteFault
            | CheckStatus::BadShake { .. }
            | CheckStatus::BadBytes { .. }
            | CheckStatus::Cut => 127,
            CheckStatus::NoMemory => 70,
        }
    }
}

/// How a check ends whose link is given up.
pub fn status_of(stop: LinkStop) -> CheckStatus
    ensures status { result ≡ status_of_stop stop }
{
    match stop {
        LinkStop::Failed => CheckStatus::StationFault,
        LinkStop::BadShake { fault } => CheckStatus::BadShake { fault },
        LinkStop::BadBytes { kind, at } => CheckStatus::BadBytes { kind, at },
        LinkStop::Cut => CheckStatus::Cut,
        LinkStop::NoMemory => CheckStatus::NoMemory,
    }
}

impl fmt::Display for CheckStatus {
    fn fmt<W: fmt::Write>(&self, f: &mut fmt::Formatter<W>) -> fmt::Result {
        match self {
            CheckStatus::BadShake { fault } => write!(f, "BadShake {fault:?}"),
            CheckStatus::BadBytes { kind, at } => write!(f, "BadBytes {kind:?} {at}"),
            other => write!(f, "{other:?}"),
        }
    }
}
