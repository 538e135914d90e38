// Why a client gives up a link.
use dbus_values::FaultKind;
use link_handshake::ShakeFault;
use pk_outside::Failed;
use pk_types::NoMemory;

/// Why a client gives up a link.
#[derive(Clone, Copy, Debug, PartialEq, Eq)]
pub enum LinkStop {
    /// A direction of the link failed, and counted one fault.
    Failed,
    /// The server's line of the handshake has this fault.
    BadShake { fault: ShakeFault },
    /// The next message has this fault, at this byte of it.
    BadBytes { kind: FaultKind, at: u64 },
    /// The link ended before what was awaited.
    Cut,
    /// Memory was refused.
    NoMemory,
}

impl From<Failed> for LinkStop {
    ghost use Rattle.std.specs.Prelude.{◌≡◌};
    ghost use Rattle.client_link.specs.declared.stop.LinkStop.TheVariants as stop;

    ghost from_gives = { λ _ e. e ≡ stop.Failed };

    fn from(_: Failed) -> Self {
        LinkStop::Failed
    }
}

impl From<NoMemory> for LinkStop {
    ghost use Rattle.std.specs.Prelude.{◌≡◌};
    ghost use Rattle.client_link.specs.declared.stop.LinkStop.TheVariants as stop;

    ghost from_gives = { λ _ e. e ≡ stop.NoMemory };

    fn from(_: NoMemory) -> Self {
        LinkStop::NoMemory
    }
}
