// How an opening ends.
use link_handshake::ShakeFault;

/// How the opening of a link ended.
#[derive(Clone, Copy, Debug, PartialEq, Eq)]
pub enum Opening {
    /// The messages begin. What was read of them is in the buffer.
    Begun,
    /// The client's bytes have this fault.
    BadShake { fault: ShakeFault },
    /// The source ended before the messages began.
    Cut,
    /// The source counted a fault.
    ReadFault,
    /// The sink counted a fault.
    WriteFault,
    /// Memory was refused.
    NoMemory,
}

/// Why a handshake is fed no further.
#[derive(Clone, Copy, Debug, PartialEq, Eq)]
pub enum ShakeStop {
    /// The messages begin.
    Begun,
    /// The client's bytes have this fault.
    Fault { fault: ShakeFault },
    /// The sink counted a fault.
    WriteFault,
}

impl ShakeStop {
    ghost use Rattle.std.specs.Prelude.{◌≡◌};
    ghost use Rattle.link_opening.specs.Opens.{opening_of};

    /// How the opening ends then.
    pub fn opening(self) -> Opening
        ensures { result ≡ opening_of self }
    {
        match self {
            ShakeStop::Begun => Opening::Begun,
            ShakeStop::Fault { fault } => Opening::BadShake { fault },
            ShakeStop::WriteFault => Opening::WriteFault,
        }
    }
}
