// What happens to the authority.
use crate::ErrorCause;
use pk_types::{Identity, PairList, Subject, Text};

/// A call of a connection: a method of the interface org.freedesktop.PolicyKit1.Authority, or one
/// of this project's own interface (Announce and Reload).
#[derive(Drop)]
pub enum Call {
    /// The caller says which process it is.
    Announce {
        pid: u32,
        start: u64,
    },
    /// CheckAuthorization.
    Check {
        subject: Subject,
        action: Text,
        details: PairList,
        /// `ALLOW_USER_INTERACTION` allows that a user is asked; the other bits are ignored
        /// (CheckAuthorizationFlags).
        flags: u32,
        /// The cancellation id; empty for none.
        cancel: Text,
    },
    /// CancelCheckAuthorization.
    Cancel {
        cancel: Text,
    },
    /// RegisterAuthenticationAgent.
    Register {
        subject: Subject,
        locale: Text,
        /// The agent's object path.
        path: Text,
    },
    /// UnregisterAuthenticationAgent.
    Unregister {
        subject: Subject,
        path: Text,
    },
    /// AuthenticationAgentResponse: the identity was authenticated.
    Respond {
        cookie: Text,
        identity: Identity,
    },
    /// EnumerateActions.
    EnumerateActions {
        locale: Text,
    },
    /// EnumerateTemporaryAuthorizations.
    EnumerateGrants {
        subject: Subject,
    },
    /// RevokeTemporaryAuthorizations.
    RevokeAll {
        subject: Subject,
    },
    /// RevokeTemporaryAuthorizationById.
    RevokeOne {
        id: Text,
    },
    /// The caller asks for another load.
    Reload,
    /// A message that is not a call of the interfaces.
    Wrong {
        cause: ErrorCause,
    },
}

/// What happens to the authority.
#[derive(Drop)]
pub enum Event {
    /// A connection of a process of this user.
    Connect {
        uid: u32,
    },
    /// A call, which is answered by a reply with its serial, unless it is quiet or its serial is 0.
    Call {
        serial: u32,
        /// The caller wants no reply (the flag NO_REPLY_EXPECTED of the D-Bus Specification).
        quiet: bool,
        call: Call,
    },
    /// The caller's empty reply to the message that was sent to it with this serial.
    Returned {
        serial: u32,
    },
    /// The caller's error reply to the message that was sent to it with this serial.
    AgentError {
        serial: u32,
        name: Text,
    },
    /// A message that asks for nothing.
    Passed,
    /// The end of a connection.
    Depart,
    /// The load with this number, counted from 1.
    Load {
        load: u32,
    },
    /// A load that was refused, with the refusal's code.
    LoadFailed {
        code: u32,
    },
    /// The loader is to stop.
    Stop,
    /// The caller takes the outputs to this connection that it has not taken yet.
    Collect {
        of: u32,
    },
}

impl Event {
    ghost use Rattle.std.specs.Prelude.{IsTrue, ◌↔◌};
    ghost use Rattle.authority_model.specs.Given.{IsStepped};

    /// Whether the event is handed in by a step of its own: a load and a collecting are handed in by
    /// calls of their own.
    pub fn is_stepped(&self) -> bool
        ensures stepped { IsTrue result ↔ IsStepped self.now }
    {
        !matches!(self, Event::Load { .. } | Event::Collect { .. })
    }
}
