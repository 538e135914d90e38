// What is sent to a connection.
use crate::{Cookie, GrantRowList, Verdict};
use pk_types::{IdentityList, List, PairList, Text};

/// Why a call is refused.
///
/// Each cause is sent as an error: its name, and what a scenario prints of it, stand in
/// `specs/Causes.antt`.
#[derive(Clone, Copy, Debug, PartialEq, Eq)]
pub enum ErrorCause {
    /// The caller has a pending check with this cancellation id.
    IdInUse,
    /// The policy in force has no action of that id.
    UnknownAction,
    /// The subject is not known.
    UnknownSubject,
    /// The caller may not ask about the subject, or may not hand in details.
    NotTrusted,
    /// The caller's user has as many pending checks as are allowed.
    TooManyPending,
    /// The check was cancelled.
    Cancelled,
    /// No pending check of the caller has this cancellation id.
    NoSuchId,
    /// Only uid 0 may do this.
    NotPrivileged,
    /// No pending challenge has this cookie.
    NoSuchCookie,
    /// The identity was not offered to the agent.
    NotOffered,
    /// An agent is registered for the subject.
    AgentExists,
    /// The subject has no agent of this caller at this path.
    NoSuchAgent,
    /// The subject or the grant belongs to another user.
    NotYours,
    /// No live grant has this id.
    NoSuchGrant,
    /// No object stands at this path.
    UnknownObject,
    /// The object has no such method.
    UnknownMethod,
    /// The arguments are not those of the method.
    InvalidArgs,
    /// The announced process is not listed for this user.
    BadAnnounce,
}

/// What a call is answered.
#[derive(Drop)]
pub enum Answer {
    /// The answer to a check.
    Verdict(Verdict),
    /// The call was done.
    Done,
    /// A bus name.
    Name(Text),
    /// The actions of this load, with their texts for this locale.
    Actions { load: u32, locale: Text },
    /// The live grants of a subject.
    Grants(GrantRowList),
    /// The call is refused for this cause.
    Refused(ErrorCause),
}

/// What is sent to a connection.
#[derive(Drop)]
pub enum Message {
    /// The answer to the call with this serial.
    Reply {
        serial: u32,
        answer: Answer,
    },
    /// BeginAuthentication of the interface org.freedesktop.PolicyKit1.AuthenticationAgent.
    Begin {
        /// The agent's object path.
        path: Text,
        action: Text,
        /// The action's message for the agent's locale.
        text: Text,
        icon: Text,
        details: PairList,
        cookie: Cookie,
        /// Who may answer.
        identities: IdentityList,
    },
    /// CancelAuthentication of the same interface.
    CancelBegin {
        path: Text,
        cookie: Cookie,
    },
    /// The signal Changed of the interface org.freedesktop.PolicyKit1.Authority.
    Changed,
    /// The loader is asked to load again.
    LoadWanted,
    /// The loader is asked to stop.
    StopWanted,
}

/// A message with its receiver.
#[derive(Drop)]
pub struct Output {
    /// The number of the connection that it is sent to.
    pub to: u32,
    pub message: Message,
}

/// A list of messages with their receivers.
pub type OutputList = List<Output>;
