// How each refusal is sent.
use crate::ErrorCause;

impl ErrorCause {
    ghost use Rattle.std.specs.Prelude.{◌≡◌};
    ghost use Rattle.authority_model.specs.Causes.{error_last_part, error_name, error_text, error_word, is_bus_error};

    /// Whether the error is one of the D-Bus Specification, and not of polkit.
    pub fn is_bus_error(self) -> bool
        ensures bus { result ≡ is_bus_error self }
    {
        matches!(
            self,
            ErrorCause::TooManyPending
                | ErrorCause::UnknownObject
                | ErrorCause::UnknownMethod
                | ErrorCause::InvalidArgs
        )
    }

    /// The last part of the error's name.
    pub fn last_part(self) -> &'static str
        ensures part { result.now ≡ error_last_part self }
    {
        match self {
            ErrorCause::IdInUse => "CancellationIdNotUnique",
            ErrorCause::UnknownAction
            | ErrorCause::UnknownSubject
            | ErrorCause::NoSuchId
            | ErrorCause::NoSuchCookie
            | ErrorCause::NotOffered
            | ErrorCause::AgentExists
            | ErrorCause::NoSuchAgent
            | ErrorCause::NoSuchGrant
            | ErrorCause::BadAnnounce => "Failed",
            ErrorCause::NotTrusted | ErrorCause::NotPrivileged | ErrorCause::NotYours =>
                "NotAuthorized",
            ErrorCause::TooManyPending => "LimitsExceeded",
            ErrorCause::Cancelled => "Cancelled",
            ErrorCause::UnknownObject => "UnknownObject",
            ErrorCause::UnknownMethod => "UnknownMethod",
            ErrorCause::InvalidArgs => "InvalidArgs",
        }
    }

    /// The word that a scenario prints.
    pub fn word(self) -> &'static str
        ensures word { result.now ≡ error_word self }
    {
        match self {
            ErrorCause::IdInUse => "id-in-use",
            ErrorCause::UnknownAction => "unknown-action",
            ErrorCause::UnknownSubject => "unknown-subject",
            ErrorCause::NotTrusted => "not-trusted",
            ErrorCause::TooManyPending => "too-many-pending",
            ErrorCause::Cancelled => "cancelled",
            ErrorCause::NoSuchId => "no-such-id",
            ErrorCause::NotPrivileged => "not-privileged",
            ErrorCause::NoSuchCookie => "no-such-cookie",
            ErrorCause::NotOffered => "not-offered",
            ErrorCause::AgentExists => "agent-exists",
            ErrorCause::NoSuchAgent => "no-such-agent",
            ErrorCause::NotYours => "not-yours",
            ErrorCause::NoSuchGrant => "no-such-grant",
            ErrorCause::UnknownObject => "unknown-object",
            ErrorCause::UnknownMethod => "unknown-method",
            ErrorCause::InvalidArgs => "invalid-args",
            ErrorCause::BadAnnounce => "bad-announce",
        }
    }

    /// The text of the error message.
    pub fn text(self) -> &'static str
        ensures text { result.now ≡ error_text self }
    {
        match self {
            ErrorCause::IdInUse => "The cancellation id is in use",
            ErrorCause::UnknownAction => "The action is not registered",
            ErrorCause::UnknownSubject => "The subject is not known",
            ErrorCause::NotTrusted => "Only uid 0 or an action owner may ask this",
            ErrorCause::TooManyPending => "Too many pending checks",
            ErrorCause::Cancelled => "The check was cancelled",
            ErrorCause::NoSuchId => "No pending check has this cancellation id",
            ErrorCause::NotPrivileged => "Only uid 0 may do this",
            ErrorCause::NoSuchCookie => "No pending challenge has this cookie",
            ErrorCause::NotOffered => "The identity was not offered",
            ErrorCause::AgentExists => "An agent is registered for the subject",
            ErrorCause::NoSuchAgent => "No such agent is registered",
            ErrorCause::NotYours => "The subject belongs to another user",
            ErrorCause::NoSuchGrant => "No such temporary authorization",
            ErrorCause::UnknownObject => "No such object",
            ErrorCause::UnknownMethod => "No such method",
            ErrorCause::InvalidArgs => "Wrong arguments",
            ErrorCause::BadAnnounce => "The process is not listed for this user",
        }
    }
}
