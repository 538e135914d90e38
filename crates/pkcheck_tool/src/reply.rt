// The reply to a check.
ghost use Rattle.std.specs.Prelude.{◌≡◌};
ghost use Rattle.pkcheck_tool.specs.Replies.{has_key, reply_of, status_of};

use crate::status::CheckStatus;
use client_messages::ClientAnswer;
use pk_types::{Pair, PairList, Text};

/// The detail that tells a dismissed challenge (AuthorizationResult in the reference manual).
pub const DISMISSED: &str = "polkit.dismissed";

/// The reply to CheckAuthorization.
#[derive(Drop)]
pub enum Reply {
    /// What the authority decided (AuthorizationResult in the reference manual).
    Verdict {
        /// The subject is authorized.
        yes: bool,
        /// It would be after a challenge.
        challenge: bool,
        /// The details in their order.
        details: PairList,
    },
    /// The error of this name.
    Error {
        name: Text,
    },
}

/// The reply that an answer is, if it is one: a verdict or an error.
pub fn reply_of(answer: ClientAnswer) -> Option<Reply>
    ensures exact { result ≡ reply_of answer }
{
    match answer {
        ClientAnswer::Verdict {
            yes,
            challenge,
            details,
        } => Some(Reply::Verdict {
            yes,
            challenge,
            details,
        }),
        ClientAnswer::ErrorNamed(name) => Some(Reply::Error { name }),
        ClientAnswer::Done => None,
        ClientAnswer::Name(_) => None,
        ClientAnswer::Other => None,
    }
}

/// Whether one of the pairs has this key.
fn has_key(pairs: &[Pair], key: &str) -> bool
    ensures exact { result ≡ has_key key.now pairs.now }
{
    pairs.iter().any(|pair| pair.key.bytes() == key.as_bytes())
}

impl Reply {
    /// How a check ends that has this reply.
    pub fn status(&self) -> CheckStatus
        ensures exact { result ≡ status_of self.now }
    {
        match self {
            Reply::Verdict { yes: true, .. } => CheckStatus::Yes,
            Reply::Verdict {
                challenge: true,
                ..
            } => CheckStatus::Challenge,
            Reply::Verdict { details, .. } => {
                if has_key(details.as_slice(), DISMISSED) {
                    CheckStatus::Dismissed
                } else {
                    CheckStatus::No
                }
            }
            Reply::Error { .. } => CheckStatus::Error,
        }
    }
}
