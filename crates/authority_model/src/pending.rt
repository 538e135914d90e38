// Agents that are registered, and challenges that are pending.
use crate::{Cookie, Key, RuleSource};
use pk_types::{Identity, IdentityList, Implicit, Text};

/// How many checks of one user may be pending at once.
pub const MAX_PENDING: usize = 64;

/// A registration of an authentication agent.
#[derive(Drop)]
pub struct Agent {
    /// The number of the connection that registered it.
    pub caller: u32,
    /// Its object path.
    pub path: Text,
    /// The locale of the texts that it shows.
    pub locale: Text,
    /// The subject that it is registered for.
    pub key: Key,
}

/// A challenge that is up: what the entry that opened it tells, and the identity that answered it.
#[derive(Drop)]
pub struct Pending {
    /// The place of the entry that opened it, counted from 0.
    pub entry: u64,
    /// The number of the connection whose check it is.
    pub asker: u32,
    pub asker_uid: u32,
    /// The serial of the check.
    pub serial: u32,
    /// The check wants no reply.
    pub quiet: bool,
    /// The check's cancellation id; empty for none.
    pub cancel: Text,
    /// The subject that the check is about.
    pub key: Key,
    pub action: Text,
    /// The value that asked for the challenge, and what gave it.
    pub value: Implicit,
    pub source: RuleSource,
    pub cookie: Cookie,
    /// Who may answer.
    pub identities: IdentityList,
    /// The number of the connection that is asked.
    pub agent: u32,
    /// The serial of the BeginAuthentication that asks it.
    pub agent_serial: u32,
    /// The subject that this agent is registered for.
    pub agent_key: Key,
    /// Its object path.
    pub agent_path: Text,
    /// The identity of the first accepted answer.
    pub answered: Option<Identity>,
}
