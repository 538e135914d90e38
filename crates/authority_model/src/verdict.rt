// Decisions and verdicts.
use crate::{Key, KeyRef};
use pk_types::{Category, Implicit, List, NoMemory, PairList, Text, TryCopy};

/// How long a temporary authorization lives, in seconds.
pub const GRANT_SECONDS: u64 = 300;

/// What gave an implicit value.
#[derive(Clone, Copy, Debug, PartialEq, Eq)]
pub enum RuleSource {
    /// The action's default for this category.
    Default(Category),
    /// The rule entry at this place, counted from 0.
    Entry(u32),
}

/// What a check would be told without a challenge.
#[derive(Clone, Copy, Debug, PartialEq, Eq)]
pub enum Decision {
    /// Yes, since the subject's user is uid 0.
    Root,
    /// Yes, by a default or a rule.
    Yes(RuleSource),
    /// Yes, by the grant with this number.
    Grant(u64),
    /// Yes, by the action at this place, counted from 0, which implies the action and is allowed.
    Imply(u32),
    /// A challenge of this value, by a default or a rule.
    Challenge(Implicit, RuleSource),
    /// No, by a default or a rule.
    No(RuleSource),
}

/// Why a verdict is what it is.
#[derive(Drop)]
pub enum Reason {
    /// The subject's user is uid 0.
    Root,
    /// The action's default for this category.
    Default(Category),
    /// The rule entry at this place, counted from 0.
    Entry(u32),
    /// The grant with this number.
    Grant(u64),
    /// The action with this id, which implies the action and is allowed.
    Imply(Text),
    /// A challenge was answered, or it ended without an answer.
    Challenge,
    /// The user dismissed the dialogue.
    Dismissed,
    /// The agent departed, or was unregistered.
    AgentGone,
    /// The subject left the world.
    SubjectGone,
    /// The action left the policy while the dialogue was up.
    ActionGone,
    /// The identity that answered may not answer any more.
    IdentityGone,
}

/// What names a challenge: its number, counted from 1, and a salt.
#[derive(Clone, Copy, Debug, PartialEq, Eq)]
pub struct Cookie {
    /// The number of the challenge, counted from 1.
    pub serial: u64,
    /// The salt of the entry that opened it.
    pub salt: u128,
}

/// The answer to a check (AuthorizationResult in the reference manual).
#[derive(Drop)]
pub struct Verdict {
    /// The subject is authorized.
    pub yes: bool,
    /// The subject is not authorized, and would be after a challenge.
    pub challenge: bool,
    pub reason: Reason,
    /// The challenge would make a grant.
    pub keep: bool,
    /// The number of the grant that was made for this verdict.
    pub grant: Option<u64>,
    /// The pairs of the rule that decided yes.
    pub pairs: PairList,
}

/// A grant (TemporaryAuthorization in the reference manual).
#[derive(Drop)]
pub struct GrantRow {
    /// Its number, counted from 0, which is written `tmpauthz` and the number.
    pub id: u64,
    /// The id of the action that it is for.
    pub action: Text,
    /// The subject that it is for.
    pub key: Key,
    /// When it was made, in seconds.
    pub obtained: u64,
    /// The first second at which it has expired.
    pub expires: u64,
}

/// A list of grants.
pub type GrantRowList = List<GrantRow>;

impl GrantRow {
    ghost use Rattle.std.specs.Prelude.{◌≡◌};
    ghost use Rattle.authority_model.specs.Keys.{key_seen};
    ghost use Rattle.authority_model.specs.Deciding.{is_live_at, serves};

    /// Whether a temporary authorization that nothing ended has not expired at a moment.
    pub fn is_live_at(&self, moment: u64) -> bool
        ensures live { result ≡ is_live_at moment self.now }
    {
        moment < self.expires
    }

    /// Whether it is for a key and an action, and has not expired at a moment.
    pub fn serves(&self, key: KeyRef, action: &Text, moment: u64) -> bool
        ensures serves { result ≡ serves (key_seen key.entry) action.now moment self.now }
    {
        self.key.is_same(key) && self.action.is_same(action) && self.is_live_at(moment)
    }
}

impl TryCopy for GrantRow {
    fn try_copy(&self) -> Result<GrantRow, NoMemory> {
        Ok(GrantRow {
            id: self.id,
            action: self.action.try_copy()?,
            key: self.key.try_copy()?,
            obtained: self.obtained,
            expires: self.expires,
        })
    }
}
