// What an entry changes.
use authority_model::{Agent, GrantRow, Key, Pending};
use pk_types::{Identity, List};

/// Places of entries, counted from 0.
pub type PlaceList = List<u64>;

/// What an entry changes among the agents. What a departure or a load ends is seen by the entry itself.
#[derive(Drop)]
pub enum AgentChange {
    /// Nothing.
    Keep,
    /// This registration comes in force.
    Add(Agent),
    /// The registration of this subject ends.
    Drop(Key),
}

/// What an entry changes among the temporary authorizations. What a load ends is seen by the entry itself.
#[derive(Drop)]
pub enum GrantChange {
    /// Nothing.
    Keep,
    /// This one is made.
    Add(GrantRow),
    /// The one with this number is revoked; it may have expired.
    EndId(u64),
    /// All of this subject are revoked.
    EndKey(Key),
}

/// What an entry changes among the pending challenges.
#[derive(Drop)]
pub enum ChallengeChange {
    /// Nothing.
    Keep,
    /// The entry opens this challenge.
    Begun(Pending),
    /// The entry is the first accepted answer to the challenge that an entry opened.
    Answer {
        /// The place of the entry that opened it.
        entry: u64,
        /// Who answered.
        identity: Identity,
    },
    /// The challenges that these entries opened end, in the order of opening.
    Close(PlaceList),
}

/// All that an entry changes beside connections and outputs.
#[derive(Drop)]
pub struct EntryChange {
    /// Among the agents.
    pub agent: AgentChange,
    /// Among the temporary authorizations.
    pub grant: GrantChange,
    /// Among the pending challenges.
    pub challenge: ChallengeChange,
}
