// How many of each kind there are.
ghost use Rattle.std.specs.Prelude.{◌≡◌};
ghost use Rattle.authority_desk.specs.Counts.{in_word};

/// How many of each kind there are after a history.
#[derive(Clone, Copy, Debug, PartialEq, Eq)]
pub struct DeskCounts {
    /// How many connections are live.
    pub live: u32,
    /// How many authentication agents are registered.
    pub agents: u32,
    /// How many checks are pending.
    pub pending: u32,
    /// How many temporary authorizations have not expired at the moment of the last entry.
    pub grants: u32,
    /// How many entries were made.
    pub entries: u64,
    /// How many outputs they have.
    pub outputs: u64,
}

/// A number as 32 bits count it: the greatest of theirs where it is greater.
pub(crate) fn in_word(count: usize) -> u32
    ensures word { result ≡ in_word count }
{
    u32::try_from(count).unwrap_or(u32::MAX)
}
