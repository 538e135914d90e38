// The journal: each event with its outputs.
use crate::{Event, Loaded, LoadedList, OutputList};
use pk_types::List;

/// The greatest limit of entries of a journal.
pub const MAX_ENTRIES: u64 = 1_048_576;

/// The greatest limit of counted bytes of a journal.
pub const MAX_BYTES: u64 = 536_870_912;

/// How much a journal may hold. It takes no further entry as soon as it has as many entries, or as many
/// counted bytes; so the last entry may bring the bytes over their limit.
#[derive(Clone, Copy, Debug, PartialEq, Eq)]
pub struct Limits {
    /// The number of entries, at most `MAX_ENTRIES`.
    pub entries: u64,
    /// The counted bytes, at most `MAX_BYTES`.
    pub bytes: u64,
}

impl Limits {
    /// The greatest limits of a journal.
    pub const GREATEST: Limits = Limits {
        entries: MAX_ENTRIES,
        bytes: MAX_BYTES,
    };
}

/// One event with its outputs.
#[derive(Drop)]
pub struct Entry {
    /// The number of the connection whose event it is.
    pub caller: u32,
    /// The greatest moment handed in so far, in seconds, at most 2^62.
    pub moment: u64,
    /// The salt of a challenge that the entry opens.
    pub salt: u128,
    pub event: Event,
    /// The messages that the event causes, in the order in which they are sent.
    pub outputs: OutputList,
}

/// A list of entries.
pub type EntryList = List<Entry>;

/// An entry with the load that it names.
#[derive(Drop)]
pub struct Item {
    pub entry: Entry,
    /// The load of an entry whose event is Load, and nothing for any other.
    pub loaded: Option<Loaded>,
}

/// All entries, oldest first, and the loads that they name: the j-th Load entry has the j-th load.
#[derive(Drop)]
pub struct History {
    pub entries: EntryList,
    /// The loads by their numbers, the first of which is 1.
    pub loads: LoadedList,
}
