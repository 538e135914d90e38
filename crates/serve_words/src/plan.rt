// What a service is to do.
use authority_model::Limits;
use command_line::DoorPath;
use pk_types::{List, Text};

/// Doors in the order of their options.
pub type DoorList = List<DoorPath>;

/// What a service is to do: which tree it loads, at which doors it serves, and how much.
#[derive(Drop)]
pub struct ServePlan {
    /// The root of the tree of files.
    pub root: Text,
    /// The doors.
    pub doors: DoorList,
    /// How many connections each door serves at once. Slots times doors is at most 64.
    pub slots: u32,
    /// How many connections each slot serves before it ends, or none where it goes on.
    pub stop_after: Option<u32>,
    /// The limits of the journal.
    pub limits: Limits,
    /// Whether each connection looks at the process that a call names, before that call.
    pub live: bool,
    /// Whether the audit text of the journal is written in place of all lines.
    pub audit: bool,
}
