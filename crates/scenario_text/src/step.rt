// What a line of a scenario says.
use authority_model::{Event, GidList, Process, Session};
use pk_types::{ActionId, Implicit, Text, TextList};

/// What a line of a scenario says.
///
/// The draft is the policy and the world that the next load will give.
#[derive(Drop)]
pub enum Step {
    /// Nothing: an empty line or a comment.
    Blank,
    /// The moment of the events that follow, in seconds, at most 2^62.
    At {
        t: u64,
    },
    /// The draft's action of this id has these implicit values.
    Action {
        id: ActionId,
        any: Implicit,
        inactive: Implicit,
        active: Implicit,
    },
    /// The draft's first action implies the second.
    Imply {
        id: ActionId,
        implied: ActionId,
    },
    /// The identities are owners of the draft's action.
    Owner {
        id: ActionId,
        identities: TextList,
    },
    /// The draft's last entry of a local authority: globs of identities and of actions, and the
    /// results that are given.
    Entry {
        identities: TextList,
        actions: TextList,
        any: Option<Implicit>,
        inactive: Option<Implicit>,
        active: Option<Implicit>,
    },
    /// The draft's administrators.
    Admins {
        items: TextList,
    },
    /// A user of the draft.
    User {
        uid: u32,
        name: Text,
        gids: GidList,
    },
    /// A group of the draft.
    Group {
        gid: u32,
        name: Text,
    },
    /// A login session of the draft.
    Session {
        row: Session,
    },
    /// A process of the draft.
    Process {
        row: Process,
    },
    /// The draft has no such process.
    GoneProcess {
        pid: u32,
        start: u64,
    },
    /// The draft has no such session.
    GoneSession {
        id: Text,
    },
    /// The draft has no such action.
    GoneAction {
        id: ActionId,
    },
    /// The draft is loaded.
    Reload,
    /// The connection's event.
    Act {
        caller: u32,
        event: Event,
    },
}
