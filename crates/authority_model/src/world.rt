// The world: users, groups, sessions and processes.
ghost use Rattle.std.specs.Prelude.{◌≡◌, ◌==◌, ◌&&◌, bytes_eq};
ghost use Rattle.std.specs.List.{list_any};

use crate::Key;
use pk_types::{List, Text};

/// A list of the numbers of groups.
pub type GidList = List<u32>;

/// A user.
#[derive(Drop)]
pub struct User {
    pub uid: u32,
    pub name: Text,
    /// `unix-user:NAME`, which identity globs match.
    pub label: Text,
    /// The groups that the user is in, its own first.
    pub gids: GidList,
}

/// A list of users.
pub type UserList = List<User>;

/// A group.
#[derive(Drop)]
pub struct Group {
    pub gid: u32,
    pub name: Text,
    /// `unix-group:NAME`, which identity globs match.
    pub label: Text,
}

/// A list of groups.
pub type GroupList = List<Group>;

/// A login session.
#[derive(Drop)]
pub struct Session {
    pub id: Text,
    /// Whose session it is.
    pub uid: u32,
    /// Whether it is on a local console.
    pub local: bool,
    /// Whether it is the one in front.
    pub active: bool,
}

/// A list of sessions.
pub type SessionList = List<Session>;

/// A process that runs.
#[derive(Drop)]
pub struct Process {
    pub pid: u32,
    /// When it started, as the kernel counts: a pid with its start is used once.
    pub start: u64,
    pub uid: u32,
    /// The id of the session that it is in.
    pub session: Option<Text>,
}

/// A list of processes.
pub type ProcessList = List<Process>;

/// Users, groups, sessions and processes.
///
/// Each of its lists has fewer than 2^32 items. Of several rows with one key the first counts.
#[derive(Drop)]
pub struct World {
    pub users: UserList,
    pub groups: GroupList,
    pub sessions: SessionList,
    pub processes: ProcessList,
}

/// Whether a row has all these parts of a process's key.
fn is_process(row: &Process, pid: u32, start: u64, uid: u32) -> bool
    ensures is { result ≡ ((row.now.pid == pid) && (row.now.start == start) && (row.now.uid == uid)) }
{
    row.pid == pid && row.start == start && row.uid == uid
}

/// Whether a row has both parts of a session's key.
fn is_session(row: &Session, id: &Text, uid: u32) -> bool
    ensures is { result ≡ (bytes_eq row.now.id id.now && (row.now.uid == uid)) }
{
    row.id.is_same(id) && row.uid == uid
}

/// Whether a process stands among these.
fn has_process(rows: &[Process], pid: u32, start: u64, uid: u32) -> bool
    ensures has { result ≡ list_any (λ p. (p.pid == pid) && (p.start == start) && (p.uid == uid)) rows.now }
{
    rows.iter().any(|row| is_process(row, pid, start, uid))
}

/// Whether a session stands among these.
fn has_session(rows: &[Session], id: &Text, uid: u32) -> bool
    ensures has { result ≡ list_any (λ s. bytes_eq s.id id.now && (s.uid == uid)) rows.now }
{
    rows.iter().any(|row| is_session(row, id, uid))
}

impl World {
    ghost use Rattle.std.specs.Option.{option_copied};
    ghost use Rattle.authority_model.specs.Worlds.{user_row, group_row, session_row, process_row, lists_key};

    /// The user with this uid: its first row.
    pub fn user(&self, uid: u32) -> Option<&User>
        ensures first { option_copied result ≡ user_row self.now uid }
    {
        self.users.as_slice().iter().find(|row| row.uid == uid)
    }

    /// The group with this gid: its first row.
    pub fn group(&self, gid: u32) -> Option<&Group>
        ensures first { option_copied result ≡ group_row self.now gid }
    {
        self.groups.as_slice().iter().find(|row| row.gid == gid)
    }

    /// The session with this id: its first row.
    pub fn session(&self, id: &Text) -> Option<&Session>
        ensures first { option_copied result ≡ session_row self.now id.now }
    {
        self.sessions
            .as_slice()
            .iter()
            .find(|row| row.id.is_same(id))
    }

    /// The process with this pid and start: its first row.
    pub fn process(&self, pid: u32, start: u64) -> Option<&Process>
        ensures first { option_copied result ≡ process_row self.now pid start }
    {
        self.processes
            .as_slice()
            .iter()
            .find(|row| row.pid == pid && row.start == start)
    }

    /// Whether the world lists a key: some row has all its parts.
    pub fn lists(&self, key: &Key) -> bool
        ensures lists { result ≡ lists_key self.now key.now }
    {
        match key {
            Key::Process { pid, start, uid } => {
                has_process(self.processes.as_slice(), *pid, *start, *uid)
            }
            Key::Session { id, uid } => has_session(self.sessions.as_slice(), id, *uid),
        }
    }
}
