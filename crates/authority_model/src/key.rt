// What agents and grants go by.
use pk_types::{NoMemory, Text, TryCopy};

/// A subject with its user: what agents and grants go by.
///
/// A process is named by pid and start, so that a later process with the same pid is another one
/// (Subject in the reference manual).
#[derive(Drop)]
pub enum Key {
    Process { pid: u32, start: u64, uid: u32 },
    Session { id: Text, uid: u32 },
}

/// A key whose session id is borrowed.
#[derive(Clone, Copy)]
pub enum KeyRef<'a> {
    Process { pid: u32, start: u64, uid: u32 },
    Session { id: &'a Text, uid: u32 },
}

impl Key {
    ghost use Rattle.std.specs.Prelude.{◌≡◌};
    ghost use Rattle.authority_model.specs.Keys.{key_seen, same_key, uid_of_key};

    /// The key with its id borrowed.
    pub fn borrowed(&self) -> KeyRef<'_>
        ensures key { key_seen result ≡ self.now }
    {
        match self {
            Key::Process { pid, start, uid } => KeyRef::Process {
                pid: *pid,
                start: *start,
                uid: *uid,
            },
            Key::Session { id, uid } => KeyRef::Session { id, uid: *uid },
        }
    }

    /// Whether both are the key of one process or of one session of the same user.
    pub fn is_same(&self, other: KeyRef) -> bool
        ensures same { result ≡ same_key self.now (key_seen other.entry) }
    {
        match (self, other) {
            (
                Key::Process { pid, start, uid },
                KeyRef::Process {
                    pid: other_pid,
                    start: other_start,
                    uid: other_uid,
                },
            ) => *pid == other_pid && *start == other_start && *uid == other_uid,
            (
                Key::Session { id, uid },
                KeyRef::Session {
                    id: other_id,
                    uid: other_uid,
                },
            ) => id.is_same(other_id) && *uid == other_uid,
            _ => false,
        }
    }

    /// Whose process or session it is.
    pub fn uid(&self) -> u32
        ensures uid { result ≡ uid_of_key self.now }
    {
        match self {
            Key::Process { uid, .. } | Key::Session { uid, .. } => *uid,
        }
    }
}

impl KeyRef<'_> {
    ghost use Rattle.std.specs.Prelude.{◌≡◌, IfOk};
    ghost use Rattle.authority_model.specs.Keys.{key_seen};

    /// The key with an id of its own.
    pub fn try_own(self) -> Result<Key, NoMemory>
        ensures key { IfOk result (λ key. key ≡ key_seen self.entry) }
    {
        match self {
            KeyRef::Process { pid, start, uid } => Ok(Key::Process { pid, start, uid }),
            KeyRef::Session { id, uid } => {
                let id = id.try_copy()?;
                Ok(Key::Session { id, uid })
            }
        }
    }
}

impl TryCopy for Key {
    fn try_copy(&self) -> Result<Key, NoMemory> {
        match self {
            Key::Process { pid, start, uid } => Ok(Key::Process {
                pid: *pid,
                start: *start,
                uid: *uid,
            }),
            Key::Session { id, uid } => {
                let id = id.try_copy()?;
                Ok(Key::Session { id, uid: *uid })
            }
        }
    }
}
