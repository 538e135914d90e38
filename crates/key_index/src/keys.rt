// Keys of subjects as keys of an index.
use authority_model::{Key, KeyRef};
use pk_types::NoMemory;
use std::alloc::Global;
use std::borrow::CowSlice;

/// A subject with its user, as a key of an index.
#[derive(PartialEq, Eq, Hash, Drop)]
pub enum KeyOf<'a> {
    /// A process.
    Process {
        /// Its pid.
        pid: u32,
        /// When it started, which tells it from others with this pid.
        start: u64,
        /// Its user.
        uid: u32,
    },
    /// A session.
    Session {
        /// The bytes of its id.
        id: CowSlice<'a, u8, Global>,
        /// Its user.
        uid: u32,
    },
}

impl<'a> KeyOf<'a> {
    ghost use Rattle.std.specs.Prelude.{◌≡◌};
    ghost use Rattle.authority_model.specs.Keys.{key_seen};
    ghost use Rattle.key_index.specs.Held.{key_held};

    /// The key to look up by. It takes no memory.
    pub fn borrowed(key: KeyRef<'a>) -> KeyOf<'a>
        ensures key { key_held result ≡ key_seen key.entry }
    {
        match key {
            KeyRef::Process { pid, start, uid } => KeyOf::Process { pid, start, uid },
            KeyRef::Session { id, uid } => KeyOf::Session {
                id: CowSlice::Borrowed(id.bytes()),
                uid,
            },
        }
    }
}

impl KeyOf<'static> {
    ghost use Rattle.std.specs.Prelude.{◌≡◌, IfOk};
    ghost use Rattle.key_index.specs.Held.{key_held};

    /// The key to put into an index, with an id of its own.
    ///
    /// # Errors
    /// `NoMemory` alone.
    pub fn try_own(alloc: Global, key: &Key) -> Result<KeyOf<'static>, NoMemory>
        ensures key { IfOk result (λ held. key_held held ≡ key.now) }
    {
        match key {
            Key::Process { pid, start, uid } => Ok(KeyOf::Process {
                pid: *pid,
                start: *start,
                uid: *uid,
            }),
            Key::Session { id, uid } => {
                let id = CowSlice::Owned(id.bytes().to_vec(alloc)?);
                Ok(KeyOf::Session { id, uid: *uid })
            }
        }
    }
}
