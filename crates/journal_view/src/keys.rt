// What is known of a key by its row: the row that has all its parts.
ghost use Rattle.std.specs.Prelude.{◌≡◌, ◌==◌, ◌&&◌, bytes_eq, find};
ghost use Rattle.std.specs.Option.{option_copied, option_map};
ghost use Rattle.authority_model.specs.declared.key.Key.{Key as TheKey};
ghost use Rattle.authority_model.specs.Facts.{facts_of_key, facts_seen};
ghost use Rattle.authority_model.specs.Keys.{key_seen};

use crate::rows::{process_facts, session_facts};
use authority_model::{Facts, KeyRef, Process, Session, World};
use pk_types::Text;

/// The first row of a process with this pid, start and uid.
fn process_of(world: &World, pid: u32, start: u64, uid: u32) -> Option<&Process>
    ensures first { option_copied result ≡ find (λ p. (p.pid == pid) && (p.start == start) && (p.uid == uid)) world.now.processes }
{
    world.processes.as_slice().iter().find(|row| row.pid == pid
        && row.start == start
        && row.uid == uid)
}

/// The first row of a session with this id and uid.
fn session_of<'a>(world: &'a World, id: &Text, uid: u32) -> Option<&'a Session>
    ensures first { option_copied result ≡ find (λ s. bytes_eq s.id id.now && (s.uid == uid)) world.now.sessions }
{
    world
        .sessions
        .as_slice()
        .iter()
        .find(|row| row.id.is_same(id) && row.uid == uid)
}

/// What is known of the process with this pid, start and uid.
fn facts_of_process_key(world: &World, pid: u32, start: u64, uid: u32) -> Option<Facts<'_>>
    ensures facts { option_map facts_seen result ≡ facts_of_key world.now (TheKey.Process pid start uid) }
{
    let row = process_of(world, pid, start, uid)?;
    let session = match &row.session {
        None => None,
        Some(id) => world.session(id),
    };
    Some(process_facts(row, session))
}

/// What is known of the session with this id and uid.
fn facts_of_session_key<'a>(world: &'a World, id: &Text, uid: u32) -> Option<Facts<'a>>
    ensures facts { option_map facts_seen result ≡ facts_of_key world.now (TheKey.Session id.now uid) }
{
    match session_of(world, id, uid) {
        Some(row) => Some(session_facts(row)),
        None => None,
    }
}

/// What is known of a key by its row in the world. The answer is `None` exactly where the world
/// doesn't list the key.
pub fn facts_of_key<'a>(world: &'a World, key: KeyRef) -> Option<Facts<'a>>
    ensures facts { option_map facts_seen result ≡ facts_of_key world.now (key_seen key.entry) }
{
    match key {
        KeyRef::Process { pid, start, uid } => facts_of_process_key(world, pid, start, uid),
        KeyRef::Session { id, uid } => facts_of_session_key(world, id, uid),
    }
}
