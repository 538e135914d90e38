// The first places of the rows of a world.
ghost use Rattle.std.specs.Prelude.{◌≡◌, ◌==◌, ◌&&◌, ℕ, IfOk, bytes_eq, position};
ghost use Rattle.authority_model.specs.Words.{Bytes};
ghost use Rattle.rulebook.specs.Indexes.{at_text};
ghost use Rattle.rulebook.specs.WorldIndexes.{at_number, at_process};

use crate::numbers::{NumberPlaces, ProcessPlaces, put_first_number, put_first_process};
use crate::texts::{TextPlaces, place_of, put_first};
use authority_model::{Group, Process, Session, User};
use indexmap::IndexMap;
use pk_types::NoMemory;
use std::alloc::Global;

/// The first place of each uid.
pub fn first_users(alloc: Global, users: &[User]) -> Result<NumberPlaces, NoMemory>
    ensures first { IfOk result (λ places. (uid : ℕ) → at_number places.entries uid ≡ position (λ u. u.uid == uid) users.now) }
{
    let mut places = IndexMap::new(alloc);
    for i in 0..users.len() {
        let place = place_of(i)?;
        let row = &users[i];
        put_first_number(&mut places, row.uid, place)?;
    }
    Ok(places)
}

/// The first place of each gid.
pub fn first_groups(alloc: Global, groups: &[Group]) -> Result<NumberPlaces, NoMemory>
    ensures first { IfOk result (λ places. (gid : ℕ) → at_number places.entries gid ≡ position (λ g. g.gid == gid) groups.now) }
{
    let mut places = IndexMap::new(alloc);
    for i in 0..groups.len() {
        let place = place_of(i)?;
        let row = &groups[i];
        put_first_number(&mut places, row.gid, place)?;
    }
    Ok(places)
}

/// The first place of each session id.
pub fn first_sessions(alloc: Global, sessions: &[Session]) -> Result<TextPlaces, NoMemory>
    ensures first { IfOk result (λ places. (id : Bytes) → at_text places.entries id ≡ position (λ s. bytes_eq s.id id) sessions.now) }
{
    let mut places = IndexMap::new(alloc);
    for i in 0..sessions.len() {
        let place = place_of(i)?;
        let row = &sessions[i];
        put_first(alloc, &mut places, &row.id, place)?;
    }
    Ok(places)
}

/// The first place of each pid with its start.
pub fn first_processes(alloc: Global, processes: &[Process]) -> Result<ProcessPlaces, NoMemory>
    ensures first { IfOk result (λ places. (pid start : ℕ)
        → at_process places.entries pid start ≡ position (λ p. (p.pid == pid) && (p.start == start)) processes.now) }
{
    let mut places = IndexMap::new(alloc);
    for i in 0..processes.len() {
        let place = place_of(i)?;
        let row = &processes[i];
        put_first_process(&mut places, row.pid, row.start, place)?;
    }
    Ok(places)
}
