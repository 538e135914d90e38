// What the readers keep: the rows so far, and their keys in sets, so that no row is looked for by
// walking.
ghost use Rattle.std.specs.Prelude.{◌≡◌, length, map, true};
ghost use Rattle.table_files.specs.Fields.{is_name};

use authority_model::{GidList, ProcessList, SessionList, UserList};
use indexmap::IndexSet;

/// The users so far.
#[derive(Drop)]
pub struct UserTable<'a> {
    pub users: UserList,
    pub uids: IndexSet<u32>,
    pub names: IndexSet<&'a [u8]>,
    ghost uids_stand: { uids.keys ≡ map (λ u. u.uid) users },
    ghost names_stand: { map (λ name. name.now) names.keys ≡ map (λ u. u.name) users },
}

/// The sessions so far.
#[derive(Drop)]
pub struct SessionTable<'a> {
    pub sessions: SessionList,
    pub ids: IndexSet<&'a [u8]>,
    ghost ids_stand: { map (λ id. id.now) ids.keys ≡ map (λ s. s.id) sessions },
}

/// The processes so far, and the ids of the sessions that are listed.
#[derive(Drop)]
pub struct ProcessTable<'a> {
    pub processes: ProcessList,
    pub pids: IndexSet<u32>,
    pub listed: IndexSet<&'a [u8]>,
    ghost pids_stand: { pids.keys ≡ map (λ p. p.pid) processes },
}

/// What a row has of a group.
#[derive(Clone, Copy)]
pub struct GroupRow<'a> {
    pub name: &'a [u8],
    pub gid: u32,
    pub members: &'a [u8],
    ghost named: { is_name name.now ≡ true },
}

/// The rows of groups so far.
#[derive(Drop)]
pub struct GroupTable<'a> {
    pub rows: Vec<GroupRow<'a>>,
    pub gids: IndexSet<u32>,
    pub names: IndexSet<&'a [u8]>,
    ghost gids_stand: { gids.keys ≡ map (λ r. r.gid) rows.items },
    ghost names_stand: { map (λ name. name.now) names.keys ≡ map (λ r. r.name.now) rows.items },
}

/// For each name of a user the gids of the rows so far that name it, and at the same place.
#[derive(Drop)]
pub struct Memberships<'a> {
    pub names: IndexSet<&'a [u8]>,
    pub gids: Vec<GidList>,
    ghost one_each: { length gids.items ≡ length names.keys },
}
