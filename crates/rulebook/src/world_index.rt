// The index of a world.
ghost use Rattle.std.specs.Prelude.{◌≡◌, IfOk};
ghost use Rattle.std.specs.Option.{option_copied};
ghost use Rattle.authority_model.specs.Items.{empty_loaded};
ghost use Rattle.authority_model.specs.Worlds.{user_row, group_row, session_row, process_row};
ghost use Rattle.rulebook.specs.WorldIndexes.{IsWorldIndexOf};

use crate::numbers::{NumberPlaces, ProcessPlaces, number_place, process_place};
use crate::texts::{TextPlaces, text_place};
use crate::world_build::{first_groups, first_processes, first_sessions, first_users};
use authority_model::{Group, Process, Session, User, World};
use indexmap::IndexMap;
use pk_types::{NoMemory, Text};
use std::alloc::Global;

/// An index of a world, which is made once for each load. Its size grows with the number of rows
/// and the lengths of the session ids.
///
/// A look-up answers the first row that has what is asked for, as those of `World` do, and takes no
/// memory.
#[derive(Drop)]
pub struct WorldIndex {
    /// The first place of each uid.
    pub(crate) users: NumberPlaces,
    /// The first place of each gid.
    pub(crate) groups: NumberPlaces,
    /// The first place of each session id.
    pub(crate) sessions: TextPlaces,
    /// The first place of each pid with its start.
    pub(crate) processes: ProcessPlaces,
}

impl WorldIndex {
    /// The index of a world.
    ///
    /// # Errors
    /// `NoMemory` alone.
    pub fn build(alloc: Global, world: &World) -> Result<WorldIndex, NoMemory>
        ensures index { IfOk result (IsWorldIndexOf world.now) }
    {
        let users = first_users(alloc, world.users.as_slice())?;
        let groups = first_groups(alloc, world.groups.as_slice())?;
        let sessions = first_sessions(alloc, world.sessions.as_slice())?;
        let processes = first_processes(alloc, world.processes.as_slice())?;
        Ok(WorldIndex {
            users,
            groups,
            sessions,
            processes,
        })
    }

    /// The index of a world without rows. It takes no memory.
    pub fn empty(alloc: Global) -> WorldIndex
        ensures index { IsWorldIndexOf empty_loaded.world result }
    {
        WorldIndex {
            users: IndexMap::new(alloc),
            groups: IndexMap::new(alloc),
            sessions: IndexMap::new(alloc),
            processes: IndexMap::new(alloc),
        }
    }

    /// The user with this uid.
    pub fn user<'a>(&self, world: &'a World, uid: u32) -> Option<&'a User>
        requires index { IsWorldIndexOf world.now self.now }
        ensures first { option_copied result ≡ user_row world.now uid }
    {
        match number_place(&self.users, uid) {
            Some(place) => world.users.get(place as usize),
            None => None,
        }
    }

    /// The group with this gid.
    pub fn group<'a>(&self, world: &'a World, gid: u32) -> Option<&'a Group>
        requires index { IsWorldIndexOf world.now self.now }
        ensures first { option_copied result ≡ group_row world.now gid }
    {
        match number_place(&self.groups, gid) {
            Some(place) => world.groups.get(place as usize),
            None => None,
        }
    }

    /// The session with this id.
    pub fn session<'a>(&self, world: &'a World, id: &Text) -> Option<&'a Session>
        requires index { IsWorldIndexOf world.now self.now }
        ensures first { option_copied result ≡ session_row world.now id.now }
    {
        match text_place(&self.sessions, id) {
            Some(place) => world.sessions.get(place as usize),
            None => None,
        }
    }

    /// The process with this pid and start.
    pub fn process<'a>(&self, world: &'a World, pid: u32, start: u64) -> Option<&'a Process>
        requires index { IsWorldIndexOf world.now self.now }
        ensures first { option_copied result ≡ process_row world.now pid start }
    {
        match process_place(&self.processes, pid, start) {
            Some(place) => world.processes.get(place as usize),
            None => None,
        }
    }
}
