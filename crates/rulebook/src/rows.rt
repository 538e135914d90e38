// The rows of a world, with an index or without one.
ghost use Rattle.std.specs.Prelude.{◌≡◌};
ghost use Rattle.std.specs.Option.{option_copied};
ghost use Rattle.authority_model.specs.declared.world.World.{World as TheWorld};
ghost use Rattle.authority_model.specs.Worlds.{user_row, group_row};
ghost use Rattle.rulebook.specs.WorldIndexes.{IsWorldIndexOf};

use crate::world_index::WorldIndex;
use authority_model::{Group, User, World};

/// What the places of a user are looked up in.
pub trait WorldRows {
    /// The world.
    ghost world: { Self → TheWorld };

    /// The user with this uid: its first row.
    fn user(&self, uid: u32) -> Option<&User>
        ensures first { option_copied result ≡ user_row (world self.now) uid };

    /// The group with this gid: its first row.
    fn group(&self, gid: u32) -> Option<&Group>
        ensures first { option_copied result ≡ group_row (world self.now) gid };
}

impl WorldRows for World {
    ghost world = { λ w. w };

    fn user(&self, uid: u32) -> Option<&User> {
        World::user(self, uid)
    }

    fn group(&self, gid: u32) -> Option<&Group> {
        World::group(self, gid)
    }
}

/// A world with its index.
#[derive(Clone, Copy)]
pub struct IndexedWorld<'a> {
    pub world: &'a World,
    pub index: &'a WorldIndex,
    ghost indexed: { IsWorldIndexOf world.now index.now },
}

impl<'a> WorldRows for IndexedWorld<'a> {
    ghost world = { λ w. w.world.now };

    fn user(&self, uid: u32) -> Option<&User> {
        self.index.user(self.world, uid)
    }

    fn group(&self, gid: u32) -> Option<&Group> {
        self.index.group(self.world, gid)
    }
}
