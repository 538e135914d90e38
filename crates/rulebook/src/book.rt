// A load with its indexes.
ghost use Rattle.std.specs.Prelude.{◌≡◌, IfOk, IfErr};
ghost use Rattle.std.specs.Option.{option_copied, option_map};
ghost use Rattle.authority_model.specs.Items.{empty_loaded};
ghost use Rattle.authority_model.specs.Rules.{action_of, implicit};
ghost use Rattle.authority_model.specs.Small.{IsShort};
ghost use Rattle.authority_model.specs.Worlds.{user_row, group_row, session_row, process_row};

use crate::implicit::{Found, implicit};
use crate::index::RuleIndex;
use crate::rows::IndexedWorld;
use crate::world_index::WorldIndex;
use authority_model::{Action, Group, Loaded, Process, Session, User};
use pk_types::{Category, NoMemory, Text};
use std::alloc::Global;
use std::marker::Model;

/// A load with its indexes. Contracts see it as the load.
///
/// Its look-ups answer what those of the policy and the world do, and take no memory.
#[derive(Drop)]
pub struct Rulebook {
    loaded: Loaded,
    rules: RuleIndex,
    world: WorldIndex,
}

impl Model for Rulebook {
    ghost use Rattle.authority_model.specs.declared.load.Loaded.{Loaded as TheLoad};
    ghost use Rattle.rulebook.specs.WorldIndexes.{AreIndexesOf};

    ghost Value = { TheLoad };

    ghost view = { λ b. b.loaded };

    ghost invariant = { λ b. AreIndexesOf b.loaded b.rules b.world };
}

impl Rulebook {
    /// A load with its indexes. A refusal hands the load back.
    ///
    /// # Errors
    /// `NoMemory` alone.
    pub fn of(alloc: Global, loaded: Loaded) -> Result<Rulebook, (NoMemory, Loaded)>
        ensures book { IfOk result (λ book. book ≡ loaded) }
        ensures back { IfErr result (λ (cause, back). back ≡ loaded) }
    {
        let Ok(rules) = RuleIndex::build(alloc, &loaded.policy) else {
            return Err((NoMemory, loaded));
        };
        let Ok(world) = WorldIndex::build(alloc, &loaded.world) else {
            return Err((NoMemory, loaded));
        };
        Ok(Rulebook {
            loaded,
            rules,
            world,
        })
    }

    /// Load 0, the empty policy and world, with its indexes. It takes no memory.
    pub fn empty(alloc: Global) -> Rulebook
        ensures empty { result ≡ empty_loaded }
    {
        let loaded = Loaded::empty(alloc);
        let rules = RuleIndex::empty(alloc);
        let world = WorldIndex::empty(alloc);
        Rulebook {
            loaded,
            rules,
            world,
        }
    }

    /// The load alone, without its indexes.
    pub fn into_loaded(self) -> Loaded
        ensures loaded { result ≡ self }
    {
        self.loaded
    }

    /// The load.
    pub fn loaded(&self) -> &Loaded
        ensures loaded { result.now ≡ self.now }
    {
        &self.loaded
    }

    /// The action of an id: the first that has it.
    pub fn action(&self, id: &Text) -> Option<&Action>
        ensures first { option_copied result ≡ action_of self.now.policy id.now }
    {
        self.rules.action(&self.loaded.policy, id)
    }

    /// The implicit value of an action for a user in a category, and what gave it
    /// (pklocalauthority(8), "Evaluation Order"). The answer is `None` exactly where the policy has
    /// no action of this id.
    pub fn implicit(&self, uid: u32, category: Category, action: &Text) -> Option<Found>
        requires entries { IsShort self.now.policy.entries }
        ensures implicit { option_map (λ f. (f.value, f.source)) result
            ≡ implicit self.now.policy self.now.world uid category action.now }
    {
        let world = IndexedWorld {
            world: &self.loaded.world,
            index: &self.world,
        };
        implicit(
            &self.rules,
            &self.loaded.policy,
            &world,
            uid,
            category,
            action,
        )
    }

    /// The user with this uid: its first row.
    pub fn user(&self, uid: u32) -> Option<&User>
        ensures first { option_copied result ≡ user_row self.now.world uid }
    {
        self.world.user(&self.loaded.world, uid)
    }

    /// The group with this gid: its first row.
    pub fn group(&self, gid: u32) -> Option<&Group>
        ensures first { option_copied result ≡ group_row self.now.world gid }
    {
        self.world.group(&self.loaded.world, gid)
    }

    /// The session with this id: its first row.
    pub fn session(&self, id: &Text) -> Option<&Session>
        ensures first { option_copied result ≡ session_row self.now.world id.now }
    {
        self.world.session(&self.loaded.world, id)
    }

    /// The process with this pid and start: its first row.
    pub fn process(&self, pid: u32, start: u64) -> Option<&Process>
        ensures first { option_copied result ≡ process_row self.now.world pid start }
    {
        self.world.process(&self.loaded.world, pid, start)
    }
}
