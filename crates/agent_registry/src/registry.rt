// The registrations in force, and the change of them that is staged.
ghost use Rattle.std.specs.Prelude.{◌≡◌, [], None, Some, IsSome, length, slice_get, OnOk, OnErr, IfOk};
ghost use Rattle.std.specs.Option.{option_copied};
ghost use Rattle.authority_model.specs.declared.pending.Agent.{Agent as TheAgent};
ghost use Rattle.entry_changes.specs.declared.change.AgentChange.{AgentChange as TheChange};
ghost use Rattle.entry_changes.specs.declared.change.AgentChange.TheVariants.{Add};
ghost use Rattle.authority_model.specs.Keys.{key_seen};
ghost use Rattle.authority_model.specs.Agents.{agent_of};
ghost use Rattle.entry_changes.specs.Changes.{after_agents};

use crate::rows::AgentRows;
use crate::staged::{Staged, carry, prepare};
use authority_model::{Agent, Entry, KeyRef, World};
use entry_changes::AgentChange;
use pk_types::NoMemory;
use std::alloc::Global;
use std::marker::Model;

/// The registrations of authentication agents that are in force, in the order in which they came in force,
/// and the change of them that is staged.
#[derive(Drop)]
pub struct AgentRegistry {
    alloc: Global,
    rows: AgentRows,
    staged: Option<Staged>,
}

impl Model for AgentRegistry {
    ghost use Rattle.std.specs.Option.{option_map};
    ghost use Rattle.agent_registry.specs.Registry.{Registry, change_of, IsReady};

    ghost Value = { Registry };

    ghost view = { λ a. record { items = a.rows.items; staged = option_map change_of a.staged } };

    ghost invariant = { λ a. IsReady a.rows.room a.staged };
}

impl AgentRegistry {
    /// No agents. It takes no memory.
    pub fn new(alloc: Global) -> Result<AgentRegistry, NoMemory>
        ensures items { IfOk result (λ registry. registry.items ≡ []) }
        ensures none { IfOk result (λ registry. registry.staged ≡ None) }
    {
        Ok(AgentRegistry {
            alloc,
            rows: AgentRows::new(alloc),
            staged: None,
        })
    }

    /// The agent that is registered for a subject.
    pub fn of_key(&self, key: KeyRef) -> Option<&Agent>
        ensures row { option_copied result ≡ agent_of (key_seen key.entry) self.now.items }
    {
        self.rows.of_key(key)
    }

    /// How many agents there are.
    pub fn count(&self) -> u32
        ensures count { result ≡ length self.now.items }
    {
        self.rows.count()
    }

    /// The agent at a place in the order of registration.
    pub fn nth(&self, i: usize) -> Option<&Agent>
        ensures row { option_copied result ≡ slice_get self.now.items i }
    {
        self.rows.nth(i)
    }

    /// Takes all memory that an entry with this change needs. Nothing is staged after a refusal, and the
    /// agents stay.
    ///
    /// # Errors
    /// `NoMemory`, also where as many agents are registered as there may be.
    pub fn stage(&mut self, _entry: &Entry, change: AgentChange) -> Result<(), NoMemory>
        ensures items { self.new.items ≡ self.old.items }
        ensures ok { OnOk result (self.new.staged ≡ Some change) }
        ensures err { OnErr result (self.new.staged ≡ None) }
    {
        self.unstage();
        let staged = prepare(self.alloc, &mut self.rows, change)?;
        self.staged = Some(staged);
        Ok(())
    }

    /// Drops what is staged. It takes no memory.
    pub fn unstage(&mut self)
        ensures items { self.new.items ≡ self.old.items }
        ensures none { self.new.staged ≡ None }
    {
        if self.staged.is_some() {
            self.staged = None;
        }
    }

    /// Carries the agents on by an entry with the change that is staged, in the world that is in force after
    /// the entry. It takes no memory.
    pub fn apply_entry(&mut self, entry: &Entry, world: &World)
        requires staged { IsSome self.old.staged }
        requires fresh { (a : TheAgent) → self.old.staged ≡ Some (Add a) → agent_of a.key self.old.items ≡ None }
        ensures items { (change : TheChange) → self.old.staged ≡ Some change → self.new.items ≡ after_agents entry.now world.now change self.old.items }
        ensures none { self.new.staged ≡ None }
    {
        match self.staged.take() {
            Some(staged) => carry(&mut self.rows, entry, world, staged),
            None => unreachable!(),
        }
    }
}
