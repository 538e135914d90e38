// The registrations in force, by their keys.
ghost use Rattle.std.specs.Prelude.{◌≡◌, ◌<◌, ◌≤◌, ◌==◌, ◌||◌, ◌++◌, ◌∷◌, [], None, not, filter, length, slice_get, OnOk};
ghost use Rattle.std.specs.Option.{option_copied};
ghost use Rattle.authority_model.specs.Keys.{key_seen, same_key};
ghost use Rattle.authority_model.specs.Peers.{is_depart};
ghost use Rattle.authority_model.specs.Agents.{agent_of};
ghost use Rattle.entry_changes.specs.Changes.{leaves, unlisted};
ghost use Rattle.key_index.specs.Held.{key_held};
ghost use Rattle.agent_registry.specs.Rows.{stays};

use authority_model::{Agent, Entry, Event, Key, KeyRef, World};
use indexmap::IndexMap;
use key_index::{KeyOf, is_load, is_unlisted};
use pk_types::NoMemory;
use std::alloc::Global;
use std::marker::Model;

/// How many registrations there may be.
pub const MAX_AGENTS: u32 = u32::MAX;

/// The registrations in the order in which they came in force, each under its key.
#[derive(Drop)]
pub struct AgentRows {
    rows: IndexMap<KeyOf<'static>, Agent>,
}

impl Model for AgentRows {
    ghost use Rattle.std.specs.Prelude.{◌≤◌, ◌-◌, length, min};
    ghost use Rattle.std.specs.Map.{values_of};
    ghost use Rattle.indexmap.specs.IndexMap.{spare};
    ghost use Rattle.key_index.specs.Held.{key_held};
    ghost use Rattle.key_index.specs.Keyed.{AreKeyed};
    ghost use Rattle.authority_model.specs.declared.pending.Agent.{Agent as TheAgent};
    ghost use Rattle.agent_registry.specs.Rows.{Rows};
    ghost use Rattle.agent_registry.specs.declared.rows.TheConstants.{MAX_AGENTS};

    ghost Value = { Rows };

    ghost view = { λ a. record { items = values_of a.rows.entries; room = min (spare a.rows) (MAX_AGENTS - length a.rows.entries) } };

    ghost invariant = { λ a. AreKeyed key_held (λ (x : TheAgent). x.key) a.rows.entries × (length a.rows.entries ≤ MAX_AGENTS) };
}

/// Whether an event is a departure.
fn is_depart(event: &Event) -> bool
    ensures depart { result ≡ is_depart event.now }
{
    matches!(event, Event::Depart)
}

/// Whether an entry is the departure of a connection.
fn leaves(entry: &Entry, caller: u32) -> bool
    ensures leaves { result ≡ leaves entry.now caller }
{
    entry.caller == caller && is_depart(&entry.event)
}

/// Whether a registration is still in force after an entry, as far as a departure or a load ends it.
fn stays(entry: &Entry, world: &World, agent: &Agent) -> bool
    ensures stays { result ≡ stays entry.now world.now agent.now }
{
    !(leaves(entry, agent.caller) || is_unlisted(entry, world, &agent.key))
}

impl AgentRows {
    /// No registrations. It takes no memory.
    pub fn new(alloc: Global) -> AgentRows
        ensures empty { result.items ≡ [] }
    {
        AgentRows {
            rows: IndexMap::new(alloc),
        }
    }

    /// How many registrations there are.
    pub fn count(&self) -> u32
        ensures count { result ≡ length self.now.items }
    {
        self.rows.len() as u32
    }

    /// The registration at a place in their order.
    pub fn nth(&self, i: usize) -> Option<&Agent>
        ensures row { option_copied result ≡ slice_get self.now.items i }
    {
        let (_key, agent) = self.rows.get_index(i)?;
        Some(agent)
    }

    /// The registration of a key.
    pub fn of_key(&self, key: KeyRef) -> Option<&Agent>
        ensures row { option_copied result ≡ agent_of (key_seen key.entry) self.now.items }
    {
        let i = self.rows.get_index_of(&KeyOf::borrowed(key))?;
        self.nth(i)
    }

    /// Takes room for one more registration. A refusal leaves them as they were.
    ///
    /// # Errors
    /// `NoMemory`, also where there are as many as there may be.
    pub fn reserve(&mut self) -> Result<(), NoMemory>
        ensures items { self.new.items ≡ self.old.items }
        ensures ok { OnOk result (0 < self.new.room) }
    {
        if self.count() == MAX_AGENTS {
            return Err(NoMemory);
        }
        self.rows.reserve(1)?;
        Ok(())
    }

    /// Puts a registration at the end, under its key.
    pub fn push(&mut self, key: KeyOf<'static>, agent: Agent)
        requires room { 0 < self.old.room }
        requires key { key_held key ≡ agent.key }
        requires fresh { agent_of agent.key self.old.items ≡ None }
        ensures items { self.new.items ≡ self.old.items ++ agent ∷ [] }
    {
        match self.rows.insert(key, agent) {
            Ok(_) => {}
            Err(_) => unreachable!(),
        }
    }

    /// Takes out what an entry ends as a departure or as a load.
    pub fn end(&mut self, entry: &Entry, world: &World)
        ensures items { self.new.items ≡ filter (stays entry.now world.now) self.old.items }
        ensures room { self.old.room ≤ self.new.room }
    {
        if !is_depart(&entry.event) && !is_load(&entry.event) {
            return;
        }
        self.rows.retain(
            |_key, agent| -> bool
                ensures { (result ≡ stays entry.entry.now world.entry.now agent.old) × (agent.new ≡ agent.old) }
            { stays(entry, world, agent) },
        );
    }

    /// Takes the registration of a key out.
    pub fn end_key(&mut self, key: &Key)
        ensures items { self.new.items ≡ filter (λ a. not (same_key a.key key.now)) self.old.items }
    {
        self.rows.retain(
            |_key, agent| -> bool
                ensures { (result ≡ not (same_key agent.old.key key.entry.now)) × (agent.new ≡ agent.old) }
            { !agent.key.is_same(key.borrowed()) },
        );
    }
}
