// A change of the registrations that is staged.
ghost use Rattle.std.specs.Prelude.{◌≡◌, None, IfOk};
ghost use Rattle.authority_model.specs.declared.pending.Agent.{Agent as TheAgent};
ghost use Rattle.authority_model.specs.Agents.{agent_of};
ghost use Rattle.entry_changes.specs.Changes.{after_agents};
ghost use Rattle.agent_registry.specs.Registry.{change_of, IsReadyFor};
ghost use Rattle.entry_changes.specs.declared.change.AgentChange.TheVariants.{Add};

use crate::rows::AgentRows;
use authority_model::{Agent, Entry, Key, World};
use entry_changes::AgentChange;
use key_index::KeyOf;
use pk_types::NoMemory;
use std::alloc::Global;

/// A change with all that it needs.
#[derive(Drop)]
pub enum Staged {
    /// Nothing.
    Keep,
    /// This registration comes in force.
    Add {
        /// The key that it stands under.
        key: KeyOf<'static>,
        agent: Agent,
    },
    /// The registration of this subject ends.
    End(Key),
}

/// A change with all that it needs, and room for it. A refusal leaves the registrations as they were.
pub fn prepare(alloc: Global, rows: &mut AgentRows, change: AgentChange) -> Result<Staged, NoMemory>
    ensures items { rows.new.items ≡ rows.old.items }
    ensures change { IfOk result (λ staged. change_of staged ≡ change) }
    ensures ready { IfOk result (IsReadyFor rows.new.room) }
{
    match change {
        AgentChange::Keep => Ok(Staged::Keep),
        AgentChange::Add(agent) => {
            rows.reserve()?;
            let key = KeyOf::try_own(alloc, &agent.key)?;
            Ok(Staged::Add { key, agent })
        }
        AgentChange::Drop(key) => Ok(Staged::End(key)),
    }
}

/// Carries the registrations on by an entry with a change.
pub fn carry(rows: &mut AgentRows, entry: &Entry, world: &World, staged: Staged)
    requires ready { IsReadyFor rows.old.room staged }
    requires fresh { (a : TheAgent) → change_of staged ≡ Add a → agent_of a.key rows.old.items ≡ None }
    ensures items { rows.new.items ≡ after_agents entry.now world.now (change_of staged) rows.old.items }
{
    rows.end(entry, world);
    match staged {
        Staged::Keep => {}
        Staged::Add { key, agent } => rows.push(key, agent),
        Staged::End(key) => rows.end_key(&key),
    }
}
