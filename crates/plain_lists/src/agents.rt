// The agents in force, the oldest first.
ghost use Rattle.std.specs.Prelude.{◌≡◌, ◌||◌, not, filter, OnOk};
ghost use Rattle.authority_model.specs.Keys.{same_key};
ghost use Rattle.entry_changes.specs.Changes.{after_agents, leaves, unlisted};

use crate::unlisted::is_unlisted;
use authority_model::{Agent, Entry, Event, Key, World};
use entry_changes::AgentChange;
use pk_types::NoMemory;

/// Whether an entry is the departure of a connection.
fn leaves(entry: &Entry, caller: u32) -> bool
    ensures leaves { result ≡ leaves entry.now caller }
{
    entry.caller == caller && matches!(entry.event, Event::Depart)
}

/// Takes out what an entry ends as a departure or as a load.
fn end(agents: &mut Vec<Agent>, entry: &Entry, world: &World)
    ensures items { agents.new.items ≡ filter (λ a. not (leaves entry.now a.caller || unlisted entry.now world.now a.key)) agents.old.items }
{
    agents.retain(
        |agent| -> bool
            ensures { result ≡ not (leaves entry.entry.now agent.now.caller || unlisted entry.entry.now world.entry.now agent.now.key) }
        { !(leaves(entry, agent.caller) || is_unlisted(entry, world, &agent.key)) },
    );
}

/// Takes out the registration of a key.
fn end_key(agents: &mut Vec<Agent>, key: &Key)
    ensures items { agents.new.items ≡ filter (λ a. not (same_key a.key key.now)) agents.old.items }
{
    agents.retain(
        |agent| -> bool
            ensures { result ≡ not (same_key agent.now.key key.entry.now) }
        { !agent.key.is_same(key.borrowed()) },
    );
}

/// Carries the agents on by an entry with this change, in the world in force after it.
pub fn carry_agents(
    agents: &mut Vec<Agent>,
    entry: &Entry,
    world: &World,
    change: AgentChange,
) -> Result<(), NoMemory>
    ensures items { OnOk result (agents.new.items ≡ after_agents entry.now world.now change agents.old.items) }
{
    end(agents, entry, world);
    match change {
        AgentChange::Keep => {}
        AgentChange::Add(agent) => agents.push(agent)?,
        AgentChange::Drop(key) => end_key(agents, &key),
    }
    Ok(())
}
