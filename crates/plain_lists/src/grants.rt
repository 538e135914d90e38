// The temporary authorizations that nothing ended, by rising number.
ghost use Rattle.std.specs.Prelude.{◌≡◌, ◌==◌, not, filter, OnOk};
ghost use Rattle.authority_model.specs.Keys.{same_key};
ghost use Rattle.entry_changes.specs.Changes.{after_grants, unlisted};

use crate::unlisted::is_unlisted;
use authority_model::{Entry, GrantRow, Key, World};
use entry_changes::GrantChange;
use pk_types::NoMemory;

/// Takes out what an entry ends as a load.
fn end(grants: &mut Vec<GrantRow>, entry: &Entry, world: &World)
    ensures items { grants.new.items ≡ filter (λ g. not (unlisted entry.now world.now g.key)) grants.old.items }
{
    grants.retain(
        |grant| -> bool
            ensures { result ≡ not (unlisted entry.entry.now world.entry.now grant.now.key) }
        { !is_unlisted(entry, world, &grant.key) },
    );
}

/// Takes out the one with this number.
fn end_id(grants: &mut Vec<GrantRow>, id: u64)
    ensures items { grants.new.items ≡ filter (λ g. not (g.id == id)) grants.old.items }
{
    grants.retain(|grant| grant.id != id);
}

/// Takes out all of a key.
fn end_key(grants: &mut Vec<GrantRow>, key: &Key)
    ensures items { grants.new.items ≡ filter (λ g. not (same_key g.key key.now)) grants.old.items }
{
    grants.retain(
        |grant| -> bool
            ensures { result ≡ not (same_key grant.now.key key.entry.now) }
        { !grant.key.is_same(key.borrowed()) },
    );
}

/// Carries the temporary authorizations on by an entry with this change, in the world in force after
/// it.
pub fn carry_grants(
    grants: &mut Vec<GrantRow>,
    entry: &Entry,
    world: &World,
    change: GrantChange,
) -> Result<(), NoMemory>
    ensures items { OnOk result (grants.new.items ≡ after_grants entry.now world.now change grants.old.items) }
{
    end(grants, entry, world);
    match change {
        GrantChange::Keep => {}
        GrantChange::Add(grant) => grants.push(grant)?,
        GrantChange::EndId(id) => end_id(grants, id),
        GrantChange::EndKey(key) => end_key(grants, &key),
    }
    Ok(())
}
