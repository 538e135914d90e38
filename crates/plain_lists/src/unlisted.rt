// What a load ends.
ghost use Rattle.std.specs.Prelude.{◌≡◌};
ghost use Rattle.entry_changes.specs.Changes.{unlisted};

use authority_model::{Entry, Event, Key, World};

/// Whether an entry is a load, and the world, which is that of the load, does not list the key.
pub fn is_unlisted(entry: &Entry, world: &World, key: &Key) -> bool
    ensures unlisted { result ≡ unlisted entry.now world.now key.now }
{
    matches!(entry.event, Event::Load { .. }) && !world.lists(key)
}
