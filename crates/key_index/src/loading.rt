// What a load ends.
ghost use Rattle.std.specs.Prelude.{◌≡◌};
ghost use Rattle.authority_model.specs.Items.{is_load};
ghost use Rattle.entry_changes.specs.Changes.{unlisted};

use authority_model::{Entry, Event, Key, World};

/// Whether an event is a load.
pub fn is_load(event: &Event) -> bool
    ensures load { result ≡ is_load event.now }
{
    matches!(event, Event::Load { .. })
}

/// Whether an entry is a load that ends what goes by a key: the world, which is that of the load, does not
/// list the key.
pub fn is_unlisted(entry: &Entry, world: &World, key: &Key) -> bool
    ensures unlisted { result ≡ unlisted entry.now world.now key.now }
{
    is_load(&entry.event) && !world.lists(key)
}
