// The segment so far.
ghost use Rattle.std.specs.Prelude.{◌≡◌, ◌<◌, ◌≤◌, ◌^◌, ◌==◌, ◌++◌, ◌∷◌, [], length, OnErr, OnOk};
ghost use Rattle.std.specs.Option.{option_copied, option_map};
ghost use Rattle.authority_model.specs.declared.journal.Item.{Item as TheItem};
ghost use Rattle.authority_model.specs.Entering.{cost_of_item};
ghost use Rattle.journal_segments.specs.Due.{is_due};

use authority_model::{Entry, Item};
use journal_costs::{cost_of_entry, cost_of_load};
use pk_types::{NoMemory, Reserved};
use std::alloc::Global;
use std::marker::Model;

/// How many counted bytes a segment has at least before the next one begins, unless it has its entries.
pub const MAX_SEGMENT_BYTES: u64 = 536_870_912;

/// What an item costs, in counted bytes.
fn cost_of(item: &Item) -> u64
    ensures cost { result ≡ cost_of_item item.now }
{
    let entry = cost_of_entry(&item.entry);
    match &item.loaded {
        Some(loaded) => entry + cost_of_load(loaded),
        None => entry,
    }
}

/// The items of the segment so far, the oldest first, and their counted bytes. It is seen as its items and
/// how many more have room.
#[derive(Drop)]
pub struct Segment {
    items: Reserved<Item>,
    /// The counted bytes, or the greatest number where there are more.
    bytes: u64,
}

impl Model for Segment {
    ghost use Rattle.std.specs.Prelude.{◌≡◌, ◌^◌, ◌-◌, min};
    ghost use Rattle.authority_model.specs.declared.journal.Item.{Item as TheItem};
    ghost use Rattle.authority_model.specs.Entering.{counted_bytes};
    ghost use Rattle.pk_types.specs.Roomy.{Roomy};

    ghost Value = { Roomy TheItem };

    ghost view = { λ s. s.items };

    ghost invariant = { λ s. s.bytes ≡ min (counted_bytes s.items.items) (2 ^ 64 - 1) };
}

impl Segment {
    /// A segment without an item. It takes no memory.
    pub fn new(alloc: Global) -> Segment
        ensures empty { result.items ≡ [] }
    {
        Segment {
            items: Reserved::new(alloc),
            bytes: 0,
        }
    }

    /// The items, the oldest first.
    pub fn items(&self) -> &[Item]
        ensures items { result.now ≡ self.now.items }
    {
        self.items.as_slice()
    }

    /// Whether there is no item.
    pub fn is_empty(&self) -> bool
        ensures empty { result ≡ (length self.now.items == 0) }
    {
        self.items.is_empty()
    }

    /// Whether the segment is full: it has so many entries, or `MAX_SEGMENT_BYTES` counted bytes.
    pub fn is_due(&self, per: u64) -> bool
        ensures due { result ≡ is_due per self.now.items }
    {
        per <= self.items.len() as u64 || MAX_SEGMENT_BYTES <= self.bytes
    }

    /// Takes room for one more item. A refusal leaves the items.
    pub fn reserve(&mut self) -> Result<(), NoMemory>
        ensures items { self.new.items ≡ self.old.items }
        ensures ok { OnOk result (0 < self.new.room) }
    {
        self.items.try_reserve(1)
    }

    /// Puts an item at the end, where there is room. It takes no memory.
    pub fn push(&mut self, item: Item)
        requires room { 0 < self.old.room }
        ensures items { self.new.items ≡ self.old.items ++ item ∷ [] }
    {
        self.bytes = self.bytes.saturating_add(cost_of(&item));
        self.items.push_reserved(item);
    }
}
