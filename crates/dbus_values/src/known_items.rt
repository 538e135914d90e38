// The items of the arrays that a walk has met, so that an item's letters are walked once, and not
// again for each array of it.
ghost use Rattle.std.specs.Prelude.{◌≡◌};
ghost use Rattle.std.specs.Option.{option_map};
ghost use Rattle.dbus_values.specs.Signatures.{after_item};

use crate::signature::{after_item, front_of};
use std::marker::Model;

/// A signature has at most 255 letters, so no two places of one share a slot.
const SLOTS: usize = 256;

/// Items of arrays, each in the slot of the place where it was met.
#[derive(Drop)]
pub struct KnownItems<'a> {
    slots: [Option<&'a [u8]>; 256],
}

impl<'a> Model for KnownItems<'a> {
    ghost use Rattle.std.specs.Prelude.{List, ℕ, length, ◌≡◌};
    ghost use Rattle.dbus_values.specs.Known.{AllKnown};

    ghost Value = { Unit {0} };

    ghost view = { λ s. tt };

    ghost invariant = { λ s. (length s.slots ≡ 256) × AllKnown s.slots };
}

impl<'a> KnownItems<'a> {
    /// None is known. It is made of zeros alone, which takes less than other values.
    #[inline(always)]
    pub fn new() -> KnownItems<'a> {
        KnownItems { slots: [None; 256] }
    }

    /// What follows the item of an array. The place chooses the slot, and nothing else.
    pub fn after_item(&mut self, place: usize, sig: &'a [u8]) -> Option<&'a [u8]>
        ensures exact { option_map (λ rest. rest.now) result ≡ after_item sig.now }
    {
        let slot = place % SLOTS;
        if let Some(item) = self.slots[slot] {
            if sig.starts_with(item) {
                return Some(&sig[item.len()..]);
            }
        }
        match after_item(sig) {
            Some(rest) => {
                self.slots[slot] = Some(front_of(sig, rest));
                Some(rest)
            }
            None => None,
        }
    }
}
