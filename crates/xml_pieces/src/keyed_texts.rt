// Texts under keys: the annotations of an action, and its texts by language.
ghost use Rattle.std.specs.Prelude.{◌≡◌, ◌<◌, [], ◌∷◌, ◌++◌, false, is_some, length, IfSome, OnOk, OnErr};
ghost use Rattle.xml_pieces.specs.Keyed.{place_of_key, has_key, set_key};

use indexmap::IndexSet;
use pk_types::{NoMemory, Pair, Text};
use std::alloc::Global;
use std::marker::Model;

/// Texts under keys, in the order in which the keys first came. Contracts see the pairs.
#[derive(Drop)]
pub struct KeyedTexts {
    pairs: Vec<Pair>,
    keys: IndexSet<Vec<u8>>,
}

impl Model for KeyedTexts {
    ghost use Rattle.std.specs.Prelude.{◌≡◌, List, map};
    ghost use Rattle.pk_types.specs.declared.values.Pair.{Pair};
    ghost use Rattle.xml_pieces.specs.Keyed.{keys_of};

    ghost Value = { List Pair };

    ghost view = { λ t. t.pairs.items };

    ghost invariant = { λ t. map (λ k. k.items) t.keys.keys ≡ keys_of t.pairs.items };
}

impl KeyedTexts {
    /// No text. It takes no memory.
    pub fn new(alloc: Global) -> Self
        ensures none { result ≡ [] }
    {
        KeyedTexts {
            pairs: Vec::new(alloc),
            keys: IndexSet::new(alloc),
        }
    }

    fn place_of(&self, key: &[u8]) -> Option<usize>
        ensures place { result ≡ place_of_key key.now self.now }
        ensures found { is_some result ≡ has_key key.now self.now }
        ensures within { IfSome result (λ i. i < length self.now) }
    {
        self.keys.get_index_of(key)
    }

    /// Whether a text stands under the key.
    pub fn has(&self, key: &[u8]) -> bool
        ensures has { result ≡ has_key key.now self.now }
    {
        self.keys.contains(key)
    }

    /// Puts a text under a key that has none, as the last one.
    fn push(&mut self, alloc: Global, key: Text, value: Text) -> Result<(), NoMemory>
        requires new { has_key key self.old ≡ false }
        ensures ok { OnOk result (self.new ≡ self.old ++ (record { key = key; value = value }) ∷ []) }
        ensures err { OnErr result (self.new ≡ self.old) }
    {
        let copy = Vec::from_slice(alloc, key.bytes())?;
        self.pairs.reserve(1)?;
        self.keys.insert(copy)?;
        self.pairs.push_reserved(Pair { key, value });
        Ok(())
    }

    /// Gives the key the text. A key that stands keeps its place, and another comes last. A
    /// refusal leaves all as it was.
    pub fn set(&mut self, alloc: Global, key: Text, value: Text) -> Result<(), NoMemory>
        ensures ok { OnOk result (self.new ≡ set_key key value self.old) }
        ensures err { OnErr result (self.new ≡ self.old) }
    {
        match self.place_of(key.bytes()) {
            Some(i) => {
                self.pairs[i] = Pair { key, value };
                Ok(())
            }
            None => self.push(alloc, key, value),
        }
    }

    /// The pairs, in their order. It takes no memory.
    pub fn into_pairs(self) -> Vec<Pair>
        ensures pairs { result.items ≡ self }
    {
        self.pairs
    }
}
