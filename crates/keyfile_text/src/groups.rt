// The groups of a key file.
ghost use Rattle.std.specs.Prelude.{◌≡◌};
ghost use Rattle.std.specs.Option.{option_copied};

use pk_types::{List, PairList, Text};

/// A group of a key file: its name, and its keys with their values in the order in which the keys
/// first came. The values have their escapes undecoded.
#[derive(Drop)]
pub struct KeyGroup {
    pub name: Text,
    pub pairs: PairList,
}

/// The groups of a file, in the order in which their names first came.
pub type Groups = List<KeyGroup>;

/// The groups of several files.
pub type GroupsList = List<Groups>;

impl KeyGroup {
    ghost use Rattle.keyfile_text.specs.Keys.{value_of};

    /// The value of a key, with its escapes undecoded, and `None` exactly where the key is absent.
    /// Of several pairs with the key, which no file that is read gives, the first counts.
    pub fn value(&self, key: &[u8]) -> Option<&Text>
        ensures value { option_copied result ≡ value_of key.now self.now }
    {
        match self
            .pairs
            .as_slice()
            .iter()
            .find(|pair| pair.key.bytes() == key)
        {
            Some(pair) => Some(&pair.value),
            None => None,
        }
    }
}
