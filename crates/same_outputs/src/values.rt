// Texts, pairs, identities, keys and cookies.
use crate::same::Same;
use authority_model::{Cookie, GrantRow, Key};
use pk_types::{Identity, Pair, Text};

impl Same for Text {
    fn is_same(&self, other: &Text) -> bool {
        self.bytes() == other.bytes()
    }
}

impl Same for Pair {
    fn is_same(&self, other: &Pair) -> bool {
        self.key.is_same(&other.key) && self.value.is_same(&other.value)
    }
}

impl Same for Identity {
    fn is_same(&self, other: &Identity) -> bool {
        *self == *other
    }
}

impl Same for Cookie {
    fn is_same(&self, other: &Cookie) -> bool {
        *self == *other
    }
}

impl Same for Key {
    fn is_same(&self, other: &Key) -> bool {
        self.is_same(other.borrowed())
    }
}

impl Same for GrantRow {
    fn is_same(&self, other: &GrantRow) -> bool {
        self.id == other.id
            && self.action.is_same(&other.action)
            && self.key.is_same(other.key.borrowed())
            && self.obtained == other.obtained
            && self.expires == other.expires
    }
}
