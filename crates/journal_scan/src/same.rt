// Whether two loads are the same, value by value.
ghost use Rattle.std.specs.Prelude.{◌≡◌, IsTrue};

use authority_model::{Action, Group, Localized, Policy, Process, RuleEntry, Session, User};
use pk_types::{ActionId, Implicit, List, Pair, Text};

/// A value that can be compared with another.
pub(crate) trait Same: Drop + Sized {
    /// Whether the two values are the same.
    fn is_same(&self, other: &Self) -> bool
        ensures same { IsTrue result → self.now ≡ other.now };
}

/// Whether two lists have the same items.
fn same_items<T: Same>(left: &[T], right: &[T]) -> bool
    ensures same { IsTrue result → left.now ≡ right.now }
{
    if left.len() != right.len() {
        return false;
    }
    let mut at = 0;
    while at < left.len() {
        if !left[at].is_same(&right[at]) {
            return false;
        }
        at += 1;
    }
    true
}

impl Same for u32 {
    fn is_same(&self, other: &u32) -> bool {
        *self == *other
    }
}

impl Same for Implicit {
    fn is_same(&self, other: &Implicit) -> bool {
        *self == *other
    }
}

impl Same for Text {
    fn is_same(&self, other: &Text) -> bool {
        Text::is_same(self, other)
    }
}

impl Same for ActionId {
    fn is_same(&self, other: &ActionId) -> bool {
        self.text().is_same(other.text())
    }
}

impl Same for Pair {
    fn is_same(&self, other: &Pair) -> bool {
        self.key.is_same(&other.key) && self.value.is_same(&other.value)
    }
}

impl<T: Same> Same for Option<T> {
    fn is_same(&self, other: &Option<T>) -> bool {
        match (self, other) {
            (Some(left), Some(right)) => left.is_same(right),
            (None, None) => true,
            _ => false,
        }
    }
}

impl<T: Same> Same for List<T> {
    fn is_same(&self, other: &List<T>) -> bool {
        same_items(self.as_slice(), other.as_slice())
    }
}

impl Same for Localized {
    fn is_same(&self, other: &Localized) -> bool {
        self.lang.is_same(&other.lang) && self.text.is_same(&other.text)
    }
}

impl Same for Action {
    fn is_same(&self, other: &Action) -> bool {
        self.id.is_same(&other.id)
            && self.descriptions.is_same(&other.descriptions)
            && self.messages.is_same(&other.messages)
            && self.vendor.is_same(&other.vendor)
            && self.vendor_url.is_same(&other.vendor_url)
            && self.icon.is_same(&other.icon)
            && self.any == other.any
            && self.inactive == other.inactive
            && self.active == other.active
            && self.annotations.is_same(&other.annotations)
    }
}

impl Same for RuleEntry {
    fn is_same(&self, other: &RuleEntry) -> bool {
        self.identities.is_same(&other.identities)
            && self.actions.is_same(&other.actions)
            && self.any.is_same(&other.any)
            && self.inactive.is_same(&other.inactive)
            && self.active.is_same(&other.active)
            && self.pairs.is_same(&other.pairs)
    }
}

impl Same for Policy {
    fn is_same(&self, other: &Policy) -> bool {
        self.actions.is_same(&other.actions)
            && self.entries.is_same(&other.entries)
            && self.admins.is_same(&other.admins)
    }
}

impl Same for User {
    fn is_same(&self, other: &User) -> bool {
        self.uid == other.uid
            && self.name.is_same(&other.name)
            && self.label.is_same(&other.label)
            && self.gids.is_same(&other.gids)
    }
}

impl Same for Group {
    fn is_same(&self, other: &Group) -> bool {
        self.gid == other.gid && self.name.is_same(&other.name) && self.label.is_same(&other.label)
    }
}

impl Same for Session {
    fn is_same(&self, other: &Session) -> bool {
        self.id.is_same(&other.id)
            && self.uid == other.uid
            && self.local == other.local
            && self.active == other.active
    }
}

impl Same for Process {
    fn is_same(&self, other: &Process) -> bool {
        self.pid == other.pid
            && self.start == other.start
            && self.uid == other.uid
            && self.session.is_same(&other.session)
    }
}
