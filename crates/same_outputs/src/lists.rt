// Lists, item by item.
ghost use Rattle.std.specs.Prelude.{◌≡◌, ◌↔◌, IsTrue};

use crate::same::Same;
use pk_types::List;

/// Whether these items are the same, one by one.
fn are_same<T: Same>(items: &[T], others: &[T]) -> bool
    ensures same { IsTrue result ↔ (items.now ≡ others.now) }
{
    let mut left = items;
    let mut right = others;
    while let [item, more @ ..] = left {
        let [other, other_more @ ..] = right else {
            return false;
        };
        if !item.is_same(other) {
            return false;
        }
        left = more;
        right = other_more;
    }
    right.is_empty()
}

impl<T: Same> Same for List<T> {
    fn is_same(&self, other: &List<T>) -> bool {
        are_same(self.as_slice(), other.as_slice())
    }
}
