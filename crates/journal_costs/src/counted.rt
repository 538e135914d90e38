// What is counted, and the values of which everything else is made: texts, lists and pairs.
ghost use Rattle.std.specs.Prelude.{◌≡◌, ℕ, length, sum_by};
ghost use Rattle.std.specs.Option.{option_map_or};
ghost use Rattle.authority_model.specs.Costs.{capped, cost_of_pair};

use crate::cost::Cost;
use pk_types::{ActionId, List, Pair, Text};

/// What has a cost in counted bytes.
pub trait Counted {
    /// The cost before it is capped.
    ghost cost: { Self → ℕ };

    /// The cost. It takes no memory, and its time is linear in what is counted.
    fn cost(&self) -> Cost
        ensures cost { result ≡ capped (cost self.now) };
}

impl Counted for Text {
    ghost cost = { length };

    fn cost(&self) -> Cost {
        Cost::of_bytes(self.bytes().len() as u64)
    }
}

impl Counted for ActionId {
    ghost cost = { length };

    fn cost(&self) -> Cost {
        self.text().cost()
    }
}

impl<T: Counted> Counted for Option<T> {
    ghost cost = { λ item. option_map_or T.cost item 0 };

    fn cost(&self) -> Cost {
        match self {
            Some(item) => item.cost(),
            None => Cost::NOTHING,
        }
    }
}

impl<T: Counted> Counted for List<T> {
    ghost cost = { λ items. sum_by T.cost items };

    fn cost(&self) -> Cost {
        sum_of(self.as_slice())
    }
}

/// The costs of all items together.
fn sum_of<T: Counted>(items: &[T]) -> Cost
    ensures cost { result ≡ capped (sum_by T.cost items.now) }
{
    let mut total = Cost::NOTHING;
    for item in items {
        total = total.plus(item.cost());
    }
    total
}

impl Counted for Pair {
    ghost cost = { cost_of_pair };

    fn cost(&self) -> Cost {
        Cost::of_rows(1)
            .plus(self.key.cost())
            .plus(self.value.cost())
    }
}
