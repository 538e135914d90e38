// Pairs of texts, as a dictionary `a{ss}`.
ghost use Rattle.std.specs.Prelude.{false, true, map, codes, IfOk};
ghost use Rattle.authority_messages.specs.Values.{pair as pair_tree, pairs as pairs_tree};
ghost use Rattle.authority_messages.specs.Built.{Builds, Items};

use crate::containers::{array, entry};
use crate::values::string;
use dbus_values::{Value, ValueList};
use pk_types::{NoMemory, Pair};
use std::alloc::Global;

/// A pair, which is an entry of a dictionary.
fn pair(alloc: Global, from: &Pair) -> Result<Value, NoMemory>
    ensures value { IfOk result (λ v. Builds true 1 v (pair_tree from.now)) }
{
    let key = string(alloc, &from.key)?;
    let value = string(alloc, &from.value)?;
    entry(alloc, key, value)
}

/// The entries of a dictionary.
fn pair_items(alloc: Global, from: &[Pair]) -> Result<ValueList, NoMemory>
    ensures items { IfOk result (λ list. Items 1 (codes "{ss}") list (map pair_tree from.now)) }
{
    let mut items = ValueList::new(alloc);
    for one in from {
        let item = pair(alloc, one)?;
        items.try_push(item)?;
    }
    Ok(items)
}

/// Pairs, as a dictionary.
pub fn pairs(alloc: Global, from: &[Pair]) -> Result<Value, NoMemory>
    ensures value { IfOk result (λ v. Builds false 2 v (pairs_tree from.now)) }
{
    let items = pair_items(alloc, from)?;
    array(alloc, "{ss}", items)
}
