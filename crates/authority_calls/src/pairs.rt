// The details of a check.
ghost use Rattle.std.specs.Prelude.{◌≡◌};
ghost use Rattle.authority_calls.specs.Arguments.{Takes};
ghost use Rattle.authority_calls.specs.Dictionaries.{pair, next_pair, pairs};

use crate::arguments::{enter, leave, part, text};
use crate::fault::ArgumentFault;
use dbus_values::{MOST_PARTS, Part, Parts};
use pk_types::{List, Pair, PairList};
use std::alloc::Global;

/// A pair that has begun.
fn pair(alloc: Global, parts: &mut Parts) -> Result<Pair, ArgumentFault>
    ensures exact { Takes pair parts.old parts.new result }
{
    let key = text(alloc, parts)?;
    let value = text(alloc, parts)?;
    leave(parts)?;
    Ok(Pair { key, value })
}

/// The next pair, or nothing at the end.
fn next_pair(alloc: Global, parts: &mut Parts) -> Result<Option<Pair>, ArgumentFault>
    ensures exact { Takes next_pair parts.old parts.new result }
{
    let first = part(parts)?;
    match first {
        Part::Enter { .. } => {
            let pair = pair(alloc, parts)?;
            Ok(Some(pair))
        }
        Part::Leave { .. } => Ok(None),
        Part::Number { .. } | Part::Text { .. } | Part::Variant { .. } => {
            Err(ArgumentFault::OutOfForm)
        }
    }
}

/// Pairs, in their order. A key may come twice.
#[tactic(auto, using(crate::proofs::Many::pair_rules))]
pub fn pairs(alloc: Global, parts: &mut Parts) -> Result<PairList, ArgumentFault>
    ensures exact { Takes pairs parts.old parts.new result }
{
    enter(parts)?;
    let mut pairs = List::new(alloc);
    for i in 0..MOST_PARTS {
        match next_pair(alloc, parts)? {
            None => return Ok(pairs),
            Some(pair) => pairs.try_push(pair)?,
        }
    }
    Err(ArgumentFault::OutOfForm)
}
