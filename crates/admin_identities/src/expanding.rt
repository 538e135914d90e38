// The administrators of a policy in a world.
ghost use Rattle.std.specs.Prelude.{◌≡◌, flat_map, IfOk};
ghost use Rattle.authority_model.specs.Admins.{members_of_word, or_root, expand};
ghost use Rattle.authority_model.specs.Lists.{without_repeats};
ghost use Rattle.authority_model.specs.Values.{same_identity};

use crate::members::add_word;
use authority_model::World;
use pk_types::{Identity, IdentityList, List, NoMemory, Text, TextList};
use std::alloc::Global;

/// The users that these words stand for, each once.
fn members(alloc: Global, world: &World, words: &[Text]) -> Result<IdentityList, NoMemory>
    ensures members { IfOk result (λ l. l ≡ without_repeats same_identity (flat_map (members_of_word world.now) words.now)) }
{
    let mut found = List::new(alloc);
    for word in words {
        add_word(&mut found, world, word)?;
    }
    Ok(found)
}

/// The identities, or uid 0 alone where there is none.
fn or_root(mut identities: IdentityList) -> Result<IdentityList, NoMemory>
    ensures identities { IfOk result (λ l. l ≡ or_root identities) }
{
    if identities.is_empty() {
        identities.try_push(Identity::User(0))?;
    }
    Ok(identities)
}

/// The administrators that these words stand for, each once and in order, and uid 0 alone where
/// they stand for nobody. A word that names nobody is skipped.
pub fn expand(alloc: Global, world: &World, admins: &TextList) -> Result<IdentityList, NoMemory>
    ensures identities { IfOk result (λ l. l ≡ expand world.now admins.now) }
{
    let found = members(alloc, world, admins.as_slice())?;
    or_root(found)
}
