// Lists of identities, each in the list once.
ghost use Rattle.std.specs.Prelude.{◌≡◌, ◌==◌, ◌&&◌, not, flat_map, fold, OnOk};
ghost use Rattle.authority_model.specs.Admins.{members, members_of_word};
ghost use Rattle.authority_model.specs.Lists.{any_of};
ghost use Rattle.authority_model.specs.Values.{same_identity};
ghost use Rattle.admin_identities.specs.Adding.{added, member_of};

use authority_model::{User, World};
use pk_types::{Identity, IdentityList, NoMemory, Text};

/// Whether an identity is in a list.
fn has(found: &[Identity], identity: Identity) -> bool
    ensures has { result ≡ any_of (λ i. same_identity i identity) found.now }
{
    found.iter().any(|other| *other == identity)
}

/// Puts an identity at the end, unless it is in the list already.
fn add(found: &mut IdentityList, identity: Identity) -> Result<(), NoMemory>
    ensures ok { OnOk result (found.new ≡ added found.old identity) }
{
    if has(found.as_slice(), identity) {
        return Ok(());
    }
    found.try_push(identity)
}

/// Whether a group is among these.
fn lists(gids: &[u32], gid: u32) -> bool
    ensures lists { result ≡ any_of (λ g. g == gid) gids.now }
{
    gids.iter().any(|own| *own == gid)
}

/// Whether a group stands for a user: the user's row lists it, and it is not uid 0.
fn is_member(user: &User, gid: u32) -> bool
    ensures member { result ≡ (not (user.now.uid == 0) && any_of (λ g. g == gid) user.now.gids) }
{
    user.uid != 0 && lists(user.gids.as_slice(), gid)
}

/// Adds a user for whom a group stands.
fn add_member(found: &mut IdentityList, user: &User, gid: u32) -> Result<(), NoMemory>
    ensures ok { OnOk result (found.new ≡ fold added found.old (member_of gid user.now)) }
{
    if !is_member(user, gid) {
        return Ok(());
    }
    add(found, Identity::User(user.uid))
}

/// Adds the users among these for whom a group stands.
fn add_members(found: &mut IdentityList, users: &[User], gid: u32) -> Result<(), NoMemory>
    ensures ok { OnOk result (found.new ≡ fold added found.old (flat_map (member_of gid) users.now)) }
{
    for user in users {
        add_member(found, user, gid)?;
    }
    Ok(())
}

/// Adds the users that an identity stands for.
fn add_identity(found: &mut IdentityList, world: &World, identity: Identity) -> Result<(), NoMemory>
    ensures ok { OnOk result (found.new ≡ fold added found.old (members world.now identity)) }
{
    match identity {
        Identity::User(_) => add(found, identity),
        Identity::Group(gid) => add_members(found, world.users.as_slice(), gid),
    }
}

/// Adds the users that a word stands for; an unknown name stands for nobody.
pub fn add_word(found: &mut IdentityList, world: &World, word: &Text) -> Result<(), NoMemory>
    ensures ok { OnOk result (found.new ≡ fold added found.old (members_of_word world.now word.now)) }
{
    match world.identity_of(word.bytes()) {
        Some(identity) => add_identity(found, world, identity),
        None => Ok(()),
    }
}
