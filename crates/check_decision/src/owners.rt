// Owners of actions (the annotation org.freedesktop.policykit.owner of polkit(8)).
ghost use Rattle.std.specs.Prelude.{◌≡◌, ◌==◌};
ghost use Rattle.authority_model.specs.Lists.{any_of};
ghost use Rattle.authority_model.specs.Words.{words};
ghost use Rattle.authority_model.specs.Trust as trust;
ghost use Rattle.check_decision.specs.Owners as owners;

use crate::words::next_word;
use authority_model::{Action, World};
use pk_types::Identity;

/// The annotation that names an action's owners.
const OWNER_KEY: &[u8] = b"org.freedesktop.policykit.owner";

/// Whether a group is among these.
fn has_group(gids: &[u32], gid: u32) -> bool
    ensures has { result ≡ any_of (λ g. g == gid) gids.now }
{
    gids.iter().any(|own| *own == gid)
}

/// Whether an identity covers a user: a user itself, and a group the users whose row lists it.
fn covers(world: &World, uid: u32, identity: Identity) -> bool
    ensures covers { result ≡ trust.covers world.now uid identity }
{
    match identity {
        Identity::User(own) => own == uid,
        Identity::Group(gid) => match world.user(uid) {
            Some(user) => has_group(user.gids.as_slice(), gid),
            None => false,
        },
    }
}

/// Whether the identity that a word names covers a user; a word that names nobody covers nobody.
fn word_covers(world: &World, uid: u32, word: &[u8]) -> bool
    ensures covers { result ≡ owners.word_covers world.now uid word.now }
{
    match world.identity_of(word) {
        Some(identity) => covers(world, uid, identity),
        None => false,
    }
}

/// Whether a word of a text covers a user.
fn some_word_covers(world: &World, uid: u32, text: &[u8]) -> bool
    ensures covers { result ≡ any_of (owners.word_covers world.now uid) (words text.now) }
{
    let mut rest = text;
    while let Some((word, after)) = next_word(rest) {
        if word_covers(world, uid, word) {
            return true;
        }
        rest = after;
    }
    false
}

/// Whether the owners of an action cover a user.
pub fn owns(world: &World, uid: u32, action: &Action) -> bool
    ensures owns { result ≡ trust.owns world.now uid action.now }
{
    match action.annotation(OWNER_KEY) {
        Some(text) => some_word_covers(world, uid, text.bytes()),
        None => false,
    }
}
