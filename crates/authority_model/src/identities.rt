// The identity that a text names: `unix-user:` or `unix-group:`, and a number or a name.
ghost use Rattle.std.specs.Prelude.{◌≡◌, ◌==◌, option_map, option_and_then, position, bytes_eq, codes, find};
ghost use Rattle.std.specs.List.{before_first};
ghost use Rattle.std.specs.Option.{option_copied};
ghost use Rattle.std.specs.Result.{result_ok, result_err};
ghost use Rattle.authority_model.specs.Lists.{any_of};
ghost use Rattle.authority_model.specs.Words.{after_front};
ghost use Rattle.authority_model.specs.Worlds.{user_of_word, group_of_word};
ghost use Rattle.authority_model.specs.Identities.{is_kind};

use crate::World;
use pk_types::{Identity, Text, number};
use thiserror::Error;

/// Why a text names no identity.
#[derive(Clone, Copy, Debug, PartialEq, Eq, Error)]
pub enum IdentityFault {
    #[error("the identity has no ':'")]
    NoColon,
    #[error("the identity is neither a unix-user nor a unix-group")]
    Kind,
    #[error("there is no user or group of this name")]
    Unknown,
}

/// What is left of a text behind this prefix.
fn behind<'a>(front: &[u8], text: &'a [u8]) -> Option<&'a [u8]>
    ensures behind { option_copied result ≡ after_front front.now text.now }
{
    text.strip_prefix(front)
}

/// Whether a text has a colon.
fn has_colon(text: &[u8]) -> bool
    ensures colon { result ≡ any_of (λ b. b == 58) text.now }
{
    text.iter().any(|b| *b == b':')
}

/// Where the first colon stands.
fn colon_place(text: &[u8]) -> Option<usize>
    ensures first { result ≡ position (λ b. b == 58) text.now }
{
    text.iter().position(|b| *b == b':')
}

/// The word before the first colon.
fn before_colon(text: &[u8]) -> &[u8]
    ensures before { result.now ≡ before_first (λ b. b == 58) text.now }
{
    match colon_place(text) {
        Some(end) => &text[..end],
        None => text,
    }
}

/// Whether a word is a kind of identity.
fn is_kind(word: &[u8]) -> bool
    ensures kind { result ≡ is_kind word.now }
{
    word == b"unix-user".as_slice() || word == b"unix-group".as_slice()
}

/// The uid of the first user of this name.
fn uid_of_name(world: &World, name: &[u8]) -> Option<u32>
    ensures uid { result ≡ option_map (λ u. u.uid) (find (λ u. bytes_eq u.name name.now) world.now.users) }
{
    let row = world
        .users
        .as_slice()
        .iter()
        .find(|row| row.name.bytes() == name);
    row.map(|row| row.uid)
}

/// The gid of the first group of this name.
fn gid_of_name(world: &World, name: &[u8]) -> Option<u32>
    ensures gid { result ≡ option_map (λ g. g.gid) (find (λ g. bytes_eq g.name name.now) world.now.groups) }
{
    let row = world
        .groups
        .as_slice()
        .iter()
        .find(|row| row.name.bytes() == name);
    row.map(|row| row.gid)
}

/// The user that a word names: by its number, or else by its name.
fn user_of_word(world: &World, word: &[u8]) -> Option<Identity>
    ensures user { result ≡ user_of_word world.now word.now }
{
    let uid = number(word).or(uid_of_name(world, word));
    uid.map(Identity::User)
}

/// The group that a word names: by its number, or else by its name.
fn group_of_word(world: &World, word: &[u8]) -> Option<Identity>
    ensures group { result ≡ group_of_word world.now word.now }
{
    let gid = number(word).or(gid_of_name(world, word));
    gid.map(Identity::Group)
}

/// The user that is written `unix-user:` and a word.
fn user_in_text(world: &World, text: &[u8]) -> Option<Identity>
    ensures user { result ≡ option_and_then (user_of_word world.now) (after_front (codes "unix-user:") text.now) }
{
    match behind(b"unix-user:".as_slice(), text) {
        Some(word) => user_of_word(world, word),
        None => None,
    }
}

/// The group that is written `unix-group:` and a word.
fn group_in_text(world: &World, text: &[u8]) -> Option<Identity>
    ensures group { result ≡ option_and_then (group_of_word world.now) (after_front (codes "unix-group:") text.now) }
{
    match behind(b"unix-group:".as_slice(), text) {
        Some(word) => group_of_word(world, word),
        None => None,
    }
}

impl World {
    ghost use Rattle.authority_model.specs.Worlds.{identity_of};
    ghost use Rattle.authority_model.specs.Identities.{identity_fault};

    /// The identity that is written `unix-user:` or `unix-group:` and a word: a decimal number of 32
    /// bits, or else a name of this world. It takes no memory.
    pub fn identity_of(&self, text: &[u8]) -> Option<Identity>
        ensures identity { result ≡ identity_of self.now text.now }
    {
        match user_in_text(self, text) {
            Some(user) => Some(user),
            None => group_in_text(self, text),
        }
    }

    /// The identity that is written `unix-user:` or `unix-group:` and a word: a decimal number of 32
    /// bits, or else a name of this world.
    ///
    /// It is refused as `NoColon` exactly where the text has no colon, then as `Kind` exactly where
    /// any other word stands before the first colon, and then as `Unknown` exactly where the word
    /// behind it is neither such a number nor a name of this world.
    pub fn identity(&self, text: &Text) -> Result<Identity, IdentityFault>
        ensures identity { result_ok result ≡ identity_of self.now text.now }
        ensures fault { result_err result ≡ identity_fault self.now text.now }
    {
        let bytes = text.bytes();
        if !has_colon(bytes) {
            return Err(IdentityFault::NoColon);
        }
        if !is_kind(before_colon(bytes)) {
            return Err(IdentityFault::Kind);
        }
        match self.identity_of(bytes) {
            Some(identity) => Ok(identity),
            None => Err(IdentityFault::Unknown),
        }
    }
}
