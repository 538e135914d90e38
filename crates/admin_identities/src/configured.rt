// The administrators that the files of localauthority.conf.d name.
ghost use Rattle.std.specs.Prelude.{◌≡◌, [], ◌∷◌, None, codes, find, bytes_eq, IfOk, MatchResult};
ghost use Rattle.std.specs.Option.{option_copied};
ghost use Rattle.authority_model.specs.Words.{after_front};
ghost use Rattle.admin_identities.specs.Configured.{is_named, is_identity, faulty_place, value_in, configured, file_fault, first_fault, admins_of, IsDue};

use crate::fault::AdminFault;
use keyfile_text::{Groups, GroupsList, KeyGroup, items};
use pk_types::{List, NoMemory, Text, TextList};
use std::alloc::Global;

/// What is left of a text after this prefix.
fn behind<'a>(front: &[u8], text: &'a [u8]) -> Option<&'a [u8]>
    ensures behind { option_copied result ≡ after_front front.now text.now }
{
    text.strip_prefix(front)
}

/// Whether a text is this prefix and a name that is not empty.
fn names(front: &[u8], text: &[u8]) -> bool
    ensures names { result ≡ is_named (after_front front.now text.now) }
{
    match behind(front, text) {
        Some(name) => !name.is_empty(),
        None => false,
    }
}

/// Whether an item is a user or a group with a name that is not empty.
fn is_identity(item: &[u8]) -> bool
    ensures identity { result ≡ is_identity item.now }
{
    names(b"unix-user:", item) || names(b"unix-group:", item)
}

/// The place of the first item that is neither a user nor a group.
fn faulty_place(items: &[Text]) -> Option<usize>
    ensures first { result ≡ faulty_place items.now }
{
    items.iter().position(|item| !is_identity(item.bytes()))
}

/// The first group with this name.
fn group_named<'a>(groups: &'a [KeyGroup], name: &[u8]) -> Option<&'a KeyGroup>
    ensures first { option_copied result ≡ find (λ g. bytes_eq g.name name.now) groups.now }
{
    groups.iter().find(|group| group.name.bytes() == name)
}

/// The value of a file's administrators, where it has the key.
fn value_in(conf: &[KeyGroup]) -> Option<&Text>
    ensures value { option_copied result ≡ value_in conf.now }
{
    match group_named(conf, b"Configuration") {
        Some(group) => group.value(b"AdminIdentities"),
        None => None,
    }
}

/// The items of a file's administrators, where it has the key.
fn configured(alloc: Global, conf: &Groups) -> Result<Option<TextList>, NoMemory>
    ensures items { IfOk result (λ items. items ≡ configured conf.now) }
{
    match value_in(conf.as_slice()) {
        Some(value) => Ok(Some(items(alloc, value)?)),
        None => Ok(None),
    }
}

/// The items of the administrators of the file at this place, where it has the key.
fn checked(alloc: Global, file: u64, conf: &Groups) -> Result<Option<TextList>, AdminFault>
    ensures items { IfOk result (λ items. items ≡ configured conf.now) }
    ensures fault { MatchResult result (λ _. file_fault file (configured conf.now) ≡ None)
        (λ fault. IsDue fault (file_fault file (configured conf.now))) }
{
    let Some(items) = configured(alloc, conf)? else {
        return Ok(None);
    };
    match faulty_place(items.as_slice()) {
        Some(item) => Err(AdminFault::BadIdentity {
            file,
            item: item as u64,
        }),
        None => Ok(Some(items)),
    }
}

/// The user with uid 0 alone.
fn root_alone(alloc: Global) -> Result<TextList, NoMemory>
    ensures root { IfOk result (λ admins. admins ≡ codes "unix-user:0" ∷ []) }
{
    let mut admins = List::new(alloc);
    admins.try_push(Text::of_known(alloc, b"unix-user:0")?)?;
    Ok(admins)
}

/// The administrators that configuration files name, in the order in which the files are read: the
/// items of the key `AdminIdentities` of the group `[Configuration]` of the last file that has the
/// key, and `unix-user:0` where none has (pklocalauthority(8), "Administrator Authentication"). A
/// key without items counts, and the answer then has no item.
///
/// An item is `unix-user:` or `unix-group:` with at least one byte after it. It is refused as
/// `BadIdentity` exactly where one of the files has another item, even a file that a later one
/// overrides, with the first such item of the first such file.
pub fn admins(alloc: Global, confs: &GroupsList) -> Result<TextList, AdminFault>
    ensures admins { IfOk result (λ admins. admins ≡ admins_of confs.now) }
    ensures fault { MatchResult result (λ _. first_fault confs.now ≡ None)
        (λ fault. IsDue fault (first_fault confs.now)) }
{
    let mut last = None;
    for (file, conf) in confs.as_slice().iter().enumerate() {
        let items = checked(alloc, file as u64, conf)?;
        last = items.or(last);
    }
    match last {
        Some(admins) => Ok(admins),
        None => Ok(root_alone(alloc)?),
    }
}
