// The entries of a file.
ghost use Rattle.std.specs.Prelude.{◌≡◌, [], None, codes, map, IfOk, MatchResult};
ghost use Rattle.std.specs.List.{list_any};
ghost use Rattle.std.specs.Option.{option_map_or};
ghost use Rattle.keyfile_text.specs.Keys.{value_of};
ghost use Rattle.pkla_files.specs.Entries.{list_in, has_result, result_in, is_other_word, has_other_word, is_netgroup, entry_of};
ghost use Rattle.pkla_files.specs.Faults.{first_fault, group_fault, return_fault, IsDue, IsDueKind};
ghost use Rattle.pkla_files.specs.Returned.{pairs_of};

use crate::fault::{PklaFault, PklaFaultKind};
use crate::returned::returned;
use authority_model::{RuleEntry, RuleList};
use keyfile_text::{Groups, KeyGroup, items};
use pk_types::{Implicit, NoMemory, PairList, Text, TextList};
use std::alloc::Global;

/// The items of a key; none where the key is absent.
fn list_in(alloc: Global, group: &KeyGroup, key: &[u8]) -> Result<TextList, NoMemory>
    ensures items { IfOk result (λ items. items ≡ list_in key.now group.now) }
{
    match group.value(key) {
        Some(value) => items(alloc, value),
        None => Ok(TextList::new(alloc)),
    }
}

/// Whether one of the three results is given.
fn has_result(group: &KeyGroup) -> bool
    ensures has { result ≡ has_result group.now }
{
    group.value(b"ResultAny").is_some()
        || group.value(b"ResultInactive").is_some()
        || group.value(b"ResultActive").is_some()
}

/// The implicit authorization that a key gives, if the key is there.
fn result_in(group: &KeyGroup, key: &[u8]) -> Option<Implicit>
    ensures value { result ≡ result_in key.now group.now }
{
    match group.value(key) {
        Some(word) => Implicit::read(word.bytes()),
        None => None,
    }
}

/// Whether a key is there whose value is none of the six words.
fn is_other_word(group: &KeyGroup, key: &[u8]) -> bool
    ensures other { result ≡ is_other_word key.now group.now }
{
    group.value(key).is_some() && result_in(group, key).is_none()
}

/// Whether a result is given that is none of the six words.
fn has_other_word(group: &KeyGroup) -> bool
    ensures other { result ≡ has_other_word group.now }
{
    is_other_word(group, b"ResultAny")
        || is_other_word(group, b"ResultInactive")
        || is_other_word(group, b"ResultActive")
}

/// Whether an identity is a netgroup.
fn is_netgroup(identity: &[u8]) -> bool
    ensures netgroup { result ≡ is_netgroup identity.now }
{
    identity.starts_with(b"unix-netgroup:")
}

/// Whether one of the identities is a netgroup.
fn has_netgroup(identities: &[Text]) -> bool
    ensures netgroup { result ≡ list_any is_netgroup identities.now }
{
    identities
        .iter()
        .any(|identity| is_netgroup(identity.bytes()))
}

/// The pairs of a group's `ReturnValue`; none where the key is absent.
fn pairs_in(alloc: Global, group: &KeyGroup) -> Result<PairList, PklaFaultKind>
    ensures pairs { IfOk result (λ pairs.
        pairs ≡ option_map_or pairs_of (value_of (codes "ReturnValue") group.now) []) }
    ensures fault { MatchResult result
        (λ _. return_fault (value_of (codes "ReturnValue") group.now) ≡ None)
        (λ fault. IsDueKind fault (return_fault (value_of (codes "ReturnValue") group.now))) }
{
    match group.value(b"ReturnValue") {
        Some(value) => returned(alloc, value),
        None => Ok(PairList::new(alloc)),
    }
}

/// The entry of a group.
fn entry(alloc: Global, group: &KeyGroup) -> Result<RuleEntry, PklaFaultKind>
    ensures entry { IfOk result (λ entry. entry ≡ entry_of group.now) }
    ensures fault { MatchResult result (λ _. group_fault group.now ≡ None)
        (λ fault. IsDueKind fault (group_fault group.now)) }
{
    let identities = list_in(alloc, group, b"Identity")?;
    let actions = list_in(alloc, group, b"Action")?;
    if identities.is_empty() || actions.is_empty() || !has_result(group) {
        return Err(PklaFaultKind::MissingKey);
    }
    if has_other_word(group) {
        return Err(PklaFaultKind::ResultWord);
    }
    if has_netgroup(identities.as_slice()) {
        return Err(PklaFaultKind::Netgroup);
    }
    let pairs = pairs_in(alloc, group)?;
    Ok(RuleEntry {
        identities,
        actions,
        any: result_in(group, b"ResultAny"),
        inactive: result_in(group, b"ResultInactive"),
        active: result_in(group, b"ResultActive"),
        pairs,
    })
}

/// The entries of a file's groups, each group one entry, in their order (pklocalauthority(8),
/// "Authorization Entry").
///
/// `Identity`, `Action` and at least one of `ResultAny`, `ResultInactive` and `ResultActive` are
/// given, and the first two are lists with at least one item. A result is one of the six words of
/// an implicit authorization. No identity begins with `unix-netgroup:`. `ReturnValue` is a list of
/// `KEY=VALUE`, each cut at its first `=`, with a key that is not empty and no escape but `\;`.
/// Other keys are ignored.
///
/// The fault is that of the first faulty group: the first of its kinds in the order of
/// `PklaFaultKind`.
pub fn entries(alloc: Global, groups: &Groups) -> Result<RuleList, PklaFault>
    ensures entries { IfOk result (λ entries. entries ≡ map entry_of groups.now) }
    ensures fault { MatchResult result (λ _. first_fault groups.now ≡ None)
        (λ fault. IsDue fault (first_fault groups.now)) }
{
    let mut entries = RuleList::new(alloc);
    for (place, group) in groups.as_slice().iter().enumerate() {
        let entry = match entry(alloc, group) {
            Ok(entry) => entry,
            Err(kind) => {
                return Err(PklaFault {
                    kind,
                    group: place as u64,
                });
            }
        };
        entries.try_push(entry)?;
    }
    Ok(entries)
}
