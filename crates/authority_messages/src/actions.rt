// The descriptions of actions.
ghost use Rattle.std.specs.Prelude.{◌≡◌, ◌-◌, ◌==◌, None, false, [], ◌∷◌, map, codes, IfOk, OnOk};
ghost use Rattle.std.specs.Option.{option_copied};
ghost use Rattle.pk_types.specs.Values.{code_of_implicit};
ghost use Rattle.authority_messages.specs.Values.{string, uint32, text_for, description as description_tree};
ghost use Rattle.authority_messages.specs.Messages.{loaded_as, actions_of};
ghost use Rattle.authority_messages.specs.Built.{Builds, Rows, Items, Adds};

use crate::containers::structure;
use crate::pairs::pairs;
use crate::values::{add, add_plain, add_string, add_uint32, no_values};
use authority_model::{Action, Loaded, LocalizedList, localized};
use dbus_values::{Value, ValueList};
use pk_types::{ActionId, Implicit, NoMemory, Text};
use std::alloc::Global;

/// Puts the text that a locale chooses at the end, and the empty text where it chooses none.
fn add_localized(
    alloc: Global,
    members: &mut ValueList,
    texts: &LocalizedList,
    locale: &Text,
) -> Result<(), NoMemory>
    ensures ok { OnOk result (Adds members.old members.new 0 (string (text_for locale.now texts.now))) }
{
    match localized(texts, locale) {
        Some(text) => add_string(alloc, members, text),
        None => add_plain(alloc, members, ""),
    }
}

/// Puts an action's id at the end.
fn add_id(alloc: Global, members: &mut ValueList, id: &ActionId) -> Result<(), NoMemory>
    ensures ok { OnOk result (Adds members.old members.new 0 (string id.now)) }
{
    add_string(alloc, members, id.text())
}

/// Puts the code of an implicit authorization at the end.
fn add_implicit(members: &mut ValueList, implicit: Implicit) -> Result<(), NoMemory>
    ensures ok { OnOk result (Adds members.old members.new 0 (uint32 (code_of_implicit implicit))) }
{
    add_uint32(members, implicit.code())
}

/// The texts of an action.
fn told_texts(alloc: Global, locale: &Text, action: &Action) -> Result<ValueList, NoMemory>
    ensures texts { IfOk result (λ members. Rows 0 members (string action.now.id ∷ string (text_for locale.now action.now.descriptions) ∷ string (text_for locale.now action.now.messages) ∷ string action.now.vendor ∷ string action.now.vendor_url ∷ string action.now.icon ∷ [])) }
{
    let mut members = no_values(alloc);
    add_id(alloc, &mut members, &action.id)?;
    add_localized(alloc, &mut members, &action.descriptions, locale)?;
    add_localized(alloc, &mut members, &action.messages, locale)?;
    add_string(alloc, &mut members, &action.vendor)?;
    add_string(alloc, &mut members, &action.vendor_url)?;
    add_string(alloc, &mut members, &action.icon)?;
    Ok(members)
}

/// The description of an action (ActionDescription in the reference manual).
fn description(alloc: Global, locale: &Text, action: &Action) -> Result<Value, NoMemory>
    ensures value { IfOk result (λ v. Builds false 3 v (description_tree locale.now action.now)) }
{
    let annotations = pairs(alloc, action.annotations.as_slice())?;
    let mut members = told_texts(alloc, locale, action)?;
    add_implicit(&mut members, action.any)?;
    add_implicit(&mut members, action.inactive)?;
    add_implicit(&mut members, action.active)?;
    add(&mut members, annotations)?;
    Ok(structure(members))
}

/// The descriptions of actions, in their order.
fn description_items(
    alloc: Global,
    locale: &Text,
    actions: &[Action],
) -> Result<ValueList, NoMemory>
    ensures items { IfOk result (λ list. Items 3 (codes "(ssssssuuua{ss})") list (map (description_tree locale.now) actions.now)) }
{
    let mut items = ValueList::new(alloc);
    for action in actions {
        let item = description(alloc, locale, action)?;
        items.try_push(item)?;
    }
    Ok(items)
}

/// The load with this number; loads are counted from 1.
fn loaded_as(loads: &[Loaded], load: u32) -> Option<&Loaded>
    ensures load { option_copied result ≡ loaded_as loads.now load }
{
    if load == 0 {
        return None;
    }
    loads.get(load as usize - 1)
}

/// The descriptions of a load's actions; a number of no load has none.
pub fn listed(
    alloc: Global,
    loads: &[Loaded],
    load: u32,
    locale: &Text,
) -> Result<ValueList, NoMemory>
    ensures items { IfOk result (λ list. Items 3 (codes "(ssssssuuua{ss})") list (map (description_tree locale.now) (actions_of loads.now load))) }
{
    match loaded_as(loads, load) {
        Some(loaded) => description_items(alloc, locale, loaded.policy.actions.as_slice()),
        None => Ok(ValueList::new(alloc)),
    }
}
