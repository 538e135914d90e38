// The actions of a file, once all of it is read.
ghost use Rattle.std.specs.Prelude.{◌≡◌, IfOk};
ghost use Rattle.action_drafts.specs.Defaults.{no_defaults};
ghost use Rattle.action_drafts.specs.Finished.{finished, all_finished, own_or, default_or_no, defaults_or_none, by_language};

use crate::draft::{ActionDraft, Defaults, FileDraft, Origin};
use authority_model::{Action, ActionList, Localized, LocalizedList};
use pk_types::{Implicit, NoMemory, PairList, Text};
use std::alloc::Global;

/// The texts, each with its language.
fn by_language(alloc: Global, texts: PairList) -> Result<LocalizedList, NoMemory>
    ensures texts { IfOk result (λ list. list ≡ by_language texts) }
{
    let mut list = LocalizedList::new(alloc);
    for pair in texts.into_vec() {
        list.try_push(Localized {
            lang: pair.key,
            text: pair.value,
        })?;
    }
    Ok(list)
}

/// The action's own text, or else a copy of the file's.
fn own_or(alloc: Global, own: Option<Text>, file: &Option<Text>) -> Result<Text, NoMemory>
    ensures own { IfOk result (λ t. t ≡ own_or own file.now) }
{
    match own {
        Some(text) => Ok(text),
        None => match file {
            Some(text) => text.try_copy(),
            None => Ok(Text::new(alloc)),
        },
    }
}

fn or_no(value: Option<Implicit>) -> Implicit
    ensures value { result ≡ default_or_no value }
{
    match value {
        Some(value) => value,
        None => Implicit::No,
    }
}

fn defaults_or_none(defaults: Option<Defaults>) -> Defaults
    ensures value { result ≡ defaults_or_none defaults }
{
    match defaults {
        Some(defaults) => defaults,
        None => Defaults::none(),
    }
}

/// The action, whose own vendor, URL and icon replace the file's.
fn finished(alloc: Global, origin: &Origin, draft: ActionDraft) -> Result<Action, NoMemory>
    ensures action { IfOk result (λ a. a ≡ finished origin.now draft) }
{
    let defaults = defaults_or_none(draft.defaults);
    let own = draft.origin;
    let vendor = own_or(alloc, own.vendor, &origin.vendor)?;
    let vendor_url = own_or(alloc, own.vendor_url, &origin.vendor_url)?;
    let icon = own_or(alloc, own.icon, &origin.icon)?;
    let descriptions = by_language(alloc, draft.descriptions)?;
    let messages = by_language(alloc, draft.messages)?;
    Ok(Action {
        id: draft.id,
        descriptions,
        messages,
        vendor,
        vendor_url,
        icon,
        any: or_no(defaults.any),
        inactive: or_no(defaults.inactive),
        active: or_no(defaults.active),
        annotations: draft.annotations,
    })
}

/// All actions of the file, in its order.
pub fn all_finished(alloc: Global, file: FileDraft) -> Result<ActionList, NoMemory>
    ensures actions { IfOk result (λ actions. actions ≡ all_finished file) }
{
    let origin = file.origin;
    let mut actions = ActionList::new(alloc);
    for draft in file.actions.into_vec() {
        let action = finished(alloc, &origin, draft)?;
        actions.try_push(action)?;
    }
    Ok(actions)
}
