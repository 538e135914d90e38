// The element `action` and its children.
ghost use Rattle.std.specs.Prelude.{◌≡◌, [], Ok, length, unwrap_or};
ghost use Rattle.std.specs.Option.{option_copied};
ghost use Rattle.xml_pieces.specs.Reading.{Gives, steps, On};
ghost use Rattle.xml_pieces.specs.Views.{tag_of, walk_on};
ghost use Rattle.action_drafts.specs.Origins.{origin_part};
ghost use Rattle.action_drafts.specs.Elements.{needed};
ghost use Rattle.action_drafts.specs.Actions.{localized, annotation, action_child, action_step, action_elements, action_id, new_action, in_tag, action};

use crate::defaults::defaults_element;
use crate::draft::{ActionDraft, Element, OpenAction, Origin};
use crate::origin::{origin_element, origin_part};
use pk_types::{ActionId, IdFault, Text};
use std::alloc::Global;
use xml_pieces::{
    KeyedTexts, Next, StartTag, Stop, Walk, XmlFaultKind, cut_off, fault_at, next_child, start_tag,
    text,
};

/// A copy of the value of an attribute that is optional.
fn copied(alloc: Global, value: Option<&Text>) -> Result<Text, Stop>
    ensures exact { Gives (λ t. t) result (Ok (unwrap_or (option_copied value.entry) [])) }
{
    match value {
        None => Ok(Text::new(alloc)),
        Some(text) => {
            let text = text.try_copy()?;
            Ok(text)
        }
    }
}

/// A copy of the value of an attribute that is needed.
fn needed(place: &[u8], value: Option<&Text>) -> Result<Text, Stop>
    ensures exact { Gives (λ t. t) result (needed place.now (option_copied value.entry)) }
{
    match value {
        None => Err(fault_at(XmlFaultKind::Missing, place)),
        Some(text) => {
            let text = text.try_copy()?;
            Ok(text)
        }
    }
}

/// A description or a message.
#[tactic(auto, unfolding(crate::specs::Actions::localized))]
fn localized<'a>(
    alloc: Global,
    element: Element<'a>,
    texts: &mut KeyedTexts,
) -> Result<&'a [u8], Stop>
    ensures exact { Gives (λ x. (texts.new, x.now)) result (localized element.entry.name.now element.entry.place.now texts.old element.entry.rest.now) }
{
    let tag = start_tag(alloc, false, element.rest)?;
    let lang = copied(alloc, tag.value(b"xml:lang"))?;
    if texts.has(lang.bytes()) {
        return Err(fault_at(XmlFaultKind::Repeated, element.place));
    }
    let (text, rest) = text(alloc, element.name, element.place, &tag)?;
    texts.set(alloc, lang, text)?;
    Ok(rest)
}

/// An annotation.
#[tactic(auto, unfolding(crate::specs::Actions::annotation))]
fn annotation<'a>(
    alloc: Global,
    element: Element<'a>,
    pairs: &mut KeyedTexts,
) -> Result<&'a [u8], Stop>
    ensures exact { Gives (λ x. (pairs.new, x.now)) result (annotation element.entry.place.now pairs.old element.entry.rest.now) }
{
    let tag = start_tag(alloc, false, element.rest)?;
    let key = needed(element.place, tag.value(b"key"))?;
    let (text, rest) = text(alloc, b"annotate", element.place, &tag)?;
    pairs.set(alloc, key, text)?;
    Ok(rest)
}

/// An element in an action.
fn action_child<'a>(
    alloc: Global,
    action: &mut OpenAction,
    element: Element<'a>,
) -> Result<&'a [u8], Stop>
    ensures exact { Gives (λ x. On (action.new, x.now)) result (action_child action.old element.entry.name.now element.entry.place.now element.entry.rest.now (origin_part element.entry.name.now)) }
{
    if let Some(which) = origin_part(element.name) {
        return origin_element(alloc, which, element, &mut action.origin);
    }
    if element.name == b"description".as_slice() {
        return localized(alloc, element, &mut action.descriptions);
    }
    if element.name == b"message".as_slice() {
        return localized(alloc, element, &mut action.messages);
    }
    if element.name == b"defaults".as_slice() {
        let (defaults, rest) = defaults_element(alloc, element, &action.defaults)?;
        action.defaults = Some(defaults);
        return Ok(rest);
    }
    if element.name == b"annotate".as_slice() {
        return annotation(alloc, element, &mut action.annotations);
    }
    Err(fault_at(XmlFaultKind::Element, element.place))
}

#[tactic(auto, unfolding(crate::specs::Actions::action_step))]
fn action_step<'a>(alloc: Global, action: &mut OpenAction, rest: &'a [u8]) -> Result<Walk<'a>, Stop>
    ensures exact { Gives (walk_on action.new) result (action_step (action.old, rest.now)) }
{
    match next_child(b"action", rest)? {
        Next::End(rest) => Ok(Walk::Done(rest)),
        Next::Child { name, place, rest } => {
            let behind = action_child(alloc, action, Element { name, place, rest })?;
            Ok(Walk::On(behind))
        }
    }
}

fn action_id(place: &[u8], text: &Text) -> Result<ActionId, Stop>
    ensures exact { Gives (λ id. id) result (action_id place.now text.now) }
{
    match ActionId::read(text) {
        Ok(id) => Ok(id),
        Err(IdFault::NoMemory) => Err(Stop::Memory),
        Err(IdFault::Empty) => Err(fault_at(XmlFaultKind::ActionId, place)),
        Err(IdFault::TooLong { .. }) => Err(fault_at(XmlFaultKind::ActionId, place)),
        Err(IdFault::BadChar { .. }) => Err(fault_at(XmlFaultKind::ActionId, place)),
    }
}

fn new_action(alloc: Global, id: ActionId) -> OpenAction
    ensures new { result ≡ new_action id }
{
    OpenAction {
        id,
        descriptions: KeyedTexts::new(alloc),
        messages: KeyedTexts::new(alloc),
        origin: Origin::none(),
        defaults: None,
        annotations: KeyedTexts::new(alloc),
    }
}

#[tactic(auto, using(xml_pieces::proofs::Loops::steps_rules), unfolding(crate::specs::Actions::action_elements))]
fn action_elements<'a>(
    alloc: Global,
    draft: OpenAction,
    bytes: &'a [u8],
) -> Result<(OpenAction, &'a [u8]), Stop>
    ensures exact { Gives (λ (action, rest). (action, rest.now)) result (action_elements draft bytes.now) }
{
    let mut action = draft;
    let mut rest = bytes;
    for _i in 0..bytes.len() {
        match action_step(alloc, &mut action, rest)? {
            Walk::On(behind) => rest = behind,
            Walk::Done(behind) => return Ok((action, behind)),
        }
    }
    Err(cut_off())
}

#[tactic(auto, unfolding(crate::specs::Actions::in_tag))]
fn in_tag<'a>(
    alloc: Global,
    place: &[u8],
    tag: &StartTag<'a>,
) -> Result<(ActionDraft, &'a [u8]), Stop>
    ensures exact { Gives (λ (action, rest). (action, rest.now)) result (in_tag place.now (tag_of tag.now)) }
{
    let value = needed(place, tag.value(b"id"))?;
    let id = action_id(place, &value)?;
    let action = new_action(alloc, id);
    if tag.is_empty {
        return Ok((action.closed(), tag.rest));
    }
    let (action, rest) = action_elements(alloc, action, tag.rest)?;
    Ok((action.closed(), rest))
}

/// An action behind its name.
#[tactic(auto, unfolding(crate::specs::Actions::action))]
pub fn action<'a>(alloc: Global, element: Element<'a>) -> Result<(ActionDraft, &'a [u8]), Stop>
    ensures exact { Gives (λ (action, rest). (action, rest.now)) result (action element.entry.place.now element.entry.rest.now) }
{
    let tag = start_tag(alloc, true, element.rest)?;
    in_tag(alloc, element.place, &tag)
}
