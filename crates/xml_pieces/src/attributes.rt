// Attributes and start tags.
ghost use Rattle.std.specs.Prelude.{◌≡◌, [], ◌∷◌, ◌++◌, false, Ok, OnOk, length};
ghost use Rattle.std.specs.Option.{option_copied};
ghost use Rattle.xml_pieces.specs.Reading.{Gives, steps};
ghost use Rattle.xml_pieces.specs.Texts.{attribute, value_of, has, begins_spaced, bad_id, tag, tag_step};
ghost use Rattle.xml_pieces.specs.Views.{pairs, attribute_of, tag_of, tag_on};

use crate::bytes::{behind_byte, behind_spaces, is_space, name};
use crate::fault::{Stop, XmlFaultKind, cut_off, fault_at, malformed};
use crate::texts::value;
use indexmap::IndexMap;
use pk_types::{ActionId, IdFault, NoMemory, Text};
use std::alloc::Global;

/// An attribute of a start tag.
#[derive(Drop)]
struct Attribute<'a> {
    name: &'a [u8],
    value: Text,
}

/// The attributes of a start tag, by their names.
pub type AttributeMap<'a> = IndexMap<&'a [u8], Text>;

/// A whole start tag, and what follows it.
#[derive(Drop)]
pub struct StartTag<'a> {
    /// The attributes, in the order of the tag.
    pub attributes: AttributeMap<'a>,
    /// Whether it is the whole element, as `<x/>`.
    pub is_empty: bool,
    /// The bytes behind the tag.
    pub rest: &'a [u8],
}

/// What a step in a start tag gives.
enum TagStep<'a> {
    On(&'a [u8]),
    Done(bool, &'a [u8]),
}

impl<'a> StartTag<'a> {
    /// The value of the attribute of that name, and `None` exactly where there is none.
    pub fn value(&self, name: &[u8]) -> Option<&Text>
        ensures value { option_copied result ≡ value_of name.now (pairs self.now.attributes) }
    {
        self.attributes.get(name)
    }
}

#[tactic(auto, unfolding(crate::specs::Texts::attribute))]
fn attribute_at<'a>(alloc: Global, here: &'a [u8]) -> Result<(Attribute<'a>, &'a [u8]), Stop>
    ensures exact { Gives attribute_of result (attribute here.now) }
{
    let (name, rest) = name(here, here)?;
    let behind = behind_byte(b'=', here, behind_spaces(rest))?;
    let (value, rest) = value(alloc, here, behind_spaces(behind))?;
    Ok((Attribute { name, value }, rest))
}

/// Whether an attribute has that name.
fn has(name: &[u8], attributes: &AttributeMap<'_>) -> bool
    ensures has { result ≡ has name.now (pairs attributes.now) }
{
    attributes.contains_key(name)
}

/// Puts an attribute of a new name at the end.
fn push<'a>(attributes: &mut AttributeMap<'a>, name: &'a [u8], value: Text) -> Result<(), NoMemory>
    requires new { has name.now (pairs attributes.old) ≡ false }
    ensures ok { OnOk result
        (pairs attributes.new ≡ pairs attributes.old ++ (record { key = name.now; value = value }) ∷ []) }
{
    attributes.insert(name, value)?;
    Ok(())
}

fn begins_spaced(bytes: &[u8]) -> bool
    ensures spaced { result ≡ begins_spaced bytes.now }
{
    match bytes.split_first() {
        Some((b, _)) => is_space(*b),
        None => false,
    }
}

/// Whether the attribute is an action's id and no action id.
fn is_bad_id(is_action: bool, attribute: &Attribute<'_>) -> Result<bool, Stop>
    ensures exact { Gives (λ x. x) result (Ok (bad_id is_action attribute.now.name.now attribute.now.value)) }
{
    if !is_action || attribute.name != b"id".as_slice() {
        return Ok(false);
    }
    match ActionId::read(&attribute.value) {
        Ok(_) => Ok(false),
        Err(IdFault::NoMemory) => Err(Stop::Memory),
        Err(_) => Ok(true),
    }
}

#[tactic(auto, unfolding(crate::specs::Texts::tag_step))]
fn tag_step<'a>(
    alloc: Global,
    is_action: bool,
    attributes: &mut AttributeMap<'a>,
    rest: &'a [u8],
) -> Result<TagStep<'a>, Stop>
    ensures exact { Gives (tag_on attributes.new) result (tag_step is_action (pairs attributes.old, rest.now)) }
{
    let here = behind_spaces(rest);
    let Some((first, after)) = here.split_first() else {
        return Err(cut_off());
    };
    if *first == b'>' {
        return Ok(TagStep::Done(false, after));
    }
    if *first == b'/' {
        let behind = behind_byte(b'>', after, after)?;
        return Ok(TagStep::Done(true, behind));
    }
    if !begins_spaced(rest) {
        return Err(malformed(here));
    }
    let (attribute, behind) = attribute_at(alloc, here)?;
    if has(attribute.name, attributes) {
        return Err(malformed(here));
    }
    if is_bad_id(is_action, &attribute)? {
        return Err(fault_at(XmlFaultKind::ActionId, here));
    }
    push(attributes, attribute.name, attribute.value)?;
    Ok(TagStep::On(behind))
}

/// The rest of a start tag behind its name.
#[tactic(auto, using(crate::proofs::Loops::steps_rules), unfolding(crate::specs::Texts::tag))]
pub fn start_tag<'a>(alloc: Global, is_action: bool, bytes: &'a [u8]) -> Result<StartTag<'a>, Stop>
    ensures exact { Gives tag_of result (tag is_action bytes.now) }
{
    let mut attributes = AttributeMap::new(alloc);
    let mut rest = bytes;
    for _i in 0..bytes.len() {
        match tag_step(alloc, is_action, &mut attributes, rest)? {
            TagStep::On(behind) => rest = behind,
            TagStep::Done(is_empty, rest) => {
                return Ok(StartTag {
                    attributes,
                    is_empty,
                    rest,
                });
            }
        }
    }
    Err(cut_off())
}
