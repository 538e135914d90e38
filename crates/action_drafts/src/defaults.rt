// The element `defaults` and its children.
ghost use Rattle.std.specs.Prelude.{◌≡◌, is_some, length};
ghost use Rattle.pk_types.specs.Values.{implicit_of_word};
ghost use Rattle.keyfile_text.specs.Bytes.{trim};
ghost use Rattle.xml_pieces.specs.Reading.{Gives, steps};
ghost use Rattle.xml_pieces.specs.Views.{tag_of, walk_on};
ghost use Rattle.action_drafts.specs.Defaults.{default_part, default_of, with_default, default_element, word_of, no_defaults, defaults_step, default_elements, defaults, defaults_element};

use crate::draft::{Defaults, Element};
use keyfile_text::trimmed;
use pk_types::{Category, Implicit};
use std::alloc::Global;
use xml_pieces::{
    Next, StartTag, Stop, Walk, XmlFaultKind, cut_off, fault_at, next_child, start_tag, text,
};

/// The category whose default has that name.
fn default_part(name: &[u8]) -> Option<Category>
    ensures part { result ≡ default_part name.now }
{
    if name == b"allow_any".as_slice() {
        Some(Category::Any)
    } else if name == b"allow_inactive".as_slice() {
        Some(Category::Inactive)
    } else if name == b"allow_active".as_slice() {
        Some(Category::Active)
    } else {
        None
    }
}

impl Defaults {
    fn has(self, which: Category) -> bool
        ensures has { result ≡ is_some (default_of which self) }
    {
        match which {
            Category::Any => self.any.is_some(),
            Category::Inactive => self.inactive.is_some(),
            Category::Active => self.active.is_some(),
        }
    }

    fn with(self, which: Category, value: Implicit) -> Defaults
        ensures with { result ≡ with_default which value self }
    {
        match which {
            Category::Any => Defaults {
                any: Some(value),
                inactive: self.inactive,
                active: self.active,
            },
            Category::Inactive => Defaults {
                any: self.any,
                inactive: Some(value),
                active: self.active,
            },
            Category::Active => Defaults {
                any: self.any,
                inactive: self.inactive,
                active: Some(value),
            },
        }
    }
}

/// The value of a default's text.
fn word(place: &[u8], text: &[u8]) -> Result<Implicit, Stop>
    ensures exact { Gives (λ x. x) result (word_of place.now (implicit_of_word (trim text.now))) }
{
    match Implicit::read(trimmed(text)) {
        Some(value) => Ok(value),
        None => Err(fault_at(XmlFaultKind::DefaultWord, place)),
    }
}

/// A default of one category, which may stand once.
#[tactic(auto, unfolding(crate::specs::Defaults::default_element))]
fn default_element<'a>(
    alloc: Global,
    which: Category,
    element: Element<'a>,
    defaults: Defaults,
) -> Result<(Defaults, &'a [u8]), Stop>
    ensures exact { Gives (λ (defaults, rest). (defaults, rest.now)) result (default_element which element.entry.name.now element.entry.place.now defaults element.entry.rest.now) }
{
    if defaults.has(which) {
        return Err(fault_at(XmlFaultKind::Repeated, element.place));
    }
    let tag = start_tag(alloc, false, element.rest)?;
    let (text, rest) = text(alloc, element.name, element.place, &tag)?;
    let value = word(element.place, text.bytes())?;
    Ok((defaults.with(which, value), rest))
}

#[tactic(auto, unfolding(crate::specs::Defaults::defaults_step))]
fn defaults_step<'a>(
    alloc: Global,
    defaults: &mut Defaults,
    rest: &'a [u8],
) -> Result<Walk<'a>, Stop>
    ensures exact { Gives (walk_on defaults.new) result (defaults_step (defaults.old, rest.now)) }
{
    match next_child(b"defaults", rest)? {
        Next::End(rest) => Ok(Walk::Done(rest)),
        Next::Child { name, place, rest } => {
            let Some(which) = default_part(name) else {
                return Err(fault_at(XmlFaultKind::Element, place));
            };
            let element = Element { name, place, rest };
            let (more, behind) = default_element(alloc, which, element, *defaults)?;
            *defaults = more;
            Ok(Walk::On(behind))
        }
    }
}

#[tactic(auto, using(xml_pieces::proofs::Loops::steps_rules), unfolding(crate::specs::Defaults::default_elements))]
fn default_elements<'a>(alloc: Global, bytes: &'a [u8]) -> Result<(Defaults, &'a [u8]), Stop>
    ensures exact { Gives (λ (defaults, rest). (defaults, rest.now)) result (default_elements bytes.now) }
{
    let mut defaults = Defaults::none();
    let mut rest = bytes;
    for _i in 0..bytes.len() {
        match defaults_step(alloc, &mut defaults, rest)? {
            Walk::On(behind) => rest = behind,
            Walk::Done(behind) => return Ok((defaults, behind)),
        }
    }
    Err(cut_off())
}

/// The defaults of an action, behind the start tag.
#[tactic(auto, unfolding(crate::specs::Defaults::defaults))]
fn inside<'a>(alloc: Global, tag: &StartTag<'a>) -> Result<(Defaults, &'a [u8]), Stop>
    ensures exact { Gives (λ (defaults, rest). (defaults, rest.now)) result (defaults (tag_of tag.now)) }
{
    if tag.is_empty {
        return Ok((Defaults::none(), tag.rest));
    }
    default_elements(alloc, tag.rest)
}

/// The defaults, which may stand once.
#[tactic(auto, unfolding(crate::specs::Defaults::defaults_element))]
pub fn defaults_element<'a>(
    alloc: Global,
    element: Element<'a>,
    old: &Option<Defaults>,
) -> Result<(Defaults, &'a [u8]), Stop>
    ensures exact { Gives (λ (defaults, rest). (defaults, rest.now)) result (defaults_element element.entry.place.now old.now element.entry.rest.now) }
{
    if old.is_some() {
        return Err(fault_at(XmlFaultKind::Repeated, element.place));
    }
    let tag = start_tag(alloc, false, element.rest)?;
    inside(alloc, &tag)
}
