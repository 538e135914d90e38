// The elements of the root, and the whole file.
ghost use Rattle.std.specs.Prelude.{◌≡◌, length};
ghost use Rattle.xml_pieces.specs.Reading.{Gives, steps, On};
ghost use Rattle.xml_pieces.specs.Views.{tag_of, walk_on};
ghost use Rattle.action_drafts.specs.Origins.{origin_part};
ghost use Rattle.action_drafts.specs.Documents.{file_child, file_step, no_actions, file_elements, in_root, root, epilog, document};

use crate::action::action;
use crate::draft::{DraftList, Element, FileDraft, Origin};
use crate::origin::{origin_element, origin_part};
use std::alloc::Global;
use xml_pieces::{
    Next, StartTag, Stop, Walk, XmlFaultKind, behind, cut_off, fault_at, name, next_child, prolog,
    start_tag, xml_declaration,
};

/// An element in the root.
fn file_child<'a>(
    alloc: Global,
    file: &mut FileDraft,
    element: Element<'a>,
) -> Result<&'a [u8], Stop>
    ensures exact { Gives (λ x. On (file.new, x.now)) result (file_child file.old element.entry.name.now element.entry.place.now element.entry.rest.now (origin_part element.entry.name.now)) }
{
    if let Some(which) = origin_part(element.name) {
        return origin_element(alloc, which, element, &mut file.origin);
    }
    if element.name == b"action".as_slice() {
        let (action, rest) = action(alloc, element)?;
        file.actions.try_push(action)?;
        return Ok(rest);
    }
    Err(fault_at(XmlFaultKind::Element, element.place))
}

#[tactic(auto, unfolding(crate::specs::Documents::file_step))]
fn file_step<'a>(alloc: Global, file: &mut FileDraft, rest: &'a [u8]) -> Result<Walk<'a>, Stop>
    ensures exact { Gives (walk_on file.new) result (file_step (file.old, rest.now)) }
{
    match next_child(b"policyconfig", rest)? {
        Next::End(rest) => Ok(Walk::Done(rest)),
        Next::Child { name, place, rest } => {
            let behind = file_child(alloc, file, Element { name, place, rest })?;
            Ok(Walk::On(behind))
        }
    }
}

fn no_actions(alloc: Global) -> FileDraft
    ensures none { result ≡ no_actions }
{
    FileDraft {
        origin: Origin::none(),
        actions: DraftList::new(alloc),
    }
}

#[tactic(auto, using(xml_pieces::proofs::Loops::steps_rules), unfolding(crate::specs::Documents::file_elements))]
fn file_elements<'a>(alloc: Global, bytes: &'a [u8]) -> Result<(FileDraft, &'a [u8]), Stop>
    ensures exact { Gives (λ (file, rest). (file, rest.now)) result (file_elements bytes.now) }
{
    let mut file = no_actions(alloc);
    let mut rest = bytes;
    for _i in 0..bytes.len() {
        match file_step(alloc, &mut file, rest)? {
            Walk::On(behind) => rest = behind,
            Walk::Done(behind) => return Ok((file, behind)),
        }
    }
    Err(cut_off())
}

/// The elements of the root, behind its start tag.
#[tactic(auto, unfolding(crate::specs::Documents::in_root))]
fn in_root<'a>(alloc: Global, tag: &StartTag<'a>) -> Result<(FileDraft, &'a [u8]), Stop>
    ensures exact { Gives (λ (file, rest). (file, rest.now)) result (in_root (tag_of tag.now)) }
{
    if tag.is_empty {
        return Ok((no_actions(alloc), tag.rest));
    }
    file_elements(alloc, tag.rest)
}

/// The root element, from its `<`.
#[tactic(auto, unfolding(crate::specs::Documents::root))]
fn root<'a>(alloc: Global, here: &'a [u8]) -> Result<(FileDraft, &'a [u8]), Stop>
    ensures exact { Gives (λ (file, rest). (file, rest.now)) result (root here.now) }
{
    let (found, rest) = name(here, behind(1, here))?;
    if found != b"policyconfig".as_slice() {
        return Err(fault_at(XmlFaultKind::Element, here));
    }
    let tag = start_tag(alloc, false, rest)?;
    in_root(alloc, &tag)
}

/// Nothing but white space, comments and processing instructions stands behind the root.
#[tactic(auto, unfolding(crate::specs::Documents::epilog))]
fn epilog(bytes: &[u8]) -> Result<(), Stop>
    ensures exact { Gives (λ _. tt) result (epilog bytes.now) }
{
    let rest = prolog(false, bytes)?;
    if rest.is_empty() {
        return Ok(());
    }
    name(rest, behind(1, rest))?;
    Err(fault_at(XmlFaultKind::Element, rest))
}

/// The whole file, without its byte order mark.
#[tactic(auto, unfolding(crate::specs::Documents::document))]
pub fn document(alloc: Global, bytes: &[u8]) -> Result<FileDraft, Stop>
    ensures exact { Gives (λ x. x) result (document bytes.now) }
{
    let behind = xml_declaration(bytes)?;
    let here = prolog(true, behind)?;
    let (file, rest) = root(alloc, here)?;
    epilog(rest)?;
    Ok(file)
}
