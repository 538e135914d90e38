// Comments, processing instructions, DOCTYPE, end tags.
ghost use Rattle.std.specs.Prelude.{◌≡◌, length};
ghost use Rattle.xml_pieces.specs.Reading.{Gives, steps};
ghost use Rattle.xml_pieces.specs.Markup.{comment, declaration, end_tag, ends_target, is_xml, xml_declaration, instruction, quoted, doctype_step, doctype, prolog_declaration, prolog_step, prolog};
ghost use Rattle.xml_pieces.specs.Views.{walked, prolog_on};

use crate::bytes::{
    begins, behind, behind_byte, behind_pair, behind_spaces, is_cut_word, is_space, name,
};
use crate::fault::{Stop, XmlFaultKind, cut_off, fault_at, malformed};
use crate::walk::Walk;

/// What follows the comment at the front, in which no `--` stands.
#[tactic(auto, unfolding(crate::specs::Markup::comment))]
fn comment(here: &[u8]) -> Result<&[u8], Stop>
    ensures exact { Gives (λ x. x.now) result (comment here.now) }
{
    let rest = behind_pair(b'-', b'-', behind(4, here))?;
    behind_byte(b'>', here, rest)
}

/// What follows `<!` of anything but DOCTYPE: a comment.
#[tactic(auto, unfolding(crate::specs::Markup::declaration))]
pub fn declaration(here: &[u8]) -> Result<&[u8], Stop>
    ensures exact { Gives (λ x. x.now) result (declaration here.now) }
{
    if begins(b"<!--", here) {
        comment(here)
    } else if begins(b"<![CDATA[", here) {
        Err(fault_at(XmlFaultKind::Cdata, here))
    } else if is_cut_word(b"<!--", here) || is_cut_word(b"<![CDATA[", here) {
        Err(cut_off())
    } else {
        Err(malformed(here))
    }
}

/// What follows the end tag at the front, of the element of that name.
#[tactic(auto, unfolding(crate::specs::Markup::end_tag))]
pub fn end_tag<'a>(wanted: &[u8], here: &'a [u8]) -> Result<&'a [u8], Stop>
    ensures exact { Gives (λ x. x.now) result (end_tag wanted.now here.now) }
{
    let (found, rest) = name(here, behind(2, here))?;
    if found != wanted {
        return Err(fault_at(XmlFaultKind::Mismatch, here));
    }
    let end = behind_spaces(rest);
    behind_byte(b'>', end, end)
}

fn ends_target(bytes: &[u8]) -> bool
    ensures ends { result ≡ ends_target bytes.now }
{
    match bytes.split_first() {
        Some((b, _)) => is_space(*b) || *b == b'?',
        None => false,
    }
}

#[tactic(auto, unfolding(crate::specs::Markup::is_xml))]
fn is_xml(here: &[u8]) -> bool
    ensures front { result ≡ is_xml here.now }
{
    begins(b"<?xml", here) && ends_target(behind(5, here))
}

/// What follows the XML declaration, if it stands at the front.
#[tactic(auto, unfolding(crate::specs::Markup::xml_declaration))]
pub fn xml_declaration(bytes: &[u8]) -> Result<&[u8], Stop>
    ensures exact { Gives (λ x. x.now) result (xml_declaration bytes.now) }
{
    if is_xml(bytes) {
        behind_pair(b'?', b'>', behind(2, bytes))
    } else {
        Ok(bytes)
    }
}

/// What follows the processing instruction at the front.
#[tactic(auto, unfolding(crate::specs::Markup::instruction))]
fn instruction(here: &[u8]) -> Result<&[u8], Stop>
    ensures exact { Gives (λ x. x.now) result (instruction here.now) }
{
    if is_xml(here) {
        return Err(malformed(here));
    }
    behind_pair(b'?', b'>', behind(2, here))
}

/// What follows the quoted string in a DOCTYPE.
fn quoted<'a>(quote: u8, here: &[u8], bytes: &'a [u8]) -> Result<&'a [u8], Stop>
    ensures exact { Gives (λ x. x.now) result (quoted quote here.now bytes.now) }
{
    let mut rest = bytes;
    while let Some((b, behind)) = rest.split_first() {
        if *b == quote {
            return Ok(behind);
        }
        if *b == b'[' {
            return Err(malformed(here));
        }
        rest = behind;
    }
    Err(cut_off())
}

#[tactic(auto, unfolding(crate::specs::Markup::doctype_step))]
fn doctype_step<'a>(here: &[u8], rest: &'a [u8]) -> Result<Walk<'a>, Stop>
    ensures exact { Gives walked result (doctype_step here.now rest.now) }
{
    let Some((b, behind)) = rest.split_first() else {
        return Err(cut_off());
    };
    if *b == b'>' {
        return Ok(Walk::Done(behind));
    }
    if *b == b'[' {
        return Err(malformed(here));
    }
    if *b == b'"' || *b == b'\'' {
        let behind = quoted(*b, here, behind)?;
        return Ok(Walk::On(behind));
    }
    Ok(Walk::On(behind))
}

/// What follows the DOCTYPE at the front.
#[tactic(auto, using(crate::proofs::Loops::steps_rules), unfolding(crate::specs::Markup::doctype))]
fn doctype(here: &[u8]) -> Result<&[u8], Stop>
    ensures exact { Gives (λ x. x.now) result (doctype here.now) }
{
    let mut rest = behind(9, here);
    for _i in 0..here.len() {
        match doctype_step(here, rest)? {
            Walk::On(behind) => rest = behind,
            Walk::Done(behind) => return Ok(behind),
        }
    }
    Err(cut_off())
}

/// At `<!` in the prolog, where a DOCTYPE may stand or not: whether one may still come, and the
/// rest.
#[tactic(auto, unfolding(crate::specs::Markup::prolog_declaration))]
fn prolog_declaration(may: bool, here: &[u8]) -> Result<(bool, &[u8]), Stop>
    ensures exact { Gives (λ (may_still, rest). (may_still, rest.now)) result (prolog_declaration may here.now) }
{
    if may && begins(b"<!DOCTYPE", here) {
        let rest = doctype(here)?;
        return Ok((false, rest));
    }
    if may && is_cut_word(b"<!DOCTYPE", here) {
        return Err(cut_off());
    }
    let rest = declaration(here)?;
    Ok((may, rest))
}

/// What a step in the prolog gives.
#[derive(Clone, Copy)]
enum PrologStep<'a> {
    On(bool, &'a [u8]),
    Done(&'a [u8]),
}

#[tactic(auto, unfolding(crate::specs::Markup::prolog_step))]
fn prolog_step(may: bool, bytes: &[u8]) -> Result<PrologStep<'_>, Stop>
    ensures exact { Gives prolog_on result (prolog_step (may, bytes.now)) }
{
    let here = behind_spaces(bytes);
    let Some((first, after)) = here.split_first() else {
        return Ok(PrologStep::Done(here));
    };
    if *first != b'<' {
        return Err(malformed(here));
    }
    let Some((second, _)) = after.split_first() else {
        return Ok(PrologStep::Done(here));
    };
    if *second == b'!' {
        let (may, rest) = prolog_declaration(may, here)?;
        return Ok(PrologStep::On(may, rest));
    }
    if *second == b'?' {
        let rest = instruction(here)?;
        return Ok(PrologStep::On(may, rest));
    }
    Ok(PrologStep::Done(here))
}

/// What follows white space, comments, processing instructions, and a DOCTYPE where it may come.
#[tactic(auto, using(crate::proofs::Loops::steps_rules), unfolding(crate::specs::Markup::prolog))]
pub fn prolog(may: bool, bytes: &[u8]) -> Result<&[u8], Stop>
    ensures exact { Gives (λ x. x.now) result (prolog may bytes.now) }
{
    let mut may = may;
    let mut rest = bytes;
    for _i in 0..bytes.len() + 1 {
        match prolog_step(may, rest)? {
            PrologStep::On(may_still, behind) => {
                may = may_still;
                rest = behind;
            }
            PrologStep::Done(here) => return Ok(here),
        }
    }
    Err(cut_off())
}
