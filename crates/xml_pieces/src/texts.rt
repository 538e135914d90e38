// The values of attributes and the texts of elements.
ghost use Rattle.std.specs.Prelude.{◌≡◌, [], ◌∷◌, ◌++◌, Ok, length, drop};
ghost use Rattle.xml_pieces.specs.Reading.{Gives, steps};
ghost use Rattle.xml_pieces.specs.Texts.{without_lf, with_plain, as_text, value_step, quoted_value, value, text_markup, text_step, whole_text, text};
ghost use Rattle.xml_pieces.specs.Views.{text_on, tag_of};

use crate::attributes::StartTag;
use crate::bytes::{behind, name};
use crate::fault::{Stop, XmlFaultKind, cut_off, fault_at, malformed};
use crate::markup::{declaration, end_tag};
use crate::references::reference;
use pk_types::{Text, TextFault};
use std::alloc::Global;

/// What a step gives: the bytes that are left, or a text that is whole and what follows it.
#[derive(Drop)]
pub enum TextStep<'a> {
    On(&'a [u8]),
    Done(Text, &'a [u8]),
}

/// The text of these bytes.
#[tactic(auto, unfolding(crate::specs::Texts::as_text))]
fn as_text(alloc: Global, place: &[u8], bytes: &[u8]) -> Result<Text, Stop>
    ensures exact { Gives (λ x. x) result (as_text place.now bytes.now) }
{
    match Text::try_from_bytes(alloc, bytes) {
        Ok(text) => Ok(text),
        Err(TextFault::TooLong { .. }) => Err(fault_at(XmlFaultKind::TooLong, place)),
        Err(TextFault::BadByte { .. }) => Err(fault_at(XmlFaultKind::NotUtf8, place)),
        Err(TextFault::NoMemory) => Err(Stop::Memory),
    }
}

fn without_lf(bytes: &[u8]) -> &[u8]
    ensures rest { result.now ≡ without_lf bytes.now }
{
    match bytes.split_first() {
        Some((b'\n', behind)) => behind,
        _ => bytes,
    }
}

/// Puts the byte at the end of the text, where CR and CR LF are LF.
fn plain<'a>(byte: u8, behind: &'a [u8], text: &mut Vec<u8>) -> Result<&'a [u8], Stop>
    ensures exact { Gives (λ x. (text.new.items, x.now)) result (Ok (with_plain text.old.items byte behind.now)) }
{
    if byte == b'\r' {
        text.push(b'\n')?;
        return Ok(without_lf(behind));
    }
    text.push(byte)?;
    Ok(behind)
}

#[tactic(auto, unfolding(crate::specs::Texts::value_step))]
fn value_step<'a>(
    alloc: Global,
    place: &[u8],
    quote: u8,
    so_far: &mut Vec<u8>,
    rest: &'a [u8],
) -> Result<TextStep<'a>, Stop>
    ensures exact { Gives (text_on so_far.new.items) result (value_step place.now quote (so_far.old.items, rest.now)) }
{
    let Some((first, after)) = rest.split_first() else {
        return Err(cut_off());
    };
    if *first == quote {
        let text = as_text(alloc, place, so_far.as_slice())?;
        return Ok(TextStep::Done(text, after));
    }
    if *first == b'<' {
        return Err(malformed(rest));
    }
    if *first == b'&' {
        let rest = reference(rest, so_far)?;
        return Ok(TextStep::On(rest));
    }
    let rest = plain(*first, after, so_far)?;
    Ok(TextStep::On(rest))
}

/// A value behind its first quote.
#[tactic(auto, using(crate::proofs::Loops::steps_rules), unfolding(crate::specs::Texts::quoted_value))]
fn quoted_value<'a>(
    alloc: Global,
    place: &[u8],
    quote: u8,
    bytes: &'a [u8],
) -> Result<(Text, &'a [u8]), Stop>
    ensures exact { Gives (λ (text, rest). (text, rest.now)) result (quoted_value place.now quote bytes.now) }
{
    let mut so_far = Vec::new(alloc);
    let mut rest = bytes;
    for _i in 0..bytes.len() {
        match value_step(alloc, place, quote, &mut so_far, rest)? {
            TextStep::On(behind) => rest = behind,
            TextStep::Done(text, behind) => return Ok((text, behind)),
        }
    }
    Err(cut_off())
}

/// The value behind an attribute's `=`.
#[tactic(auto, unfolding(crate::specs::Texts::value))]
pub fn value<'a>(alloc: Global, place: &[u8], bytes: &'a [u8]) -> Result<(Text, &'a [u8]), Stop>
    ensures exact { Gives (λ (text, rest). (text, rest.now)) result (value place.now bytes.now) }
{
    let Some((quote, after)) = bytes.split_first() else {
        return Err(cut_off());
    };
    if *quote != b'"' && *quote != b'\'' {
        return Err(malformed(place));
    }
    quoted_value(alloc, place, *quote, after)
}

/// At `<` in a text.
fn text_markup<'a>(
    alloc: Global,
    wanted: &[u8],
    place: &[u8],
    so_far: &[u8],
    here: &'a [u8],
) -> Result<TextStep<'a>, Stop>
    ensures exact { Gives (text_on so_far.now) result (text_markup wanted.now place.now so_far.now here.now (drop 1 here.now)) }
{
    let after = behind(1, here);
    let Some((second, _)) = after.split_first() else {
        return Err(cut_off());
    };
    if *second == b'!' {
        let rest = declaration(here)?;
        return Ok(TextStep::On(rest));
    }
    if *second == b'/' {
        let rest = end_tag(wanted, here)?;
        let text = as_text(alloc, place, so_far)?;
        return Ok(TextStep::Done(text, rest));
    }
    if *second == b'?' {
        return Err(malformed(here));
    }
    name(here, after)?;
    Err(fault_at(XmlFaultKind::Element, here))
}

#[tactic(auto, unfolding(crate::specs::Texts::text_step))]
fn text_step<'a>(
    alloc: Global,
    wanted: &[u8],
    place: &[u8],
    so_far: &mut Vec<u8>,
    rest: &'a [u8],
) -> Result<TextStep<'a>, Stop>
    ensures exact { Gives (text_on so_far.new.items) result (text_step wanted.now place.now (so_far.old.items, rest.now)) }
{
    let Some((first, after)) = rest.split_first() else {
        return Err(cut_off());
    };
    if *first == b'&' {
        let rest = reference(rest, so_far)?;
        return Ok(TextStep::On(rest));
    }
    if *first == b'<' {
        return text_markup(alloc, wanted, place, so_far.as_slice(), rest);
    }
    let rest = plain(*first, after, so_far)?;
    Ok(TextStep::On(rest))
}

/// The text up to the end tag of that name.
#[tactic(auto, using(crate::proofs::Loops::steps_rules), unfolding(crate::specs::Texts::whole_text))]
fn whole_text<'a>(
    alloc: Global,
    wanted: &[u8],
    place: &[u8],
    bytes: &'a [u8],
) -> Result<(Text, &'a [u8]), Stop>
    ensures exact { Gives (λ (text, rest). (text, rest.now)) result (whole_text wanted.now place.now bytes.now) }
{
    let mut so_far = Vec::new(alloc);
    let mut rest = bytes;
    for _i in 0..bytes.len() {
        match text_step(alloc, wanted, place, &mut so_far, rest)? {
            TextStep::On(behind) => rest = behind,
            TextStep::Done(text, behind) => return Ok((text, behind)),
        }
    }
    Err(cut_off())
}

/// The text of an element behind its start tag, and what follows its end tag.
#[tactic(auto, unfolding(crate::specs::Texts::text))]
pub fn text<'a>(
    alloc: Global,
    wanted: &[u8],
    place: &[u8],
    tag: &StartTag<'a>,
) -> Result<(Text, &'a [u8]), Stop>
    ensures exact { Gives (λ (text, rest). (text, rest.now)) result (text wanted.now place.now (tag_of tag.now)) }
{
    if tag.is_empty {
        return Ok((Text::new(alloc), tag.rest));
    }
    whole_text(alloc, wanted, place, tag.rest)
}
