// Dictionaries with values in variants, of which only some keys are wanted.
ghost use Rattle.std.specs.Prelude.{◌≡◌};
ghost use Rattle.std.specs.Option.{option_map};
ghost use Rattle.dbus_values.specs.Parts.{piece};
ghost use Rattle.authority_calls.specs.Arguments.{Gives, GivesAs, TakesAs};
ghost use Rattle.authority_calls.specs.Dictionaries.{keyed, open_in, entry, next_entry, one, two, found_with};

use crate::arguments::{behind, bytes, enter, part, variant};
use crate::fault::ArgumentFault;
use dbus_values::{MOST_PARTS, Part, Parts};

/// An entry of a dictionary: its key, and the first part of the value in its variant.
#[derive(Clone, Copy)]
pub struct Field<'a> {
    pub key: &'a [u8],
    pub value: Part<'a>,
}

/// How many containers are open behind the first part of the value of an entry.
fn open_in(value: Part) -> usize
    ensures exact { result ≡ open_in (piece value.entry) }
{
    match value {
        Part::Enter { .. } => 2,
        Part::Number { .. } | Part::Text { .. } | Part::Leave { .. } | Part::Variant { .. } => 1,
    }
}

/// An entry that has begun.
fn entry<'a>(parts: &mut Parts<'a>) -> Result<Field<'a>, ArgumentFault>
    ensures exact { TakesAs keyed entry parts.old parts.new result }
{
    let key = bytes(parts)?;
    variant(parts)?;
    let value = part(parts)?;
    behind(parts, open_in(value))?;
    Ok(Field { key, value })
}

/// The next entry of a dictionary, or nothing at its end.
fn next_entry<'a>(parts: &mut Parts<'a>) -> Result<Option<Field<'a>>, ArgumentFault>
    ensures exact { TakesAs (λ e. option_map keyed e) next_entry parts.old parts.new result }
{
    let first = part(parts)?;
    match first {
        Part::Enter { .. } => {
            let entry = entry(parts)?;
            Ok(Some(entry))
        }
        Part::Leave { .. } => Ok(None),
        Part::Number { .. } | Part::Text { .. } | Part::Variant { .. } => {
            Err(ArgumentFault::OutOfForm)
        }
    }
}

/// The value under a key with one more entry. A second entry with the key is out of form.
fn found_with<'a>(
    found: Option<Part<'a>>,
    key: &[u8],
    entry: Field<'a>,
) -> Result<Option<Part<'a>>, ArgumentFault>
    ensures exact { GivesAs (λ p. option_map piece p) result (found_with (option_map piece found.entry) key.now (keyed entry.entry)) }
{
    if entry.key == key {
        match found {
            None => Ok(Some(entry.value)),
            Some(_) => Err(ArgumentFault::OutOfForm),
        }
    } else {
        Ok(found)
    }
}

/// The value that was found.
fn chosen<'a>(found: Option<Part<'a>>) -> Result<Part<'a>, ArgumentFault>
    ensures exact { GivesAs piece result (option_map piece found.entry) }
{
    match found {
        Some(value) => Ok(value),
        None => Err(ArgumentFault::OutOfForm),
    }
}

/// The value under a key of a dictionary, where one entry has the key.
#[tactic(auto, using(crate::proofs::Many::one_rules))]
pub fn one<'a>(parts: &mut Parts<'a>, key: &[u8]) -> Result<Part<'a>, ArgumentFault>
    ensures exact { TakesAs piece (one key.now) parts.old parts.new result }
{
    enter(parts)?;
    let mut found: Option<Part<'a>> = None;
    for i in 0..MOST_PARTS {
        match next_entry(parts)? {
            None => {
                let value = chosen(found)?;
                return Ok(value);
            }
            Some(entry) => found = found_with(found, key, entry)?,
        }
    }
    Err(ArgumentFault::OutOfForm)
}

/// The values under two keys of a dictionary, where one entry has each key.
#[tactic(auto, using(crate::proofs::Many::two_rules))]
pub fn two<'a>(
    parts: &mut Parts<'a>,
    first: &[u8],
    second: &[u8],
) -> Result<(Part<'a>, Part<'a>), ArgumentFault>
    ensures exact { TakesAs (λ (value, other). (piece value, piece other)) (two first.now second.now) parts.old parts.new result }
{
    enter(parts)?;
    let mut first_found: Option<Part<'a>> = None;
    let mut second_found: Option<Part<'a>> = None;
    for i in 0..MOST_PARTS {
        match next_entry(parts)? {
            None => {
                let value = chosen(first_found)?;
                let other = chosen(second_found)?;
                return Ok((value, other));
            }
            Some(entry) => {
                first_found = found_with(first_found, first, entry)?;
                second_found = found_with(second_found, second, entry)?;
            }
        }
    }
    Err(ArgumentFault::OutOfForm)
}
