// Lines, each put behind those that are ready.
ghost use Rattle.std.specs.Prelude.{◌≡◌, ◌++◌, OnOk, decimal};
ghost use Rattle.pk_types.specs.Values.{word_of_implicit};
ghost use Rattle.authority_model.specs.Reasons.{category_text, reason_text};
ghost use Rattle.authority_model.specs.Verdicts.{reason_of};
ghost use Rattle.pkexplain_tool.specs.Lines.{Line, case_text, line_of_rule, line_text};

use crate::case::Case;
use authority_model::RuleSource;
use itoa::Buffer;
use pk_types::{Category, Implicit, NoMemory, Text};

/// The word of a category.
fn category_word(category: Category) -> &'static [u8]
    ensures word { result.now ≡ category_text category }
{
    match category {
        Category::Any => b"any",
        Category::Inactive => b"inactive",
        Category::Active => b"active",
    }
}

/// The word of an implicit value.
fn implicit_word(value: Implicit) -> &'static [u8]
    ensures word { result.now ≡ word_of_implicit value }
{
    match value {
        Implicit::No => b"no",
        Implicit::AuthSelf => b"auth_self",
        Implicit::AuthAdmin => b"auth_admin",
        Implicit::AuthSelfKeep => b"auth_self_keep",
        Implicit::AuthAdminKeep => b"auth_admin_keep",
        Implicit::Yes => b"yes",
    }
}

/// Adds a number in decimal digits.
fn push_number(text: &mut Vec<u8>, number: u64) -> Result<(), NoMemory>
    ensures added { OnOk result (text.new.items ≡ text.old.items ++ decimal number) }
{
    let mut buffer = Buffer::new();
    text.extend_from_slice(buffer.format(number).as_bytes())?;
    Ok(())
}

/// Adds the words of a case.
fn push_case(
    text: &mut Vec<u8>,
    uid: u32,
    category: Category,
    action: &Text,
) -> Result<(), NoMemory>
    ensures added { OnOk result (text.new.items ≡ text.old.items ++ case_text (record { uid = uid; category = category; action = action.now })) }
{
    push_number(text, u64::from(uid))?;
    text.push(b' ')?;
    text.extend_from_slice(category_word(category))?;
    text.push(b' ')?;
    text.extend_from_slice(action.bytes())?;
    Ok(())
}

/// Adds what gave an implicit value.
fn push_source(text: &mut Vec<u8>, source: RuleSource) -> Result<(), NoMemory>
    ensures added { OnOk result (text.new.items ≡ text.old.items ++ reason_text (reason_of source)) }
{
    match source {
        RuleSource::Default(category) => {
            text.extend_from_slice(b"default:")?;
            text.extend_from_slice(category_word(category))?;
        }
        RuleSource::Entry(place) => {
            text.extend_from_slice(b"entry:")?;
            push_number(text, u64::from(place))?;
        }
    }
    Ok(())
}

/// Adds the line of a case of root.
pub fn push_root(
    text: &mut Vec<u8>,
    uid: u32,
    category: Category,
    action: &Text,
) -> Result<(), NoMemory>
    ensures added { OnOk result (text.new.items ≡ text.old.items
        ++ line_text (Line.Root (record { uid = uid; category = category; action = action.now }))) }
{
    push_case(text, uid, category, action)?;
    text.extend_from_slice(b" yes root\n")?;
    Ok(())
}

/// Adds the line of a case that has this implicit value by this source.
pub fn push_decided(
    text: &mut Vec<u8>,
    uid: u32,
    category: Category,
    action: &Text,
    value: Implicit,
    source: RuleSource,
) -> Result<(), NoMemory>
    ensures added { OnOk result (text.new.items ≡ text.old.items
        ++ line_text (Line.Decided (record { uid = uid; category = category; action = action.now }) value source)) }
{
    push_case(text, uid, category, action)?;
    text.push(b' ')?;
    text.extend_from_slice(implicit_word(value))?;
    text.push(b' ')?;
    push_source(text, source)?;
    text.push(b'\n')?;
    Ok(())
}

/// Adds the line of the rule at a place, by the first case that it decides.
pub fn push_rule(text: &mut Vec<u8>, place: usize, first: &Option<Case>) -> Result<(), NoMemory>
    ensures added { OnOk result (text.new.items ≡ text.old.items ++ line_text (line_of_rule place first.now)) }
{
    match first {
        None => {
            text.extend_from_slice(b"dead ")?;
            push_number(text, place as u64)?;
        }
        Some(case) => {
            text.extend_from_slice(b"live ")?;
            push_number(text, place as u64)?;
            text.push(b' ')?;
            push_case(text, case.uid, case.category, &case.action)?;
        }
    }
    text.push(b'\n')?;
    Ok(())
}
