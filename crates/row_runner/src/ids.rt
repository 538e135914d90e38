// Texts, action ids, numbers and implicit authorizations.
use crate::row::{Row, Wrong};
use pk_types::{ActionId, Implicit, NoMemory, Text, bad_byte, number_up_to};

/// `text BYTES`
pub fn text(row: &mut Row) {
    match Text::try_from_bytes(row.alloc, row.bytes()) {
        Ok(text) => row.quote(text.bytes()),
        Err(fault) => row.refuse(&fault),
    }
}

fn copied_text(row: &mut Row, text: &Text) -> Result<(), NoMemory> {
    let copy = text.try_copy()?;
    let known = Text::of_known(row.alloc, text.bytes())?;
    row.quote(copy.bytes());
    row.quote(known.bytes());
    row.show(&copy.is_same(text));
    Ok(())
}

/// `copied TEXT`: a copy of a text, the text of its own bytes, and whether the copy is the same
pub fn copied(row: &mut Row) {
    let text = row.text();
    if copied_text(row, &text).is_err() {
        row.mark(Wrong::NoMemory);
    }
}

/// `bad_byte BYTES`
pub fn first_bad_byte(row: &mut Row) {
    let at = bad_byte(row.bytes());
    row.show(&at);
}

/// `action_id TEXT`: the bytes of a copy of the id
pub fn action_id(row: &mut Row) {
    match ActionId::read(&row.text()) {
        Ok(id) => match id.try_copy() {
            Ok(copy) => row.quote(copy.bytes()),
            Err(_) => row.mark(Wrong::NoMemory),
        },
        Err(fault) => row.refuse(&fault),
    }
}

/// `number GREATEST WORD`
pub fn number(row: &mut Row) {
    let greatest = row.number(u64::MAX);
    let number = number_up_to(row.bytes(), greatest);
    row.show(&number);
}

/// `implicit WORD`: the value, and its code
pub fn implicit(row: &mut Row) {
    let value = Implicit::read(row.bytes());
    row.show(&value);
    if let Some(value) = value {
        row.field("code", &value.code());
    }
}

/// `implicit_of_code NUMBER`
pub fn implicit_of_code(row: &mut Row) {
    let code = row.number_32();
    row.show(&Implicit::of_code(code));
}
