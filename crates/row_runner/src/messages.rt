// Messages of D-Bus.
use crate::row::{Row, Wrong};
use dbus_values::{
    HeaderOut, Next, Part, Value, ValueList, WireMessage, WireOut, is_path, message_size,
    next_message,
};
use pk_types::Text;

fn show_text(row: &mut Row, name: &str, text: Option<&[u8]>) {
    if let Some(text) = text {
        row.named(name, text);
    }
}

fn show_header(row: &mut Row, message: &WireMessage) {
    row.field("kind", &message.kind);
    row.field("flags", &message.flags);
    row.field("serial", &message.serial);
    show_text(row, "path", message.path);
    show_text(row, "interface", message.interface);
    show_text(row, "member", message.member);
    show_text(row, "error_name", message.error_name);
    row.field("reply_serial", &message.reply_serial);
    row.named("signature", message.signature);
}

fn show_part(row: &mut Row, part: Part) {
    match part {
        Part::Number { kind, value } => {
            row.quote(&[kind]);
            row.show(&value);
        }
        Part::Text { kind, bytes } => {
            row.quote(&[kind]);
            row.quote(bytes);
        }
        Part::Enter { kind } => {
            row.word("enter");
            row.quote(&[kind]);
        }
        Part::Leave { kind } => {
            row.word("leave");
            row.quote(&[kind]);
        }
        Part::Variant { signature } => row.named("variant", signature),
    }
}

fn show_body(row: &mut Row, message: &WireMessage) {
    let mut parts = message.body();
    row.word("body");
    for _ in 0..u64::MAX {
        match parts.next() {
            Some(part) => show_part(row, part),
            None => break,
        }
    }
}

/// `message BYTES`
pub fn message(row: &mut Row) {
    match next_message(row.bytes()) {
        Next::Whole { message, used } => {
            row.word("Whole");
            row.field("used", &used);
            show_header(row, &message);
            show_body(row, &message);
        }
        Next::Partial => row.word("Partial"),
        Next::Bad { kind, at } => {
            row.word("Bad");
            row.field("kind", &kind);
            row.field("at", &at);
        }
    }
}

/// The message that the next word is, if it is a whole one.
pub fn whole<'a>(row: &mut Row<'a>) -> Option<WireMessage<'a>> {
    match next_message(row.bytes()) {
        Next::Whole { message, .. } => Some(message),
        Next::Partial => None,
        Next::Bad { .. } => None,
    }
}

fn is_partial(bytes: &[u8]) -> bool {
    matches!(next_message(bytes), Next::Partial)
}

fn show_length(row: &mut Row, bytes: &[u8]) {
    match next_message(bytes) {
        Next::Whole { used, .. } => row.field("whole", &used),
        Next::Partial => row.word("Partial"),
        Next::Bad { .. } => row.word("Bad"),
    }
}

/// `prefixes BYTES`: the lengths of the shorter prefixes that are not partial, and how many of all bytes
/// the message has.
pub fn prefixes(row: &mut Row) {
    let bytes = row.bytes();
    for n in 0..bytes.len() {
        if !is_partial(&bytes[..n]) {
            row.show(&n);
        }
    }
    show_length(row, bytes);
}

/// `path BYTES`: whether bytes are an object path.
pub fn path(row: &mut Row) {
    let is_path = is_path(row.bytes());
    row.show(&is_path);
}

/// A text of this program.
fn known_text(row: &mut Row, bytes: &[u8]) -> Text {
    match Text::try_from_bytes(row.alloc, bytes) {
        Ok(text) => text,
        Err(_) => {
            row.mark(Wrong::NoMemory);
            Text::new(row.alloc)
        }
    }
}

fn variant(row: &mut Row) -> Value {
    let inner = Value::Text(row.text());
    match Box::new(row.alloc, inner) {
        Ok(inner) => Value::Variant(inner),
        Err(_) => {
            row.mark(Wrong::NoMemory);
            Value::Bool(false)
        }
    }
}

fn array(row: &mut Row) -> Value {
    let of = known_text(row, b"s");
    let mut items = ValueList::new(row.alloc);
    for _ in 0..u64::MAX {
        if !row.has_item() {
            break;
        }
        let item = Value::Text(row.text());
        if items.try_push(item).is_err() {
            row.mark(Wrong::NoMemory);
        }
    }
    Value::Array { of, items }
}

fn value(row: &mut Row) -> Value {
    match row.bytes() {
        b"t" => Value::U64(row.number(u64::MAX)),
        b"s" => Value::Text(row.text()),
        b"v" => variant(row),
        b"as" => array(row),
        _ => {
            row.mark(Wrong::Word);
            Value::Bool(false)
        }
    }
}

fn values(row: &mut Row) -> ValueList {
    let mut values = ValueList::new(row.alloc);
    for _ in 0..u64::MAX {
        if !row.has_more() {
            break;
        }
        let value = value(row);
        if values.try_push(value).is_err() {
            row.mark(Wrong::NoMemory);
        }
    }
    values
}

/// `call_size PATH INTERFACE MEMBER VALUE ..`: how many bytes the call has. A value is `t NUMBER`,
/// `s TEXT`, `v TEXT` (a variant) or `as TEXT .. ]` (an array).
pub fn call_size(row: &mut Row) {
    let path = row.text();
    let interface = row.text();
    let member = row.text();
    let body = values(row);
    let fields = HeaderOut {
        path: Some(path),
        interface: Some(interface),
        member: Some(member),
        error_name: None,
        reply_serial: None,
    };
    let size = message_size(&WireOut {
        kind: 1,
        flags: 0,
        fields,
        body,
    });
    row.show(&size);
}

/// `return_size ANSWERED VALUE ..`: how many bytes the return to this call has.
pub fn return_size(row: &mut Row) {
    let answered = row.number_32();
    let body = values(row);
    let fields = HeaderOut {
        path: None,
        interface: None,
        member: None,
        error_name: None,
        reply_serial: Some(answered),
    };
    let size = message_size(&WireOut {
        kind: 2,
        flags: 1,
        fields,
        body,
    });
    row.show(&size);
}
