// The header fields, one after the other.
ghost use Rattle.std.specs.Prelude.{◌≡◌, ◌+◌, ◌≤◌, ◌<◌, ◌^◌, length};
ghost use Rattle.dbus_values.specs.Reading.{Gives};
ghost use Rattle.dbus_values.specs.Parts.{spot};
ghost use Rattle.dbus_values.specs.Header.{header, no_fields, has, put_text, put_number, type_code, number_field, text_field, known_field, passed_field, field_at, fields_at, lacks};

use crate::basics::{byte_at, pad, u32_at};
use crate::class::Class;
use crate::codes::{
    DESTINATION, ERROR, ERROR_NAME, INTERFACE, MEMBER, METHOD_CALL, METHOD_RETURN, PATH,
    REPLY_SERIAL, SENDER, SIGNAL, SIGNATURE, UNIX_FDS,
};
use crate::cursor::Cursor;
use crate::fault::{Fault, FaultKind};
use crate::fields::Fields;
use crate::runs::values_at;
use crate::strings::{signature_at, string_at};
use crate::walk::Walk;

impl<'a> Fields<'a> {
    /// Whether there is the field of this code.
    fn has(&self, code: u8) -> bool
        ensures exact { result ≡ has (header self.now) code }
    {
        match code {
            PATH => self.path.is_some(),
            INTERFACE => self.interface.is_some(),
            MEMBER => self.member.is_some(),
            ERROR_NAME => self.error_name.is_some(),
            REPLY_SERIAL => self.reply_serial.is_some(),
            DESTINATION => self.destination,
            SENDER => self.sender,
            SIGNATURE => self.signature.is_some(),
            UNIX_FDS => self.unix_fds,
            _ => false,
        }
    }

    /// The fields with one more, of a text type.
    fn with_text(self, code: u8, text: &'a [u8]) -> Fields<'a>
        ensures exact { header result ≡ put_text (header self.entry) code text.now }
    {
        let mut fields = self;
        match code {
            PATH => fields.path = Some(text),
            INTERFACE => fields.interface = Some(text),
            MEMBER => fields.member = Some(text),
            ERROR_NAME => fields.error_name = Some(text),
            DESTINATION => fields.destination = true,
            SENDER => fields.sender = true,
            SIGNATURE => fields.signature = Some(text),
            _ => {}
        }
        fields
    }

    /// The fields with one more, of type `u`.
    fn with_number(self, code: u8, number: u32) -> Fields<'a>
        ensures exact { header result ≡ put_number (header self.entry) code number }
    {
        let mut fields = self;
        match code {
            REPLY_SERIAL => fields.reply_serial = Some(number),
            UNIX_FDS => fields.unix_fds = true,
            _ => {}
        }
        fields
    }

    /// Whether a field lacks that a message of this type needs.
    pub fn lacks(&self, kind: u8) -> bool
        ensures exact { result ≡ lacks kind (header self.now) }
    {
        match kind {
            METHOD_CALL => self.path.is_none() || self.member.is_none(),
            METHOD_RETURN => self.reply_serial.is_none(),
            ERROR => self.error_name.is_none() || self.reply_serial.is_none(),
            SIGNAL => self.path.is_none() || self.interface.is_none() || self.member.is_none(),
            _ => false,
        }
    }
}

/// The type code of a known field.
fn type_code(code: u8) -> u8
    ensures exact { result ≡ type_code code }
{
    match code {
        PATH => b'o',
        REPLY_SERIAL | UNIX_FDS => b'u',
        SIGNATURE => b'g',
        _ => b's',
    }
}

/// A field of type `u`, the structure of which begins at `start`.
#[tactic(auto, unfolding(crate::specs::Header::number_field))]
fn number_field<'a>(
    big: bool,
    start: usize,
    code: u8,
    fields: Fields<'a>,
    from: Cursor<'a>,
) -> Result<(Fields<'a>, Cursor<'a>), Fault>
    ensures exact { Gives (λ (fields, behind). (header fields, spot behind)) result (number_field big start code (header fields.entry) from.entry.at from.entry.rest.now) }
{
    let here = pad(4, from)?;
    let (number, after) = u32_at(big, here)?;
    if code == REPLY_SERIAL && number == 0 {
        return Err(Fault::new(FaultKind::Fields, start));
    }
    Ok((fields.with_number(code, number), after))
}

/// A field of a text type.
#[tactic(auto, unfolding(crate::specs::Header::text_field))]
fn text_field<'a>(
    big: bool,
    code: u8,
    fields: Fields<'a>,
    from: Cursor<'a>,
) -> Result<(Fields<'a>, Cursor<'a>), Fault>
    ensures exact { Gives (λ (fields, behind). (header fields, spot behind)) result (text_field big code (header fields.entry) from.entry.at from.entry.rest.now) }
{
    let class = Class::of(type_code(code));
    let here = pad(class.align(), from)?;
    let (text, after) = string_at(class, big, here)?;
    Ok((fields.with_text(code, text), after))
}

/// A known field behind its code; the field's structure begins at `start`.
#[tactic(auto, unfolding(crate::specs::Header::known_field))]
fn known_field<'a>(
    big: bool,
    start: usize,
    code: u8,
    fields: Fields<'a>,
    from: Cursor<'a>,
) -> Result<(Fields<'a>, Cursor<'a>), Fault>
    ensures exact { Gives (λ (fields, behind). (header fields, spot behind)) result (known_field big start code (header fields.entry) from.entry.at from.entry.rest.now) }
{
    let (signature, rest) = signature_at(from)?;
    if signature.len() != 1 || signature[0] != type_code(code) {
        return Err(Fault::new(FaultKind::Fields, start));
    }
    if type_code(code) == b'u' {
        number_field(big, start, code, fields, rest)
    } else {
        text_field(big, code, fields, rest)
    }
}

/// An unknown field behind its code, a variant, which is passed over.
#[tactic(auto, unfolding(crate::specs::Header::passed_field))]
fn passed_field<'a>(big: bool, walk: &mut Walk<'a>, from: Cursor<'a>) -> Result<Cursor<'a>, Fault>
    ensures exact { Gives spot result (passed_field big from.entry.at from.entry.rest.now) }
{
    let (_, after) = values_at(62, big, walk, b"v", from)?;
    Ok(after)
}

/// A field.
#[tactic(auto, unfolding(crate::specs::Header::field_at))]
fn field_at<'a>(
    big: bool,
    walk: &mut Walk<'a>,
    fields: Fields<'a>,
    from: Cursor<'a>,
) -> Result<(Fields<'a>, Cursor<'a>), Fault>
    ensures exact { Gives (λ (fields, behind). (header fields, spot behind)) result (field_at big (header fields.entry) from.entry.at from.entry.rest.now) }
{
    let here = pad(8, from)?;
    let (code, rest) = byte_at(here)?;
    if code == 0 || fields.has(code) {
        return Err(Fault::new(FaultKind::Fields, here.at));
    }
    if code <= UNIX_FDS {
        return known_field(big, here.at, code, fields, rest);
    }
    let after = passed_field(big, walk, rest)?;
    Ok((fields, after))
}

/// The fields up to the end of the bytes.
#[tactic(auto, using(crate::proofs::Loops::fields_rules))]
pub fn fields_at<'a>(big: bool, walk: &mut Walk<'a>, from: Cursor<'a>) -> Result<Fields<'a>, Fault>
    ensures exact { Gives header result (fields_at (length from.entry.rest.now) big no_fields from.entry.at from.entry.rest.now) }
{
    let mut fields = Fields {
        path: None,
        interface: None,
        member: None,
        error_name: None,
        reply_serial: None,
        destination: false,
        sender: false,
        signature: None,
        unix_fds: false,
    };
    let mut here = from;
    for _i in 0..from.rest.len() {
        if here.rest.is_empty() {
            return Ok(fields);
        }
        let (more, after) = field_at(big, walk, fields, here)?;
        fields = more;
        here = after;
    }
    if here.rest.is_empty() {
        Ok(fields)
    } else {
        Err(Fault::new(FaultKind::Length, here.at))
    }
}
