// Whole messages.
ghost use Rattle.std.specs.Prelude.{◌≡◌, ◌+◌, ◌≤◌, ◌<◌, length, take, drop, IfOk, Ok, List, ℕ, ◌++◌};
ghost use Rattle.dbus_values.specs.declared.codes.TheConstants.{MAX_MESSAGE};
ghost use Rattle.dbus_values.specs.Reading.{Gives, spot_at};
ghost use Rattle.dbus_values.specs.Parts.{spot};
ghost use Rattle.dbus_values.specs.Basics.{gap};
ghost use Rattle.dbus_values.specs.Header.{header};
ghost use Rattle.dbus_values.specs.Messages.{total, signature_of, body_at, padded_body, message_of};
ghost use Rattle.dbus_values.specs.Starts.{start};
ghost use Rattle.dbus_values.specs.Next.{Seen, Whole, seen, shown, answer, next_of};
ghost use Rattle.dbus_values.specs.Streams.{IfWhole, IsForm};
ghost use Rattle.dbus_values.specs.Told.{IfTold};

use crate::basics::{gap, pad};
use crate::cursor::Cursor;
use crate::fault::{Fault, FaultKind, Stop};
use crate::fields::Fields;
use crate::header::fields_at;
use crate::runs::values_at;
use crate::start::{Start, start_of};
use crate::walk::Walk;
use crate::wire_message::WireMessage;

/// What a stream of bytes begins with.
#[derive(Clone, Copy)]
pub enum Next<'a> {
    /// A whole message, the first `used` bytes.
    Whole {
        message: WireMessage<'a>,
        used: usize,
    },
    /// Less than a whole message, without a fault in the first 16 bytes that are there.
    Partial,
    /// The first fault from the front, and its place, counted from the first byte: of the byte,
    /// the number, the field, the text or the byte of padding that is wrong. A field that lacks
    /// has the place 12.
    Bad {
        kind: FaultKind,
        at: usize,
    },
}

/// How many parts the body has, which is read by its signature to its last byte.
#[tactic(auto, unfolding(crate::specs::Messages::body_at))]
fn body_at<'a>(
    big: bool,
    walk: &mut Walk<'a>,
    signature: &'a [u8],
    from: Cursor<'a>,
) -> Result<usize, Fault>
    ensures exact { Gives (λ n. n) result (body_at big signature.now from.entry.at from.entry.rest.now) }
{
    let (parts, after) = values_at(64, big, walk, signature, from)?;
    if after.rest.is_empty() {
        Ok(parts)
    } else {
        Err(Fault::new(FaultKind::Length, after.at))
    }
}

/// Padding, and then the body: how many parts it has, and where it begins.
#[tactic(auto, unfolding(crate::specs::Messages::padded_body))]
fn padded_body<'a>(
    big: bool,
    walk: &mut Walk<'a>,
    signature: &'a [u8],
    from: Cursor<'a>,
) -> Result<(usize, Cursor<'a>), Fault>
    ensures exact { Gives (λ (parts, begin). (parts, spot begin)) result (padded_body big signature.now from.entry.at from.entry.rest.now) }
    ensures walked { IfOk result (λ (parts, begin). body_at big signature.now begin.at begin.rest.now ≡ Ok parts) }
{
    let begin = pad(8, from)?;
    let parts = body_at(big, walk, signature, begin)?;
    Ok((parts, begin))
}

/// The bytes of the header fields, and those of the padding and the body behind them.
#[derive(Clone, Copy)]
struct Halves<'a> {
    fields: Cursor<'a>,
    body: Cursor<'a>,
}

/// The two halves behind the first 16 bytes.
fn split(first: Start, bytes: &[u8]) -> Halves
    requires short { total (start first) ≤ MAX_MESSAGE }
    requires there { total (start first) ≤ length bytes.now }
    ensures fields { spot result.fields ≡ spot_at 16 (take first.fields (drop 16 bytes.now)) }
    ensures body { spot result.body ≡ spot_at (16 + first.fields) (take (gap 8 first.fields + first.body) (drop first.fields (drop 16 bytes.now))) }
{
    let length = first.fields as usize;
    let padding = gap(8, length);
    let (inside, behind) = bytes[16..].split_at(length);
    Halves {
        fields: Cursor {
            at: 16,
            rest: inside,
        },
        body: Cursor {
            at: 16 + length,
            rest: &behind[..padding + first.body as usize],
        },
    }
}

/// The signature of the body.
fn signature_of<'a>(fields: &Fields<'a>) -> &'a [u8]
    ensures exact { result.now ≡ signature_of (header fields.now) }
{
    match fields.signature {
        Some(signature) => signature,
        None => &[],
    }
}

/// The fields and the body behind the first 16 bytes.
#[tactic(auto, unfolding(crate::specs::Messages::message_of))]
fn message_of<'a>(first: Start, bytes: &'a [u8]) -> Result<(Fields<'a>, (usize, Cursor<'a>)), Fault>
    requires short { total (start first) ≤ MAX_MESSAGE }
    requires there { total (start first) ≤ length bytes.now }
    ensures exact { Gives (λ (fields, (parts, begin)). (header fields, (parts, spot begin))) result (message_of (start first) bytes.now) }
    ensures walked { IfOk result (λ (fields, (parts, begin)). body_at first.big (signature_of (header fields)) begin.at begin.rest.now ≡ Ok parts) }
{
    let halves = split(first, bytes);
    let mut walk = Walk::new(&bytes[..0], halves.fields);
    let fields = fields_at(first.big, &mut walk, halves.fields)?;
    if fields.lacks(first.kind) {
        return Err(Fault::new(FaultKind::Fields, 12));
    }
    let body = padded_body(first.big, &mut walk, signature_of(&fields), halves.body)?;
    Ok((fields, body))
}

/// The message of these fields, of a body with so many parts.
fn shown<'a>(first: Start, fields: &Fields<'a>, parts: usize, body: Cursor<'a>) -> WireMessage<'a>
    requires { body_at first.big (signature_of (header fields.now)) body.at body.rest.now ≡ Ok parts }
    ensures exact { seen result ≡ shown (start first) (header fields.now) parts (spot body.entry) }
{
    WireMessage {
        kind: first.kind,
        flags: first.flags,
        serial: first.serial,
        path: fields.path,
        interface: fields.interface,
        member: fields.member,
        error_name: fields.error_name,
        reply_serial: fields.reply_serial,
        signature: signature_of(fields),
        big: first.big,
        parts,
        body,
    }
}

/// What the bytes begin with.
fn front_message(bytes: &[u8]) -> Next
    ensures exact { answer result ≡ next_of bytes.now }
    ensures within { IfWhole (answer result) (λ seen used. used ≤ length bytes.now) }
{
    let first = match start_of(bytes) {
        Ok(first) => first,
        Err(Stop::Partial) => return Next::Partial,
        Err(Stop::Bad(fault)) => {
            return Next::Bad {
                kind: fault.kind,
                at: fault.at,
            };
        }
    };
    let used = first.total();
    if bytes.len() < used {
        return Next::Partial;
    }
    match message_of(first, bytes) {
        Ok((fields, (parts, body))) => {
            let message = shown(first, &fields, parts, body);
            Next::Whole { message, used }
        }
        Err(fault) => Next::Bad {
            kind: fault.kind,
            at: fault.at,
        },
    }
}

/// Reads the message at the front of the bytes, in either byte order. It takes no memory and
/// copies nothing: the message borrows from the bytes.
///
/// The form is that of the D-Bus Specification, "Message Format" and "Header Fields". A message
/// has at most 16,777,216 bytes, and at most 64 containers stand inside each other.
pub fn next_message(bytes: &[u8]) -> Next
    // Which answer it is, with the kind and the place of the first fault.
    ensures exact { answer result ≡ next_of bytes.now }
    // What is read whole has the form of a message, which is shown.
    ensures form { IfWhole (answer result) (λ seen used. IsForm (take used bytes.now) seen) }
    // What has the form of a message is read, whatever follows it.
    ensures again { (text more : List ℕ) (seen : Seen) → IsForm text seen → bytes.now ≡ text ++ more → answer result ≡ Whole seen (length text) }
    // A message or a fault stays the answer, whatever follows.
    ensures stays { IfTold (answer result) ((more : List ℕ) → next_of (bytes.now ++ more) ≡ answer result) }
    // A message lies within the bytes.
    ensures within { IfWhole (answer result) (λ seen used. used ≤ length bytes.now) }
{
    front_message(bytes)
}
