// The first 16 bytes of a message.
ghost use Rattle.std.specs.Prelude.{◌≡◌, ◌+◌, ◌≤◌, ◌<◌, ◌^◌, length, IfOk};
ghost use Rattle.dbus_values.specs.declared.codes.TheConstants.{MAX_BODY, MAX_MESSAGE};
ghost use Rattle.dbus_values.specs.Reading.{Gives};
ghost use Rattle.dbus_values.specs.Messages.{u32_of, total, order_of, kind_of, flags_of, body_of, serial_of, fields_of, start_of};
ghost use Rattle.dbus_values.specs.Starts.{start};
ghost use Rattle.dbus_values.specs.Basics.{gap};

use crate::basics::gap;
use crate::codes::{MAX_BODY, MAX_MESSAGE};
use crate::fault::{FaultKind, Stop};

/// What the first 16 bytes say: the byte order, the message type, the flags, the length of the
/// body, the serial and the length of the array of header fields.
#[derive(Clone, Copy, Debug)]
pub struct Start {
    pub big: bool,
    pub kind: u8,
    pub flags: u8,
    pub body: u32,
    pub serial: u32,
    pub fields: u32,
}

impl Start {
    /// The length of the whole message.
    pub fn total(&self) -> usize
        requires { total (start self.now) ≤ MAX_MESSAGE }
        ensures exact { result ≡ total (start self.now) }
    {
        let fields = self.fields as usize;
        16 + (fields + gap(8, fields)) + self.body as usize
    }
}

/// The number of four bytes at a place.
fn u32_of(big: bool, bytes: &[u8], at: usize) -> u32
    requires { at + 4 ≤ length bytes.now }
    ensures exact { result ≡ u32_of big bytes.now at }
{
    let four = &bytes[at..at + 4];
    let bytes = [four[0], four[1], four[2], four[3]];
    if big {
        u32::from_be_bytes(bytes)
    } else {
        u32::from_le_bytes(bytes)
    }
}

/// Whether the numbers are big-endian.
#[tactic(auto, unfolding(crate::specs::Messages::order_of))]
fn order_of(bytes: &[u8]) -> Result<bool, Stop>
    ensures exact { Gives (λ x. x) result (order_of bytes.now) }
{
    if bytes.is_empty() {
        return Err(Stop::Partial);
    }
    match bytes[0] {
        b'l' => Ok(false),
        b'B' => Ok(true),
        _ => Err(Stop::bad(FaultKind::Endian, 0)),
    }
}

/// The message type.
#[tactic(auto, unfolding(crate::specs::Messages::kind_of))]
fn kind_of(bytes: &[u8]) -> Result<u8, Stop>
    ensures exact { Gives (λ x. x) result (kind_of bytes.now) }
{
    if bytes.len() < 2 {
        return Err(Stop::Partial);
    }
    if bytes[1] == 0 {
        return Err(Stop::bad(FaultKind::Kind, 1));
    }
    Ok(bytes[1])
}

/// The flags, before the protocol version.
#[tactic(auto, unfolding(crate::specs::Messages::flags_of))]
fn flags_of(bytes: &[u8]) -> Result<u8, Stop>
    ensures exact { Gives (λ x. x) result (flags_of bytes.now) }
{
    if bytes.len() < 4 {
        return Err(Stop::Partial);
    }
    if bytes[3] == 1 {
        Ok(bytes[2])
    } else {
        Err(Stop::bad(FaultKind::Version, 3))
    }
}

/// The length of the body.
#[tactic(auto, unfolding(crate::specs::Messages::body_of))]
fn body_of(big: bool, bytes: &[u8]) -> Result<u32, Stop>
    ensures exact { Gives (λ x. x) result (body_of big bytes.now) }
    ensures small { IfOk result (λ n. n ≤ MAX_BODY) }
{
    if bytes.len() < 8 {
        return Err(Stop::Partial);
    }
    let body = u32_of(big, bytes, 4);
    if MAX_BODY < body {
        return Err(Stop::bad(FaultKind::Length, 4));
    }
    Ok(body)
}

/// The serial.
#[tactic(auto, unfolding(crate::specs::Messages::serial_of))]
fn serial_of(big: bool, bytes: &[u8]) -> Result<u32, Stop>
    ensures exact { Gives (λ x. x) result (serial_of big bytes.now) }
{
    if bytes.len() < 12 {
        return Err(Stop::Partial);
    }
    let serial = u32_of(big, bytes, 8);
    if serial == 0 {
        return Err(Stop::bad(FaultKind::Serial, 8));
    }
    Ok(serial)
}

/// The length of the array of header fields.
#[tactic(auto, unfolding(crate::specs::Messages::fields_of))]
fn fields_of(big: bool, body: u32, bytes: &[u8]) -> Result<u32, Stop>
    ensures exact { Gives (λ x. x) result (fields_of big body bytes.now) }
    ensures there { IfOk result (λ n. (16 ≤ length bytes.now) × (16 + (n + gap 8 n) + body ≤ MAX_MESSAGE)) }
{
    if bytes.len() < 16 {
        return Err(Stop::Partial);
    }
    let fields = u32_of(big, bytes, 12);
    let length = fields as usize;
    if MAX_MESSAGE < 16 + (length + gap(8, length)) + body as usize {
        return Err(Stop::bad(FaultKind::Length, 12));
    }
    Ok(fields)
}

/// What the first 16 bytes say, as far as they are there.
#[tactic(auto, unfolding(crate::specs::Messages::start_of))]
pub fn start_of(bytes: &[u8]) -> Result<Start, Stop>
    ensures exact { Gives start result (start_of bytes.now) }
    ensures there { IfOk result (λ s. (16 ≤ length bytes.now) × (total (start s) ≤ MAX_MESSAGE)) }
{
    let big = order_of(bytes)?;
    let kind = kind_of(bytes)?;
    let flags = flags_of(bytes)?;
    let body = body_of(big, bytes)?;
    let serial = serial_of(big, bytes)?;
    let fields = fields_of(big, body, bytes)?;
    Ok(Start {
        big,
        kind,
        flags,
        body,
        serial,
        fields,
    })
}
