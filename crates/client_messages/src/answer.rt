// What a client is answered.
ghost use Rattle.std.specs.Prelude.{◌≡◌, IfOk};
ghost use Rattle.std.specs.Option.{option_map};
ghost use Rattle.std.specs.Str.{bytes_eq};
ghost use Rattle.dbus_values.specs.Next.{seen};
ghost use Rattle.dbus_values.specs.Parts.{piece};
ghost use Rattle.authority_calls.specs.Arguments.{Gives, Takes, part_as};
ghost use Rattle.authority_calls.specs.Methods.{row_of};
ghost use Rattle.client_messages.specs.Answers.{as_boolean, verdict, name, read_as, returned, replied, is_serial, answer_of};

use authority_calls::arguments::{enter, leave, part, text};
use authority_calls::fault::ArgumentFault;
use authority_calls::pairs::pairs;
use authority_calls::{Method, error_name};
use dbus_values::{ERROR, METHOD_RETURN, Part, Parts, WireMessage};
use pk_types::{NoMemory, PairList, Text};
use std::alloc::Global;

/// The type code BOOLEAN.
pub const BOOLEAN: u8 = b'b';

/// What a message tells a client of one of its calls.
#[derive(Drop)]
pub enum ClientAnswer {
    /// The return of CheckAuthorization (AuthorizationResult in the reference manual).
    Verdict {
        /// The subject is authorized.
        yes: bool,
        /// The subject is not authorized, and would be after a challenge.
        challenge: bool,
        /// The details in their order; a key may come twice.
        details: PairList,
    },
    /// An empty return: the call was done.
    Done,
    /// A return of a text, which is the bus name of the connection.
    Name(Text),
    /// An error of this name. A name of more than 65,535 bytes is taken as the empty name.
    ErrorNamed(Text),
    /// Anything else: a message that does not reply to the call, or a return with another body or
    /// with a text of more than 65,535 bytes.
    Other,
}

/// What a part is as a BOOLEAN.
fn as_boolean(part: Part) -> Result<bool, ArgumentFault>
    ensures exact { Gives result (as_boolean (piece part.entry)) }
{
    match part {
        Part::Number { kind, value } => {
            if kind == BOOLEAN {
                Ok(value == 1)
            } else {
                Err(ArgumentFault::OutOfForm)
            }
        }
        Part::Text { .. } | Part::Enter { .. } | Part::Leave { .. } | Part::Variant { .. } => {
            Err(ArgumentFault::OutOfForm)
        }
    }
}

/// The next BOOLEAN.
fn boolean(parts: &mut Parts) -> Result<bool, ArgumentFault>
    ensures exact { Takes (part_as as_boolean) parts.old parts.new result }
{
    let part = part(parts)?;
    let truth = as_boolean(part)?;
    Ok(truth)
}

/// The return of CheckAuthorization.
#[tactic(auto, unfolding(crate::specs::Answers::verdict))]
fn verdict(alloc: Global, parts: &mut Parts) -> Result<ClientAnswer, ArgumentFault>
    ensures exact { Takes verdict parts.old parts.new result }
{
    enter(parts)?;
    let yes = boolean(parts)?;
    let challenge = boolean(parts)?;
    let details = pairs(alloc, parts)?;
    leave(parts)?;
    Ok(ClientAnswer::Verdict {
        yes,
        challenge,
        details,
    })
}

/// The return of Announce.
fn name(alloc: Global, parts: &mut Parts) -> Result<ClientAnswer, ArgumentFault>
    ensures exact { Takes name parts.old parts.new result }
{
    let name = text(alloc, parts)?;
    Ok(ClientAnswer::Name(name))
}

/// What a body is as the return of CheckAuthorization.
fn verdict_of(alloc: Global, message: &WireMessage) -> Result<ClientAnswer, NoMemory>
    ensures exact { IfOk result (λ answer. answer ≡ read_as verdict (seen message.now)) }
{
    let mut parts = message.body();
    match verdict(alloc, &mut parts) {
        Ok(answer) => Ok(answer),
        Err(ArgumentFault::OutOfForm) => Ok(ClientAnswer::Other),
        Err(ArgumentFault::NoMemory) => Err(NoMemory),
    }
}

/// What a body is as the return of Announce.
fn name_of(alloc: Global, message: &WireMessage) -> Result<ClientAnswer, NoMemory>
    ensures exact { IfOk result (λ answer. answer ≡ read_as name (seen message.now)) }
{
    let mut parts = message.body();
    match name(alloc, &mut parts) {
        Ok(answer) => Ok(answer),
        Err(ArgumentFault::OutOfForm) => Ok(ClientAnswer::Other),
        Err(ArgumentFault::NoMemory) => Err(NoMemory),
    }
}

/// Whether the return of a method has this signature.
fn gives(method: Method, signature: &[u8]) -> bool
    ensures exact { result ≡ bytes_eq (row_of method).gives signature.now }
{
    method.row().gives.as_bytes() == signature
}

/// What a return tells.
fn returned(alloc: Global, message: &WireMessage) -> Result<ClientAnswer, NoMemory>
    ensures exact { IfOk result (λ answer. answer ≡ returned (seen message.now)) }
{
    if gives(Method::CheckAuthorization, message.signature) {
        verdict_of(alloc, message)
    } else if gives(Method::Announce, message.signature) {
        name_of(alloc, message)
    } else if message.signature.is_empty() {
        Ok(ClientAnswer::Done)
    } else {
        Ok(ClientAnswer::Other)
    }
}

/// What a reply tells.
fn replied(alloc: Global, message: &WireMessage) -> Result<ClientAnswer, NoMemory>
    ensures exact { IfOk result (λ answer. answer ≡ replied (seen message.now)) }
{
    match message.kind {
        METHOD_RETURN => returned(alloc, message),
        ERROR => {
            let name = error_name(alloc, message.error_name)?;
            Ok(ClientAnswer::ErrorNamed(name))
        }
        _ => Ok(ClientAnswer::Other),
    }
}

/// Whether a REPLY_SERIAL is this serial.
fn is_serial(serial: u32, named: Option<u32>) -> bool
    ensures exact { result ≡ is_serial serial named }
{
    match named {
        Some(named) => named == serial,
        None => false,
    }
}

/// What a message tells a client of the call with this serial.
///
/// Only a return and an error reply to a call, the one that their REPLY_SERIAL names (the D-Bus
/// Specification, "Header Fields"). An error tells its name, whatever its body is. A return tells
/// what its body is, by its signature: `(bba{ss})`, `s`, or none.
///
/// # Errors
/// `NoMemory` alone.
pub fn answer_of(
    alloc: Global,
    message: &WireMessage,
    serial: u32,
) -> Result<ClientAnswer, NoMemory>
    ensures exact { IfOk result (λ answer. answer ≡ answer_of serial (seen message.now)) }
{
    if is_serial(serial, message.reply_serial) {
        replied(alloc, message)
    } else {
        Ok(ClientAnswer::Other)
    }
}
