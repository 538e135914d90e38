// What a message from a connection asks of the authority.
ghost use Rattle.std.specs.Prelude.{◌≡◌, IfOk};
ghost use Rattle.std.specs.Option.{option_map};
ghost use Rattle.std.specs.Str.{bytes_eq};
ghost use Rattle.dbus_values.specs.Next.{seen};
ghost use Rattle.authority_model.specs.Given.{IsStepped};
ghost use Rattle.authority_calls.specs.Methods.{row_of};
ghost use Rattle.authority_calls.specs.Events.{is_quiet, call_with, is_authority, method_of, call_of, error_name, event_of, IsAsked};

use crate::arguments::text_of;
use crate::calls::arguments;
use crate::fault::ArgumentFault;
use crate::methods::{AUTHORITY_PATH, Method, method_named};
use authority_model::{Call, ErrorCause, Event};
use dbus_values::{ERROR, METHOD_CALL, METHOD_RETURN, WireMessage};
use pk_types::{NoMemory, Text};
use std::alloc::Global;

/// The flag NO_REPLY_EXPECTED, which is bit 0.
pub const NO_REPLY_EXPECTED: u8 = 1;

/// Whether the flags say that no reply is wanted.
fn is_quiet(flags: u8) -> bool
    ensures exact { result ≡ is_quiet flags }
{
    flags % (2 * NO_REPLY_EXPECTED) == NO_REPLY_EXPECTED
}

/// Whether the arguments of a method have this signature.
fn takes(method: Method, signature: &[u8]) -> bool
    ensures exact { result ≡ bytes_eq (row_of method).takes signature.now }
{
    method.row().takes.as_bytes() == signature
}

/// The call of a method.
fn call_with(alloc: Global, message: &WireMessage, method: Method) -> Result<Call, NoMemory>
    ensures exact { IfOk result (λ call. call ≡ call_with (seen message.now) method) }
{
    let cause = ErrorCause::InvalidArgs;
    if takes(method, message.signature) {
        let mut parts = message.body();
        match arguments(alloc, method, &mut parts) {
            Ok(call) => Ok(call),
            Err(ArgumentFault::OutOfForm) => Ok(Call::Wrong { cause }),
            Err(ArgumentFault::NoMemory) => Err(NoMemory),
        }
    } else {
        Ok(Call::Wrong { cause })
    }
}

/// Whether a path is that of the authority.
fn is_authority(path: Option<&[u8]>) -> bool
    ensures exact { result ≡ is_authority (option_map (λ b. b.now) path.entry) }
{
    match path {
        Some(path) => path == AUTHORITY_PATH.as_bytes(),
        None => false,
    }
}

/// The method that a message asks for.
fn method_of(message: &WireMessage) -> Option<Method>
    ensures exact { result ≡ method_of (seen message.now) }
{
    match message.member {
        Some(member) => method_named(message.interface, member),
        None => None,
    }
}

/// What a call asks for.
fn call_of(alloc: Global, message: &WireMessage) -> Result<Call, NoMemory>
    ensures exact { IfOk result (λ call. call ≡ call_of (seen message.now)) }
{
    if !is_authority(message.path) {
        let cause = ErrorCause::UnknownObject;
        return Ok(Call::Wrong { cause });
    }
    match method_of(message) {
        Some(method) => call_with(alloc, message, method),
        None => {
            let cause = ErrorCause::UnknownMethod;
            Ok(Call::Wrong { cause })
        }
    }
}

/// The name of an error. A name of more than 65,535 bytes is taken as the empty name.
///
/// # Errors
/// `NoMemory` alone.
pub fn error_name(alloc: Global, name: Option<&[u8]>) -> Result<Text, NoMemory>
    ensures exact { IfOk result (λ text. text ≡ error_name (option_map (λ b. b.now) name.entry)) }
{
    match name {
        Some(name) => match text_of(alloc, name) {
            Ok(text) => Ok(text),
            Err(ArgumentFault::OutOfForm) => Ok(Text::new(alloc)),
            Err(ArgumentFault::NoMemory) => Err(NoMemory),
        },
        None => Ok(Text::new(alloc)),
    }
}

/// What a message from a connection asks of the authority.
///
/// A call is judged in this order: it has to be to the object of the authority, of one of its
/// methods, and with the arguments of that method. A call without an interface is looked up by its
/// member. A return and an error reply to the message whose serial they name. A signal and a
/// message of an unknown type ask nothing. The interface is that of the reference manual,
/// "org.freedesktop.PolicyKit1.Authority Interface".
///
/// # Errors
/// `NoMemory` alone.
pub fn event_of(alloc: Global, message: &WireMessage) -> Result<Event, NoMemory>
    ensures exact { IfOk result (λ event. event ≡ event_of (seen message.now)) }
    // It is an event of a connection's own making, and so one that a step takes.
    ensures asked { IfOk result IsAsked }
    ensures stepped { IfOk result IsStepped }
{
    match message.kind {
        METHOD_CALL => {
            let call = call_of(alloc, message)?;
            Ok(Event::Call {
                serial: message.serial,
                quiet: is_quiet(message.flags),
                call,
            })
        }
        METHOD_RETURN => match message.reply_serial {
            Some(serial) => Ok(Event::Returned { serial }),
            None => Ok(Event::Passed),
        },
        ERROR => match message.reply_serial {
            Some(serial) => {
                let name = error_name(alloc, message.error_name)?;
                Ok(Event::AgentError { serial, name })
            }
            None => Ok(Event::Passed),
        },
        _ => Ok(Event::Passed),
    }
}
