// A client's calls.
ghost use Rattle.std.specs.Prelude.{◌≡◌, ◌<◌, ◌≤◌, ◌++◌, ℕ, List, IsTrue, IsSome, Some, false, length, IfOk};
ghost use Rattle.dbus_values.specs.Form.{WireForm, message_bytes, shown_of};
ghost use Rattle.dbus_values.specs.Next.{Whole, next_of};
ghost use Rattle.dbus_values.specs.Trees.{Tree, types_of};
ghost use Rattle.authority_calls.specs.declared.methods.TheConstants.{AUTHORITY_PATH};
ghost use Rattle.authority_calls.specs.Methods.{row_of};
ghost use Rattle.authority_messages.specs.Values.{row};
ghost use Rattle.authority_messages.specs.Built.{Rows};
ghost use Rattle.authority_messages.specs.Outgoing.{outgoing, under, MayBeSent};
ghost use Rattle.authority_messages.specs.Messages.{is_over as is_over_limit};
ghost use Rattle.client_messages.specs.Calls.{calling as calling_of, method_of as method_for, call_for};

use crate::arguments::arguments;
use authority_calls::{AUTHORITY_PATH, Method};
use authority_messages::limits::is_over;
use authority_messages::outgoing::{Member, call_at};
use authority_messages::texts::plain;
use authority_model::Call;
use dbus_values::{ValueList, WireOut, write_message};
use pk_types::{ByteList, NoMemory};
use std::alloc::Global;

/// The method of a call.
fn method_of(call: &Call) -> Option<Method>
    ensures method { result ≡ method_for call.now }
{
    match call {
        Call::Check { .. } => Some(Method::CheckAuthorization),
        Call::Cancel { .. } => Some(Method::CancelCheckAuthorization),
        Call::Register { .. } => Some(Method::RegisterAuthenticationAgent),
        Call::Unregister { .. } => Some(Method::UnregisterAuthenticationAgent),
        Call::Respond { .. } => Some(Method::AuthenticationAgentResponse),
        Call::EnumerateActions { .. } => Some(Method::EnumerateActions),
        Call::EnumerateGrants { .. } => Some(Method::EnumerateTemporaryAuthorizations),
        Call::RevokeAll { .. } => Some(Method::RevokeTemporaryAuthorizations),
        Call::RevokeOne { .. } => Some(Method::RevokeTemporaryAuthorizationById),
        Call::Announce { .. } => Some(Method::Announce),
        Call::Reload => Some(Method::Reload),
        Call::Wrong { .. } => None,
    }
}

/// The object of the authority, and a method's interface and member.
fn member_of(alloc: Global, method: Method) -> Result<Member, NoMemory>
    ensures path { IfOk result (λ m. m.path ≡ AUTHORITY_PATH.now) }
    ensures interface { IfOk result (λ m. m.interface ≡ (row_of method).interface) }
    ensures member { IfOk result (λ m. m.member ≡ (row_of method).name) }
{
    let row = method.row();
    let path = plain(alloc, AUTHORITY_PATH)?;
    let interface = plain(alloc, row.interface)?;
    let member = plain(alloc, row.name)?;
    Ok(Member {
        path,
        interface,
        member,
    })
}

/// A call of a method.
fn calling(alloc: Global, method: Method, values: ValueList) -> Result<WireOut, NoMemory>
    ensures message { IfOk result (λ out. (ts : List Tree) → Rows 4 values ts → outgoing out ≡ calling_of method ts) }
    ensures form { IfOk result (λ out. (ts : List Tree) → types_of (row ts) ≡ (row_of method).takes → Rows 4 values ts → MayBeSent (outgoing out)) }
{
    let member = member_of(alloc, method)?;
    Ok(call_at(0, member, values))
}

/// The message of a call.
fn call_out(alloc: Global, call: &Call) -> Result<WireOut, NoMemory>
    requires { IsSome (method_for call.now) }
    ensures message { IfOk result (λ out. outgoing out ≡ call_for call.now) }
    ensures form { IfOk result (λ out. MayBeSent (outgoing out)) }
{
    match method_of(call) {
        Some(method) => {
            let values = arguments(alloc, call)?;
            calling(alloc, method, values)
        }
        None => unreachable!(),
    }
}

/// Whether the message of a call would have more than 16,777,216 bytes, so that it may not be written.
/// Only the details of a check can make it so long. The call has to be one of a method.
///
/// # Errors
/// `NoMemory` alone.
pub fn call_is_too_long(alloc: Global, call: &Call) -> Result<bool, NoMemory>
    requires { IsSome (method_for call.now) }
    ensures over { IfOk result (λ over. over ≡ is_over_limit (call_for call.now)) }
{
    let out = call_out(alloc, call)?;
    Ok(is_over(&out))
}

/// The bytes of a call to the authority, little-endian (the D-Bus Specification, "Message Format").
/// A reply is expected. `serial` is the number of the message among those of the connection, counted
/// from 1.
///
/// The call has to be one of a method, so not `Wrong`, and its message may have at most 16,777,216
/// bytes, as [`call_is_too_long`] tells. The serial may not be 0.
///
/// # Errors
/// `NoMemory` alone.
pub fn call_bytes(alloc: Global, call: &Call, serial: u32) -> Result<ByteList, NoMemory>
    requires method { IsSome (method_for call.now) }
    requires short { is_over_limit (call_for call.now) ≡ false }
    requires serial { 0 < serial }
    // The bytes are those of the call's message.
    ensures exact { IfOk result (λ bytes. bytes ≡ message_bytes false (under serial (call_for call.now))) }
    // They have the form of that message.
    ensures form { IfOk result (λ bytes. WireForm bytes (under serial (call_for call.now))) }
    // What was written is read again, whatever follows it.
    ensures again { IfOk result (λ bytes. (more : List ℕ) → next_of (bytes ++ more) ≡ Whole (shown_of (under serial (call_for call.now))) (length bytes)) }
{
    let out = call_out(alloc, call)?;
    write_message(alloc, &out, serial)
}
