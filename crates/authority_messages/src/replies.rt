// Replies: returns and errors.
ghost use Rattle.std.specs.Prelude.{◌≡◌, ◌<◌, ◌≤◌, ℕ, true, false, [], ◌∷◌, if◌then◌else◌, codes, string_bytes, IsTrue, IfOk};
ghost use Rattle.authority_model.specs.Causes.{is_bus_error, error_name as error_name_of, error_text};
ghost use Rattle.authority_messages.specs.Plain.{is_plain};
ghost use Rattle.authority_messages.specs.Values.{string};
ghost use Rattle.authority_messages.specs.Outgoing.{outgoing, return_to as return_of, error_to as error_of, MayBeSent, IsSent};
ghost use Rattle.authority_messages.specs.Messages.{too_long as too_long_of};
ghost use Rattle.authority_messages.specs.Built.{Builds};
ghost use Rattle.dbus_values.specs.Trees.{Tree, type_of};
ghost use Rattle.dbus_values.specs.Signatures.{is_signature};

use crate::outgoing::{error_to, return_to};
use crate::texts::plain;
use crate::values::{add, add_plain, add_string, no_values};
use authority_model::ErrorCause;
use dbus_values::{Value, WireOut};
use pk_types::{NoMemory, Text};
use std::alloc::{AllocError, Global};

/// The name of the error in place of a reply that is too long.
pub const LIMITS_EXCEEDED: &str = "org.freedesktop.DBus.Error.LimitsExceeded";

/// Its text.
pub const TOO_LONG: &str = "The answer is too long";

/// An empty return.
pub fn done(alloc: Global, answered: u32) -> WireOut
    requires { 0 < answered }
    ensures message { outgoing result ≡ return_of answered [] }
    ensures form { MayBeSent (outgoing result) }
{
    return_to(answered, no_values(alloc))
}

/// A return of a text.
pub fn named(alloc: Global, answered: u32, name: &Text) -> Result<WireOut, NoMemory>
    requires { 0 < answered }
    ensures message { IfOk result (λ out. outgoing out ≡ return_of answered (string name.now ∷ [])) }
    ensures form { IfOk result (λ out. MayBeSent (outgoing out)) }
{
    let mut body = no_values(alloc);
    add_string(alloc, &mut body, name)?;
    Ok(return_to(answered, body))
}

/// A return of one value.
pub fn returning(alloc: Global, answered: u32, value: Value) -> Result<WireOut, NoMemory>
    requires { 0 < answered }
    ensures message { IfOk result (λ out. (deep : ℕ) (t : Tree) → Builds false deep value t → outgoing out ≡ return_of answered (t ∷ [])) }
    ensures form { IfOk result (λ out. (deep : ℕ) (t : Tree) → deep ≤ 64 → is_signature (type_of t) ≡ true → Builds false deep value t → MayBeSent (outgoing out)) }
{
    let mut body = no_values(alloc);
    add(&mut body, value)?;
    Ok(return_to(answered, body))
}

/// An error with a text. The name and the text are of ASCII and have at most 65,535 bytes each.
///
/// # Errors
/// `NoMemory` alone.
pub fn refusal(alloc: Global, answered: u32, name: &str, text: &str) -> Result<WireOut, NoMemory>
    requires answered { 0 < answered }
    requires name { IsTrue (is_plain name.now) }
    requires text { IsTrue (is_plain text.now) }
    ensures message { IfOk result (λ out. outgoing out ≡ error_of answered name.now text.now) }
    ensures form { IfOk result (λ out. MayBeSent (outgoing out)) }
{
    let mut body = no_values(alloc);
    add_plain(alloc, &mut body, text)?;
    let name = plain(alloc, name)?;
    Ok(error_to(answered, name, body))
}

/// The error in place of a reply that is too long.
pub fn too_long(alloc: Global, answered: u32) -> Result<WireOut, NoMemory>
    requires { 0 < answered }
    ensures message { IfOk result (λ out. outgoing out ≡ too_long_of answered) }
    ensures form { IfOk result (λ out. IsSent (outgoing out)) }
{
    refusal(alloc, answered, LIMITS_EXCEEDED, TOO_LONG)
}

/// Where the name of an error stands.
fn error_front(cause: ErrorCause) -> &'static str
    ensures front { result.now ≡ (if is_bus_error cause then codes "org.freedesktop.DBus.Error." else codes "org.freedesktop.PolicyKit1.Error.") }
{
    if cause.is_bus_error() {
        "org.freedesktop.DBus.Error."
    } else {
        "org.freedesktop.PolicyKit1.Error."
    }
}

/// The name of the error that tells a cause.
fn error_name(alloc: Global, cause: ErrorCause) -> Result<String, AllocError>
    ensures name { IfOk result (λ name. string_bytes name ≡ error_name_of cause) }
{
    let mut name = String::from_str(alloc, error_front(cause))?;
    name.push_str(cause.last_part())?;
    Ok(name)
}

/// The error that tells why a call is refused.
pub fn refused(alloc: Global, answered: u32, cause: ErrorCause) -> Result<WireOut, NoMemory>
    requires { 0 < answered }
    ensures message { IfOk result (λ out. outgoing out ≡ error_of answered (error_name_of cause) (error_text cause)) }
    ensures form { IfOk result (λ out. MayBeSent (outgoing out)) }
{
    let name = error_name(alloc, cause)?;
    refusal(alloc, answered, name.as_str(), cause.text())
}
