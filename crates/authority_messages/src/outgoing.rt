// Messages of the four types.
ghost use Rattle.std.specs.Prelude.{◌≡◌, ℕ, [], ◌∷◌, List};
ghost use Rattle.dbus_values.specs.Trees.{Tree};
ghost use Rattle.authority_messages.specs.Outgoing.{outgoing, return_to as return_of, error_to as error_of, call_at as call_of, signal_of as signal_sent};
ghost use Rattle.authority_messages.specs.Values.{string};
ghost use Rattle.authority_messages.specs.Built.{Rows};

use authority_calls::NO_REPLY_EXPECTED;
use dbus_values::{ERROR, HeaderOut, METHOD_CALL, METHOD_RETURN, SIGNAL, ValueList, WireOut};
use pk_types::Text;

/// The type of no message (the D-Bus Specification, "Message Format").
pub const INVALID: u8 = 0;

/// A return to the call with this serial.
pub fn return_to(answered: u32, body: ValueList) -> WireOut
    ensures message { (deep : ℕ) (ts : List Tree) → Rows deep body ts → outgoing result ≡ return_of answered ts }
{
    WireOut {
        kind: METHOD_RETURN,
        flags: NO_REPLY_EXPECTED,
        fields: HeaderOut {
            path: None,
            interface: None,
            member: None,
            error_name: None,
            reply_serial: Some(answered),
        },
        body,
    }
}

/// An error to the call with this serial.
pub fn error_to(answered: u32, name: Text, body: ValueList) -> WireOut
    ensures message { (deep : ℕ) (text : List ℕ) → Rows deep body (string text ∷ []) → outgoing result ≡ error_of answered name text }
{
    WireOut {
        kind: ERROR,
        flags: NO_REPLY_EXPECTED,
        fields: HeaderOut {
            path: None,
            interface: None,
            member: None,
            error_name: Some(name),
            reply_serial: Some(answered),
        },
        body,
    }
}

/// Whom a call goes to, or a signal comes from: an object's path, an interface and a member.
#[derive(Drop)]
pub struct Member {
    pub path: Text,
    pub interface: Text,
    pub member: Text,
}

/// A call of a member.
pub fn call_at(flags: u8, to: Member, body: ValueList) -> WireOut
    ensures message { (deep : ℕ) (ts : List Tree) → Rows deep body ts → outgoing result ≡ call_of flags to.path to.interface to.member ts }
{
    let Member {
        path,
        interface,
        member,
    } = to;
    WireOut {
        kind: METHOD_CALL,
        flags,
        fields: HeaderOut {
            path: Some(path),
            interface: Some(interface),
            member: Some(member),
            error_name: None,
            reply_serial: None,
        },
        body,
    }
}

/// A signal without a body.
pub fn signal_of(from: Member, body: ValueList) -> WireOut
    ensures message { (deep : ℕ) → Rows deep body [] → outgoing result ≡ signal_sent from.path from.interface from.member }
{
    let Member {
        path,
        interface,
        member,
    } = from;
    WireOut {
        kind: SIGNAL,
        flags: NO_REPLY_EXPECTED,
        fields: HeaderOut {
            path: Some(path),
            interface: Some(interface),
            member: Some(member),
            error_name: None,
            reply_serial: None,
        },
        body,
    }
}
