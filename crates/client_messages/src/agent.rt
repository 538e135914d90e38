// What an agent is asked, and what it replies.
ghost use Rattle.std.specs.Prelude.{◌≡◌, ◌<◌, ◌≤◌, ◌++◌, ℕ, List, [], false, length, IsTrue, IfOk};
ghost use Rattle.std.specs.Option.{option_map};
ghost use Rattle.dbus_values.specs.Form.{WireForm, message_bytes, shown_of};
ghost use Rattle.dbus_values.specs.Next.{Whole, next_of, seen};
ghost use Rattle.authority_calls.specs.Arguments.{Takes};
ghost use Rattle.authority_messages.specs.Plain.{is_plain};
ghost use Rattle.authority_messages.specs.Outgoing.{outgoing, under, return_to as return_of, error_to as error_of, IsSent};
ghost use Rattle.client_messages.specs.Agents.{is_named, is_begin, question, begin_of, reply_for};

use authority_calls::arguments::{behind, bytes, enter, text};
use authority_calls::fault::ArgumentFault;
use authority_messages::AGENT;
use authority_messages::replies::{done, refusal};
use dbus_values::{METHOD_CALL, Parts, WireMessage, WireOut, write_message};
use pk_types::{ByteList, NoMemory, Text};
use std::alloc::Global;

/// The member by which an agent is asked.
pub const BEGIN_AUTHENTICATION: &str = "BeginAuthentication";

/// The signature of its arguments: action, message, icon, details, cookie, identities.
pub const BEGIN_TAKES: &str = "sssa{ss}sa(sa{sv})";

/// What an agent is asked (BeginAuthentication in the reference manual).
#[derive(Drop)]
pub struct AgentBegin {
    /// The serial of the call, to which the agent replies.
    pub serial: u32,
    /// The action that is to be authorized.
    pub action: Text,
    /// The cookie of the challenge.
    pub cookie: Text,
}

/// What an agent replies to BeginAuthentication.
#[derive(Clone, Copy, Debug, PartialEq, Eq)]
pub enum AgentReply {
    /// An empty return: the dialogue has ended.
    Return,
    /// The error org.freedesktop.PolicyKit1.Error.Failed.
    Failed,
    /// The error org.freedesktop.PolicyKit1.Error.Cancelled: the user dismissed the dialogue.
    Cancelled,
}

/// Whether there is a name, and it is this one.
fn is_named(name: &[u8], found: Option<&[u8]>) -> bool
    ensures exact { result ≡ is_named name.now (option_map (λ b. b.now) found.entry) }
{
    match found {
        Some(found) => found == name,
        None => false,
    }
}

/// Whether a message is a call of BeginAuthentication.
fn is_begin(message: &WireMessage) -> bool
    ensures exact { result ≡ is_begin (seen message.now) }
{
    message.kind == METHOD_CALL
        && is_named(AGENT.as_bytes(), message.interface)
        && is_named(BEGIN_AUTHENTICATION.as_bytes(), message.member)
        && message.signature == BEGIN_TAKES.as_bytes()
}

/// The arguments of BeginAuthentication, up to the cookie.
#[tactic(auto, unfolding(crate::specs::Agents::question))]
fn question(alloc: Global, serial: u32, parts: &mut Parts) -> Result<AgentBegin, ArgumentFault>
    ensures exact { Takes (question serial) parts.old parts.new result }
{
    let action = text(alloc, parts)?;
    bytes(parts)?;
    bytes(parts)?;
    enter(parts)?;
    behind(parts, 1)?;
    let cookie = text(alloc, parts)?;
    Ok(AgentBegin {
        serial,
        action,
        cookie,
    })
}

/// What a message asks of an agent, and `None` exactly where it is not a call of BeginAuthentication
/// of the agents' interface with that method's signature, or where its action or its cookie has more
/// than 65,535 bytes. The object of the call is not looked at.
///
/// # Errors
/// `NoMemory` alone.
pub fn begin_of(alloc: Global, message: &WireMessage) -> Result<Option<AgentBegin>, NoMemory>
    ensures exact { IfOk result (λ asked. asked ≡ begin_of (seen message.now)) }
{
    if !is_begin(message) {
        return Ok(None);
    }
    let mut parts = message.body();
    match question(alloc, message.serial, &mut parts) {
        Ok(asked) => Ok(Some(asked)),
        Err(ArgumentFault::OutOfForm) => Ok(None),
        Err(ArgumentFault::NoMemory) => Err(NoMemory),
    }
}

/// An empty return.
fn return_out(alloc: Global, to: u32) -> WireOut
    requires { 0 < to }
    ensures message { outgoing result ≡ return_of to [] }
    ensures form { IsSent (outgoing result) }
{
    done(alloc, to)
}

/// An error with a short name and a short text.
fn error_out(alloc: Global, to: u32, name: &str, text: &str) -> Result<WireOut, NoMemory>
    requires to { 0 < to }
    requires name { IsTrue (is_plain name.now) }
    requires text { IsTrue (is_plain text.now) }
    requires short_name { length name.now ≤ 64 }
    requires short_text { length text.now ≤ 64 }
    ensures message { IfOk result (λ out. outgoing out ≡ error_of to name.now text.now) }
    ensures form { IfOk result (λ out. IsSent (outgoing out)) }
{
    refusal(alloc, to, name, text)
}

/// The message of a reply.
fn reply_out(alloc: Global, reply: AgentReply, to: u32) -> Result<WireOut, NoMemory>
    requires { 0 < to }
    ensures message { IfOk result (λ out. outgoing out ≡ reply_for reply to) }
    ensures form { IfOk result (λ out. IsSent (outgoing out)) }
{
    match reply {
        AgentReply::Return => Ok(return_out(alloc, to)),
        AgentReply::Failed => error_out(
            alloc,
            to,
            "org.freedesktop.PolicyKit1.Error.Failed",
            "failed",
        ),
        AgentReply::Cancelled => error_out(
            alloc,
            to,
            "org.freedesktop.PolicyKit1.Error.Cancelled",
            "dismissed",
        ),
    }
}

/// The bytes of an agent's reply to the call with the serial `to`, little-endian (the D-Bus
/// Specification, "Message Format"). `serial` is the reply's own. Neither may be 0.
///
/// # Errors
/// `NoMemory` alone.
pub fn agent_reply(
    alloc: Global,
    reply: AgentReply,
    to: u32,
    serial: u32,
) -> Result<ByteList, NoMemory>
    requires to { 0 < to }
    requires serial { 0 < serial }
    // The bytes are those of the reply's message.
    ensures exact { IfOk result (λ bytes. bytes ≡ message_bytes false (under serial (reply_for reply to))) }
    // They have the form of that message.
    ensures form { IfOk result (λ bytes. WireForm bytes (under serial (reply_for reply to))) }
    // What was written is read again, whatever follows it.
    ensures again { IfOk result (λ bytes. (more : List ℕ) → next_of (bytes ++ more) ≡ Whole (shown_of (under serial (reply_for reply to))) (length bytes)) }
{
    let out = reply_out(alloc, reply, to)?;
    write_message(alloc, &out, serial)
}
