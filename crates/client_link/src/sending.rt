// What a client sends.
ghost use Rattle.std.specs.Prelude.{◌≡◌, ◌<◌, IsSome, false};
ghost use Rattle.pk_outside.specs.Allowing.{IsFree};
ghost use Rattle.dbus_values.specs.Form.{message_bytes};
ghost use Rattle.authority_messages.specs.Messages.{is_over};
ghost use Rattle.authority_messages.specs.Outgoing.{under};
ghost use Rattle.client_messages.specs.Agents.{reply_for};
ghost use Rattle.client_messages.specs.Calls.{call_for, method_of};
ghost use Rattle.client_link.specs.Faults.{faults_after};
ghost use Rattle.client_link.specs.Sending.{Sends};

use crate::stop::LinkStop;
use authority_model::Call;
use client_messages::{AgentReply, agent_reply, call_bytes};
use pk_outside::{Sink, write_all};
use std::alloc::Global;

/// Sends a call of the authority, as the message with this serial. The call has to be one of a method
/// whose message is not too long, and the serial may not be 0 (`client_messages::call_bytes`).
///
/// # Errors
/// `Failed` exactly where the sink failed and counted one fault: a prefix of the message was sent;
/// `NoMemory`, which may come in place of any other answer.
#[tactic(auto, using(pk_outside::proofs::Going::may_go_free))]
pub fn send_call<O: Sink>(
    alloc: Global,
    call: &Call,
    serial: u32,
    sink: &mut O,
) -> Result<(), LinkStop>
    requires method { IsSome (method_of call.now) }
    requires short { is_over (call_for call.now) ≡ false }
    requires serial { 0 < serial }
    requires free { IsFree O.allowed }
    ensures sends { Sends (O.held sink.old) (O.held sink.new) (message_bytes false (under serial (call_for call.now))) result }
    ensures faults { O.faults sink.new ≡ faults_after (O.faults sink.old) result }
{
    let bytes = call_bytes(alloc, call, serial)?;
    write_all(sink, bytes.as_slice())?;
    Ok(())
}

/// Sends what an agent replies to the message with the serial `to`, as the message with this serial.
/// Neither may be 0.
///
/// # Errors
/// `Failed` exactly where the sink failed and counted one fault: a prefix of the message was sent;
/// `NoMemory`, which may come in place of any other answer.
#[tactic(auto, using(pk_outside::proofs::Going::may_go_free))]
pub fn send_reply<O: Sink>(
    alloc: Global,
    reply: AgentReply,
    to: u32,
    serial: u32,
    sink: &mut O,
) -> Result<(), LinkStop>
    requires to { 0 < to }
    requires serial { 0 < serial }
    requires free { IsFree O.allowed }
    ensures sends { Sends (O.held sink.old) (O.held sink.new) (message_bytes false (under serial (reply_for reply to))) result }
    ensures faults { O.faults sink.new ≡ faults_after (O.faults sink.old) result }
{
    let bytes = agent_reply(alloc, reply, to, serial)?;
    write_all(sink, bytes.as_slice())?;
    Ok(())
}
