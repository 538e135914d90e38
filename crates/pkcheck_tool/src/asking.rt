// The conversation with the server: the handshake, one call, and messages until the reply.
ghost use Rattle.std.specs.Prelude.{◌≡◌, ◌++◌, ℕ, List, IfOk, IsTrue, false};
ghost use Rattle.pk_outside.specs.Allowing.{IsFree};
ghost use Rattle.pk_outside.specs.Streams.{Gave, IsUsedUp};
ghost use Rattle.authority_messages.specs.Messages.{is_over};
ghost use Rattle.client_messages.specs.Calls.{call_for};
ghost use Rattle.client_link.specs.Sending.{Sends};
ghost use Rattle.client_link.specs.Faults.{LinkFaults, faults_after};
ghost use Rattle.pkcheck_tool.specs.Asking.{Awaits, Converses, check_bytes, check_call, flags_of};

use crate::reply::{Reply, reply_of};
use authority_model::{ALLOW_USER_INTERACTION, Call};
use client_commands::CheckPlan;
use client_link::{LinkStop, next_answer, send_call, shake_hands};
use pk_outside::{Sink, Source};
use pk_types::{List, NoMemory, Subject, Text};
use source_buffer::MessageBuffer;
use std::alloc::Global;

/// The serial of the one call.
pub const SERIAL: u32 = 1;

/// The flags of the call.
fn flags_of(ask: bool) -> u32
    ensures exact { result ≡ flags_of ask }
{
    if ask { ALLOW_USER_INTERACTION } else { 0 }
}

/// CheckAuthorization of a process, which is short.
fn check_call(
    alloc: Global,
    pid: u32,
    start: u64,
    action: &Text,
    ask: bool,
) -> Result<Call, NoMemory>
    ensures call { IfOk result (λ call. call ≡ check_call pid start action.now ask) }
    ensures short { IfOk result (λ call. is_over (call_for call) ≡ false) }
{
    let action = Text::of_known(alloc, action.bytes())?;
    Ok(Call::Check {
        subject: Subject::Process { pid, start },
        action,
        details: List::new(alloc),
        flags: flags_of(ask),
        cancel: Text::new(alloc),
    })
}

/// Sends the call that a plan asks.
fn send_check<O: Sink>(alloc: Global, plan: &CheckPlan, sink: &mut O) -> Result<(), LinkStop>
    requires free { IsFree O.allowed }
    ensures sends { Sends (O.held sink.old) (O.held sink.new) (check_bytes plan.now) result }
    ensures faults { O.faults sink.new ≡ faults_after (O.faults sink.old) result }
{
    let call = check_call(alloc, plan.pid, plan.start, &plan.action, plan.ask)?;
    send_call(alloc, &call, SERIAL, sink)
}

/// Reads messages until the reply.
fn await_reply<I: Source>(
    alloc: Global,
    source: &mut I,
    buffer: &mut MessageBuffer,
) -> Result<Reply, LinkStop>
    ensures awaits { (read : List ℕ) × Gave (I.left source.old) (I.left source.new) read × Awaits (I.ended source.new) (buffer.old ++ read) result }
    ensures faults { I.faults source.new ≡ faults_after (I.faults source.old) result }
    ensures same { I.origin source.new ≡ I.origin source.old }
{
    'messages: loop {
        let answer = next_answer(alloc, SERIAL, source, buffer)?;
        if let Some(reply) = reply_of(answer) {
            return Ok(reply);
        }
    }
}

/// Shakes hands, asks what the plan says, and reads messages until the reply.
pub fn converse<I: Source, O: Sink>(
    alloc: Global,
    plan: &CheckPlan,
    source: &mut I,
    sink: &mut O,
) -> Result<Reply, LinkStop>
    requires free { IsFree O.allowed }
    ensures converses { Converses plan.now (I.left source.old) (I.left source.new) (I.ended source.new) (O.held sink.old) (O.held sink.new) result }
    ensures faults { LinkFaults (I.faults source.old) (I.faults source.new) (O.faults sink.old) (O.faults sink.new) result }
    ensures same { I.origin source.new ≡ I.origin source.old }
    ensures all { IsTrue (I.ended source.new) → IsUsedUp (I.left source.new) }
{
    let mut buffer = MessageBuffer::new(alloc)?;
    shake_hands(alloc, plan.uid, source, sink, &mut buffer)?;
    send_check(alloc, plan, sink)?;
    await_reply(alloc, source, &mut buffer)
}
