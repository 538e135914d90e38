// The messages that a client is sent, one after another.
ghost use Rattle.std.specs.Prelude.{◌≡◌, ◌+◌, ◌<◌, ◌++◌, ℕ, List, length, OnOk};
ghost use Rattle.pk_outside.specs.Streams.{Gave};
ghost use Rattle.client_messages.specs.Answers.{answer_of};
ghost use Rattle.client_messages.specs.Agents.{begin_of};
ghost use Rattle.client_link.specs.Faults.{faults_after};
ghost use Rattle.client_link.specs.Messages.{Brings};

use crate::awaiting::await_message;
use crate::stop::LinkStop;
use client_messages::{AgentBegin, ClientAnswer, answer_of, begin_of};
use dbus_values::{Next, next_message};
use pk_outside::Source;
use source_buffer::MessageBuffer;
use std::alloc::Global;

/// Reads the next message, and answers what it tells of the client's call with this serial.
///
/// # Errors
/// `BadBytes` exactly where the bytes behind the messages taken have a fault, with its place in them;
/// `Cut` exactly where the link ended before the end of a message; `Failed` exactly where the source
/// failed and counted one fault; `NoMemory`, which may come in place of any other answer.
pub fn next_answer<I: Source>(
    alloc: Global,
    serial: u32,
    source: &mut I,
    buffer: &mut MessageBuffer,
) -> Result<ClientAnswer, LinkStop>
    ensures brings { (read : List ℕ) × Gave (I.left source.old) (I.left source.new) read × Brings (answer_of serial) (I.ended source.new) (buffer.old ++ read) buffer.new result }
    ensures faults { I.faults source.new ≡ faults_after (I.faults source.old) result }
    ensures same { I.origin source.new ≡ I.origin source.old }
    ensures fewer { OnOk result (I.budget source.new + length buffer.new < I.budget source.old + length buffer.old) }
{
    await_message(source, buffer)?;
    match next_message(buffer.bytes()) {
        Next::Whole { message, used } => {
            let answer = answer_of(alloc, &message, serial)?;
            buffer.take(used);
            Ok(answer)
        }
        Next::Bad { .. } => unreachable!(),
        Next::Partial => unreachable!(),
    }
}

/// Reads the next message, and answers what it asks an agent to begin, if that is what it asks.
///
/// # Errors
/// As those of [`next_answer`].
pub fn next_begin<I: Source>(
    alloc: Global,
    source: &mut I,
    buffer: &mut MessageBuffer,
) -> Result<Option<AgentBegin>, LinkStop>
    ensures brings { (read : List ℕ) × Gave (I.left source.old) (I.left source.new) read × Brings begin_of (I.ended source.new) (buffer.old ++ read) buffer.new result }
    ensures faults { I.faults source.new ≡ faults_after (I.faults source.old) result }
    ensures same { I.origin source.new ≡ I.origin source.old }
    ensures fewer { OnOk result (I.budget source.new + length buffer.new < I.budget source.old + length buffer.old) }
{
    await_message(source, buffer)?;
    match next_message(buffer.bytes()) {
        Next::Whole { message, used } => {
            let begin = begin_of(alloc, &message)?;
            buffer.take(used);
            Ok(begin)
        }
        Next::Bad { .. } => unreachable!(),
        Next::Partial => unreachable!(),
    }
}
