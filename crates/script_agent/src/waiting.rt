// Waiting on a link for a message that tells something.
ghost use Rattle.std.specs.Prelude.{◌≡◌, ◌<◌, IfOk};
ghost use Rattle.client_messages.specs.Agents.{begin_of};
ghost use Rattle.client_link.specs.Faults.{faults_after};
ghost use Rattle.script_agent.specs.Waits.{Hears, refusal_in, refusal_of};

use client_link::{LinkStop, next_answer, next_begin};
use client_messages::{AgentBegin, ClientAnswer};
use pk_outside::Source;
use source_buffer::MessageBuffer;
use std::alloc::Global;

/// Whether an answer refuses a call, where it settles it.
fn refusal_in(answer: &ClientAnswer) -> Option<bool>
    ensures refusal { result ≡ refusal_in answer.now }
{
    match answer {
        ClientAnswer::Done => Some(false),
        ClientAnswer::ErrorNamed(_) => Some(true),
        _ => None,
    }
}

/// Reads messages up to the reply to the call with this serial, and answers whether it is an error.
#[tactic(none)]
pub fn await_refusal<I: Source>(
    alloc: Global,
    serial: u32,
    source: &mut I,
    buffer: &mut MessageBuffer,
) -> Result<bool, LinkStop>
    ensures hears { Hears (refusal_of serial) (I.left source.old) (I.left source.new) (I.ended source.new) buffer.old buffer.new result }
    ensures faults { I.faults source.new ≡ faults_after (I.faults source.old) result }
    ensures origin { I.origin source.new ≡ I.origin source.old }
{
    'messages: loop {
        let answer = next_answer(alloc, serial, source, buffer)?;
        if let Some(refused) = refusal_in(&answer) {
            return Ok(refused);
        }
    }
}

/// Reads messages up to the next that asks to begin a challenge.
#[tactic(none)]
pub fn await_begin<I: Source>(
    alloc: Global,
    source: &mut I,
    buffer: &mut MessageBuffer,
) -> Result<AgentBegin, LinkStop>
    ensures hears { Hears begin_of (I.left source.old) (I.left source.new) (I.ended source.new) buffer.old buffer.new result }
    ensures serial { IfOk result (λ begin. 0 < begin.serial) }
    ensures faults { I.faults source.new ≡ faults_after (I.faults source.old) result }
    ensures origin { I.origin source.new ≡ I.origin source.old }
{
    'messages: loop {
        let asked = next_begin(alloc, source, buffer)?;
        if let Some(begin) = asked {
            return Ok(begin);
        }
    }
}
