// The message of an output, at the end of bytes.
ghost use Rattle.std.specs.Prelude.{◌≡◌, ◌<◌, ◌++◌, List, false, true, IfOk, OnOk};
ghost use Rattle.authority_model.specs.declared.load.Loaded.{Loaded};
ghost use Rattle.authority_messages.specs.Messages.{is_message, message_for, reply, AnswersCall};
ghost use Rattle.authority_messages.specs.Outgoing.{under};
ghost use Rattle.dbus_values.specs.Form.{message_bytes};

use crate::verdict_bytes::put_usual_verdict;
use authority_messages::message_of;
use authority_model::{Answer, History, Message, Output};
use pk_types::NoMemory;
use std::alloc::Global;

/// Puts the reply that gives an answer at the end of the bytes, if it is a usual one. The answer is
/// whether it did.
fn put_usual_answer(
    alloc: Global,
    serial: u32,
    answered: u32,
    answer: &Answer,
    out: &mut Vec<u8>,
) -> Result<bool, NoMemory>
    ensures put { IfOk result (λ did. did ≡ true → (loads : List Loaded) → out.new.items ≡ out.old.items ++ message_bytes false (under serial (reply loads answered answer.now))) }
    ensures kept { IfOk result (λ did. did ≡ false → out.new.items ≡ out.old.items) }
{
    match answer {
        Answer::Verdict(verdict) => put_usual_verdict(alloc, serial, answered, verdict, out),
        _ => Ok(false),
    }
}

/// Puts the message of an output at the end of the bytes, if it is a usual one. The answer is whether
/// it did.
fn put_usual(
    alloc: Global,
    output: &Output,
    serial: u32,
    out: &mut Vec<u8>,
) -> Result<bool, NoMemory>
    ensures put { IfOk result (λ did. did ≡ true → (loads : List Loaded) → out.new.items ≡ out.old.items ++ message_bytes false (under serial (message_for loads output.now.message))) }
    ensures kept { IfOk result (λ did. did ≡ false → out.new.items ≡ out.old.items) }
{
    match &output.message {
        Message::Reply {
            serial: answered,
            answer,
        } => put_usual_answer(alloc, serial, *answered, answer, out),
        _ => Ok(false),
    }
}

/// Puts the message of an output at the end of the bytes, as `authority_messages::message_of` gives it. Most replies to
/// checks are put straight as bytes, since they are most of what is sent.
///
/// # Errors
/// `NoMemory` alone.
pub fn put_message_of(
    alloc: Global,
    output: &Output,
    history: &History,
    serial: u32,
    out: &mut Vec<u8>,
) -> Result<(), NoMemory>
    requires message { is_message output.now.message ≡ true }
    requires answered { AnswersCall output.now.message }
    requires serial { 0 < serial }
    // The bytes are those of the output's message.
    ensures put { OnOk result (out.new.items ≡ out.old.items ++ message_bytes false (under serial (message_for history.now.loads output.now.message))) }
{
    if put_usual(alloc, output, serial, out)? {
        return Ok(());
    }
    let bytes = message_of(alloc, output, history, serial)?;
    out.extend_from_slice(bytes.as_slice())?;
    Ok(())
}
