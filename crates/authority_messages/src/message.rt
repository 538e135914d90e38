// The message of an output.
ghost use Rattle.std.specs.Prelude.{◌≡◌, ◌<◌, ◌++◌, ℕ, List, false, true, if◌then◌else◌, length, IfOk};
ghost use Rattle.dbus_values.specs.Form.{WireForm, message_bytes, shown_of};
ghost use Rattle.dbus_values.specs.Next.{Whole, next_of};
ghost use Rattle.authority_messages.specs.Outgoing.{outgoing, under, MayBeSent, IsSent};
ghost use Rattle.authority_messages.specs.Messages.{is_unspoken, too_long as too_long_of, answering as answering_of, reply as reply_of, message_for, is_message, AnswersCall};

use crate::calls::{Dialogue, begin, cancel, changed};
use crate::limits::is_over;
use crate::lists::{actions, grants};
use crate::replies::{done, named, refused, too_long};
use crate::verdict::verdict;
use authority_model::{Answer, History, Loaded, Message, Output};
use dbus_values::{WireOut, write_message};
use pk_types::{ByteList, NoMemory};
use std::alloc::Global;

/// The reply that gives an answer, however long it is.
fn answering(
    alloc: Global,
    loads: &[Loaded],
    answered: u32,
    answer: &Answer,
) -> Result<WireOut, NoMemory>
    requires { 0 < answered }
    ensures message { IfOk result (λ out. outgoing out ≡ (if is_unspoken answer.now then too_long_of answered else answering_of loads.now answered answer.now)) }
    ensures form { IfOk result (λ out. MayBeSent (outgoing out)) }
{
    match answer {
        Answer::Verdict(told) => verdict(alloc, answered, told),
        Answer::Done => Ok(done(alloc, answered)),
        Answer::Name(name) => named(alloc, answered, name),
        Answer::Actions { load, locale } => actions(alloc, answered, loads, *load, locale),
        Answer::Grants(rows) => grants(alloc, answered, rows.as_slice()),
        Answer::Refused(cause) => refused(alloc, answered, *cause),
    }
}

/// The reply that gives an answer, or the error in place of one that is too long.
fn reply(
    alloc: Global,
    loads: &[Loaded],
    answered: u32,
    answer: &Answer,
) -> Result<WireOut, NoMemory>
    requires { 0 < answered }
    ensures message { IfOk result (λ out. outgoing out ≡ reply_of loads.now answered answer.now) }
    ensures form { IfOk result (λ out. IsSent (outgoing out)) }
{
    let whole = answering(alloc, loads, answered, answer)?;
    if is_over(&whole) {
        too_long(alloc, answered)
    } else {
        Ok(whole)
    }
}

/// The message that an output is.
fn message(alloc: Global, loads: &[Loaded], message: &Message) -> Result<WireOut, NoMemory>
    requires message { is_message message.now ≡ true }
    requires answered { AnswersCall message.now }
    ensures message { IfOk result (λ out. outgoing out ≡ message_for loads.now message.now) }
    ensures form { IfOk result (λ out. IsSent (outgoing out)) }
{
    match message {
        Message::Reply { serial, answer } => reply(alloc, loads, *serial, answer),
        Message::Begin {
            path,
            action,
            text,
            icon,
            details,
            cookie,
            identities,
        } => {
            let dialogue = Dialogue {
                path,
                action,
                text,
                icon,
                cookie: *cookie,
            };
            begin(alloc, dialogue, details.as_slice(), identities.as_slice())
        }
        Message::CancelBegin { path, cookie } => cancel(alloc, path, *cookie),
        Message::Changed => changed(alloc),
        Message::LoadWanted => unreachable!(),
        Message::StopWanted => unreachable!(),
    }
}

/// The message of an output as it is sent, little-endian (the D-Bus Specification, "Message
/// Format"). `serial` is the output's number among those to its connection, counted from 1.
///
/// A reply that would be longer than 16,777,216 bytes is the error LimitsExceeded instead, and so is
/// one whose reason would be longer than the 65,535 bytes of a text. A BeginAuthentication that would
/// be too long has no details and no identities.
///
/// The output may not be a request to the loader, and a call that it answers has a serial that is
/// not 0. The actions of a load that the history does not have are none.
///
/// # Errors
/// `NoMemory` alone.
pub fn message_of(
    alloc: Global,
    output: &Output,
    history: &History,
    serial: u32,
) -> Result<ByteList, NoMemory>
    requires message { is_message output.now.message ≡ true }
    requires answered { AnswersCall output.now.message }
    requires serial { 0 < serial }
    // The bytes are those of the output's message.
    ensures exact { IfOk result (λ bytes. bytes ≡ message_bytes false (under serial (message_for history.now.loads output.now.message))) }
    // They have the form of that message.
    ensures form { IfOk result (λ bytes. WireForm bytes (under serial (message_for history.now.loads output.now.message))) }
    // What was written is read again, whatever follows it.
    ensures again { IfOk result (λ bytes. (more : List ℕ) → next_of (bytes ++ more) ≡ Whole (shown_of (under serial (message_for history.now.loads output.now.message))) (length bytes)) }
{
    let out = message(alloc, history.loads.as_slice(), &output.message)?;
    write_message(alloc, &out, serial)
}
