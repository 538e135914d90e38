// The subject at the front of the arguments of a check, in its usual forms.
ghost use Rattle.std.specs.Prelude.{◌≡◌, ◌<◌, ◌+◌, ◌^◌, ◌++◌, false, length, IfOk, IfSome};
ghost use Rattle.std.specs.Int.{w32, w64};
ghost use Rattle.dbus_values.specs.Trees.{bytes_of, marshalled};
ghost use Rattle.authority_messages.specs.Values.{string};
ghost use Rattle.usual_calls.specs.Forms.{BeginsWithSubject};

use crate::fronts::{after, text_from, u32_from, u64_from};
use pk_types::{NoMemory, Subject, Text, TextFault};
use std::alloc::Global;

/// The kind of a process.
const PROCESS: &[u8] = b"\x0c\0\0\0unix-process\0\0\0\0";

/// The key of a process id, and the type of its value.
const PID: &[u8] = b"\x03\0\0\0pid\0\x01u\0\0";

/// The key of a start time, and the type of its value.
const START_TIME: &[u8] = b"\x0a\0\0\0start-time\0\x01t\0\0\0\0\0\0\0";

/// The key of a user id, and the type of its value.
const UID: &[u8] = b"\x03\0\0\0uid\0\x01i\0\0";

/// The kind of a session.
const SESSION: &[u8] = b"\x0c\0\0\0unix-session\0\0\0\0";

/// The key of a session's id, and the type of its value.
const SESSION_ID: &[u8] = b"\x0a\0\0\0session-id\0\x01s\0\0\0";

/// The kind of a connection of the bus.
const BUS_NAME: &[u8] = b"\x0f\0\0\0system-bus-name\0";

/// The key of a connection's name, and the type of its value.
const NAME: &[u8] = b"\x04\0\0\0name\0\x01s\0";

/// The size of a process's dictionary, the pid and the start time, and what follows them.
fn numbers_from(body: &[u8]) -> Option<(u32, u32, u64, &[u8])>
    ensures numbers { IfSome result (λ (size, pid, start, rest). body.now ≡ PROCESS.now ++ (bytes_of false w32 size ++ (PID.now ++ (bytes_of false w32 pid ++ (START_TIME.now ++ (bytes_of false w64 start ++ rest.now)))))) }
    ensures pid { IfSome result (λ (_, pid, _, _). pid < 2 ^ 32) }
    ensures start { IfSome result (λ (_, _, start, _). start < 2 ^ 64) }
{
    let bytes = after(body, PROCESS)?;
    let (size, bytes) = u32_from(bytes)?;
    let bytes = after(bytes, PID)?;
    let (pid, bytes) = u32_from(bytes)?;
    let bytes = after(bytes, START_TIME)?;
    let (start, rest) = u64_from(bytes)?;
    Some((size, pid, start, rest))
}

/// A process, by its pid and its start time; the uid of its user may follow.
#[tactic(auto, using(crate::proofs::Forms::begins_process, crate::proofs::Forms::begins_with_uid))]
fn process_from(body: &[u8]) -> Option<(Subject, &[u8])>
    ensures subject { IfSome result (λ (subject, rest). BeginsWithSubject subject body.now rest.now) }
{
    let (size, pid, start, rest) = numbers_from(body)?;
    let subject = Subject::Process { pid, start };
    if size == 48 {
        return Some((subject, rest));
    }
    if size == 64 {
        let bytes = after(rest, UID)?;
        let (_uid, rest) = u32_from(bytes)?;
        return Some((subject, rest));
    }
    None
}

/// The text that these bytes are.
pub fn text_of(alloc: Global, bytes: &[u8]) -> Result<Option<Text>, NoMemory>
    ensures text { IfOk result (λ found. IfSome found (λ text. text ≡ bytes.now)) }
{
    match Text::try_from_bytes(alloc, bytes) {
        Ok(text) => Ok(Some(text)),
        Err(TextFault::NoMemory) => Err(NoMemory),
        Err(_) => Ok(None),
    }
}

/// What is known by one text: the text, and what follows it.
fn known_from<'a>(body: &'a [u8], kind: &[u8], key: &[u8]) -> Option<(&'a [u8], &'a [u8])>
    ensures known { IfSome result (λ (text, rest). body.now ≡ kind.now ++ (bytes_of false w32 (length key.now + 5 + length text.now) ++ (key.now ++ (marshalled false 0 (string text.now) ++ rest.now)))) }
{
    let bytes = after(body, kind)?;
    let (size, bytes) = u32_from(bytes)?;
    let bytes = after(bytes, key)?;
    let (text, rest) = text_from(bytes, 0)?;
    if size as usize == key.len() + 5 + text.len() {
        Some((text, rest))
    } else {
        None
    }
}

/// A session, by its id.
#[tactic(auto, using(crate::proofs::Forms::begins_session))]
fn session_from(alloc: Global, body: &[u8]) -> Result<Option<(Subject, &[u8])>, NoMemory>
    ensures subject { IfOk result (λ found. IfSome found (λ (subject, rest). BeginsWithSubject subject body.now rest.now)) }
{
    let Some((text, rest)) = known_from(body, SESSION, SESSION_ID) else {
        return Ok(None);
    };
    let Some(id) = text_of(alloc, text)? else {
        return Ok(None);
    };
    Ok(Some((Subject::Session { id }, rest)))
}

/// A connection of the bus, by its name.
#[tactic(auto, using(crate::proofs::Forms::begins_bus_name))]
fn bus_name_from(alloc: Global, body: &[u8]) -> Result<Option<(Subject, &[u8])>, NoMemory>
    ensures subject { IfOk result (λ found. IfSome found (λ (subject, rest). BeginsWithSubject subject body.now rest.now)) }
{
    let Some((text, rest)) = known_from(body, BUS_NAME, NAME) else {
        return Ok(None);
    };
    let Some(name) = text_of(alloc, text)? else {
        return Ok(None);
    };
    Ok(Some((Subject::BusName { name }, rest)))
}

/// The subject at the front of the arguments, and what follows it.
pub fn subject_from(alloc: Global, body: &[u8]) -> Result<Option<(Subject, &[u8])>, NoMemory>
    ensures subject { IfOk result (λ found. IfSome found (λ (subject, rest). BeginsWithSubject subject body.now rest.now)) }
{
    if let Some(found) = process_from(body) {
        return Ok(Some(found));
    }
    if let Some(found) = session_from(alloc, body)? {
        return Ok(Some(found));
    }
    bus_name_from(alloc, body)
}
