// Subjects.
ghost use Rattle.std.specs.Prelude.{◌≡◌};
ghost use Rattle.authority_calls.specs.Arguments.{Takes};
ghost use Rattle.authority_calls.specs.Subjects.{process, session, bus_name, subject_of, subject};

use crate::arguments::{as_text, as_u32, as_u64, bytes, enter, leave};
use crate::dictionary::{one, two};
use crate::fault::ArgumentFault;
use dbus_values::Parts;
use pk_types::Subject;
use std::alloc::Global;

/// The dictionary of a `unix-process`.
fn process(parts: &mut Parts) -> Result<Subject, ArgumentFault>
    ensures exact { Takes process parts.old parts.new result }
{
    let (pid, start) = two(parts, b"pid", b"start-time")?;
    let pid = as_u32(pid)?;
    let start = as_u64(start)?;
    Ok(Subject::Process { pid, start })
}

/// The dictionary of a `unix-session`.
fn session(alloc: Global, parts: &mut Parts) -> Result<Subject, ArgumentFault>
    ensures exact { Takes session parts.old parts.new result }
{
    let id = one(parts, b"session-id")?;
    let id = as_text(alloc, id)?;
    Ok(Subject::Session { id })
}

/// The dictionary of a `system-bus-name`.
fn bus_name(alloc: Global, parts: &mut Parts) -> Result<Subject, ArgumentFault>
    ensures exact { Takes bus_name parts.old parts.new result }
{
    let name = one(parts, b"name")?;
    let name = as_text(alloc, name)?;
    Ok(Subject::BusName { name })
}

/// The dictionary of a subject of this kind.
fn subject_of(alloc: Global, kind: &[u8], parts: &mut Parts) -> Result<Subject, ArgumentFault>
    ensures exact { Takes (subject_of kind.now) parts.old parts.new result }
{
    if kind == b"unix-process".as_slice() {
        process(parts)
    } else if kind == b"unix-session".as_slice() {
        session(alloc, parts)
    } else if kind == b"system-bus-name".as_slice() {
        bus_name(alloc, parts)
    } else {
        Err(ArgumentFault::OutOfForm)
    }
}

/// The structure Subject of the reference manual.
#[tactic(auto, unfolding(crate::specs::Subjects::subject))]
pub fn subject(alloc: Global, parts: &mut Parts) -> Result<Subject, ArgumentFault>
    ensures exact { Takes subject parts.old parts.new result }
{
    enter(parts)?;
    let kind = bytes(parts)?;
    let subject = subject_of(alloc, kind, parts)?;
    leave(parts)?;
    Ok(subject)
}
