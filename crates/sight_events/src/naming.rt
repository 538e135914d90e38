// The process that an event names.
ghost use Rattle.std.specs.Prelude.{◌≡◌};
ghost use Rattle.sight_events.specs.Named as naming;

use authority_model::{Call, Event};
use pk_types::Subject;

/// The process that a subject is.
fn process_of(subject: &Subject) -> Option<(u32, u64)>
    ensures process { result ≡ naming.process_of subject.now }
{
    match subject {
        Subject::Process { pid, start } => Some((*pid, *start)),
        Subject::Session { .. } | Subject::BusName { .. } => None,
    }
}

/// The process that a call names.
fn process_in(call: &Call) -> Option<(u32, u64)>
    ensures process { result ≡ naming.process_in call.now }
{
    match call {
        Call::Announce { pid, start } => Some((*pid, *start)),
        Call::Check { subject, .. }
        | Call::Register { subject, .. }
        | Call::Unregister { subject, .. }
        | Call::EnumerateGrants { subject }
        | Call::RevokeAll { subject } => process_of(subject),
        _ => None,
    }
}

/// The process that an event names, by its pid and its start: that of an Announce, or the subject of
/// a Check, a Register, an Unregister, an EnumerateGrants or a RevokeAll where this is a process
/// (Subject in the reference manual). None exactly for other events and subjects. It takes no memory.
pub fn named(event: &Event) -> Option<(u32, u64)>
    ensures process { result ≡ naming.named event.now }
{
    match event {
        Event::Call { call, .. } => process_in(call),
        _ => None,
    }
}
