// What is known of a connection after its own event.
ghost use Rattle.std.specs.Prelude.{◌≡◌, option_and_then};
ghost use Rattle.authority_model.specs.Peers.{uid_given, is_depart, call_in, process_named};
ghost use Rattle.peer_changes.specs.Next.{accepted, may_announce, row_after};

use authority_model::{Call, Event, ProcessId, World};
use entry_changes::Peer;

/// The uid of a Connect.
fn uid_in(event: &Event) -> Option<u32>
    ensures uid { result ≡ uid_given event.now }
{
    match event {
        Event::Connect { uid } => Some(*uid),
        _ => None,
    }
}

/// The process that a call announces.
fn process_in(call: &Call) -> Option<ProcessId>
    ensures process { result ≡ process_named call.now }
{
    match call {
        Call::Announce { pid, start } => Some(ProcessId {
            pid: *pid,
            start: *start,
        }),
        _ => None,
    }
}

/// The process that an event announces.
fn process_of(event: &Event) -> Option<ProcessId>
    ensures process { result ≡ option_and_then process_named (call_in event.now) }
{
    match event {
        Event::Call { call, .. } => process_in(call),
        _ => None,
    }
}

/// Whether a connection with this row may announce a process: it is live, the world lists the
/// process, and the process is its user's, or it is root's.
fn may_announce(world: &World, row: Peer, process: ProcessId) -> bool
    ensures may { result ≡ may_announce world.now row process }
{
    if row.departed {
        return false;
    }
    match world.process(process.pid, process.start) {
        Some(found) => row.may_for(found.uid),
        None => false,
    }
}

/// The process that an event of a connection with this row announces, where that is accepted.
fn accepted(world: &World, row: Peer, event: &Event) -> Option<ProcessId>
    ensures process { result ≡ accepted world.now row event.now }
{
    let process = process_of(event)?;
    if may_announce(world, row, process) {
        Some(process)
    } else {
        None
    }
}

/// What is known of a connection after its own event, in the world in force then.
pub fn known_after(world: &World, row: Option<Peer>, event: &Event) -> Option<Peer>
    ensures row { result ≡ row_after world.now row event.now }
{
    match row {
        None => match uid_in(event) {
            Some(uid) => Some(Peer {
                uid,
                departed: false,
                announced: None,
            }),
            None => None,
        },
        Some(row) => Some(Peer {
            uid: row.uid,
            departed: row.departed || matches!(event, Event::Depart),
            announced: accepted(world, row, event).or(row.announced),
        }),
    }
}
