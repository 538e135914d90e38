// The opening of a link, round by round.
ghost use Rattle.std.specs.Prelude.{◌≡◌, ◌+◌, ◌<◌, ◌≤◌, ℕ, List, Option, IfNone, MatchOption, length};
ghost use Rattle.link_opening.specs.Feeds.{Underway};
ghost use Rattle.link_opening.specs.Opens.{Opens, ReadFaults, WriteFaults};
ghost use Rattle.link_opening.specs.Replying.{MayGoOn, MayReply};

use crate::ends::Opening;
use crate::feeding::feed_bytes;
use link_handshake::Handshake;
use pk_outside::{Sink, Source};
use source_buffer::{Filled, MessageBuffer};

/// Feeds what the buffer holds, and then reads on.
fn open_round<I: Source, O: Sink>(
    shake: &mut Handshake,
    guid: u128,
    source: &mut I,
    sink: &mut O,
    buffer: &mut MessageBuffer,
) -> Option<Opening>
    requires may { MayGoOn O.allowed guid (I.left source.old) (O.held sink.old) buffer.old shake.old }
    ensures opens { (door : ℕ) (first : List ℕ) (left held : Option (List ℕ)) → Underway door guid first left (I.left source.old) held (O.held sink.old) buffer.old shake.old
        → MatchOption result (Underway door guid first left (I.left source.new) held (O.held sink.new) buffer.new shake.new)
        (λ opening. Opens door guid first left (I.left source.new) (I.ended source.new) held (O.held sink.new) buffer.new opening) }
    ensures read { MatchOption result (I.faults source.new ≡ I.faults source.old) (λ opening. ReadFaults I.left I.faults source.old source.new opening) }
    ensures write { MatchOption result (O.faults sink.new ≡ O.faults sink.old) (λ opening. WriteFaults O.held O.faults sink.old sink.new opening) }
    ensures same { I.origin source.new ≡ I.origin source.old }
    ensures fewer { IfNone result ((I.budget source.new + length buffer.new ≤ I.budget source.old) × (0 < length buffer.new)) }
{
    let (fed, stop) = feed_bytes(shake, guid, sink, buffer.bytes());
    buffer.take(fed);
    match stop {
        None => {}
        Some(stop) => return Some(stop.opening()),
    }
    match buffer.fill(source, 1) {
        Filled::There => None,
        Filled::End => Some(Opening::Cut),
        Filled::ReadFault => Some(Opening::ReadFault),
        Filled::NoMemory => Some(Opening::NoMemory),
    }
}

/// Opens a link at a door of this uid: reads the client's half of the authentication and writes the
/// replies, until the messages begin (D-Bus Specification, "Authentication Protocol"). `guid` is the
/// server's GUID, which an `OK` tells.
///
/// The client's bytes are those in the buffer and then those that are read. Each reply is written
/// before another byte is looked at. What was read behind `BEGIN` is in the buffer then, and nothing
/// else. The handshake takes a few KiB at most.
///
/// # Errors
/// `BadShake` exactly where the client's bytes have a fault; `Cut` exactly where the source ended
/// while the handshake awaited more; `ReadFault` and `WriteFault` exactly where the source or the
/// sink counted a fault, which its last call did; `NoMemory`, which may come in place of any other
/// answer.
pub fn open_link<I: Source, O: Sink>(
    door: u32,
    guid: u128,
    source: &mut I,
    sink: &mut O,
    buffer: &mut MessageBuffer,
) -> Opening
    // Each prefix of what is replied to these bytes and any others may be written.
    requires may { MayReply O.allowed (O.held sink.old) door guid buffer.old }
    // What was read was answered as the definition over all of it says, and that was written.
    ensures opens { Opens door guid buffer.old (I.left source.old) (I.left source.new) (I.ended source.new) (O.held sink.old) (O.held sink.new) buffer.new result }
    // A fault of the outside is told exactly where the object counted it, by its last call.
    ensures read { ReadFaults I.left I.faults source.old source.new result }
    ensures write { WriteFaults O.held O.faults sink.old sink.new result }
    // The source is from where it was.
    ensures same { I.origin source.new ≡ I.origin source.old }
{
    let mut shake = Handshake::new(door);
    'rounds: loop {
        if let Some(opening) = open_round(&mut shake, guid, source, sink, buffer) {
            return opening;
        }
    }
}
