// The opening of a connection.
ghost use Rattle.std.specs.Prelude.{◌≡◌, []};
ghost use Rattle.link_opening.specs.Replying.{MayReply};
ghost use Rattle.connection_serve.specs.Halves.{Greets};

use crate::ends::End;
use link_opening::{Opening, open_link};
use pk_outside::{Sink, Source};
use source_buffer::MessageBuffer;
use std::alloc::Global;

/// Reads the client's half of the handshake and answers it, until the messages begin. What was read
/// of them is in the buffer.
///
/// # Errors
/// The end of the connection, where the messages do not begin.
pub fn greet<I: Source, O: Sink>(
    alloc: Global,
    uid: u32,
    guid: u128,
    source: &mut I,
    sink: &mut O,
) -> Result<MessageBuffer, End>
    requires may { MayReply O.allowed (O.held sink.old) uid guid [] }
    ensures greets { Greets uid guid (I.left source.old) (I.left source.new) (O.held sink.old) (O.held sink.new) (I.faults source.old) (I.faults source.new) (O.faults sink.old) (O.faults sink.new) result }
    ensures origin { I.origin source.new ≡ I.origin source.old }
{
    let Ok(mut buffer) = MessageBuffer::new(alloc) else {
        return Err(End::NoMemory);
    };
    match open_link(uid, guid, source, sink, &mut buffer) {
        Opening::Begun => {
            source.lift_time_limit();
            Ok(buffer)
        }
        Opening::BadShake { fault } => Err(End::BadShake { fault }),
        Opening::Cut => Err(End::ShakeCut),
        Opening::ReadFault => Err(End::ReadFault),
        Opening::WriteFault => Err(End::WriteFault),
        Opening::NoMemory => Err(End::NoMemory),
    }
}
