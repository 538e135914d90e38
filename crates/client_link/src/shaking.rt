// The client's half of the handshake over a link.
ghost use Rattle.std.specs.Prelude.{◌≡◌, ℕ, List, [], None, length};
ghost use Rattle.pk_outside.specs.Allowing.{IsFree};
ghost use Rattle.pk_outside.specs.Streams.{Gave};
ghost use Rattle.link_handshake.specs.Clients.{client_over, client_to_come};
ghost use Rattle.link_handshake.specs.Shakes.{Open};
ghost use Rattle.client_link.specs.Faults.{faults_after, LinkFaults};
ghost use Rattle.client_link.specs.Shakings.{Accepts, Feeds, ShakesHands};

use crate::stop::LinkStop;
use link_handshake::{ClientShake, ClientStep, ShakeFault, client_first};
use pk_outside::{Sink, Source, write_all};
use source_buffer::{Filled, MessageBuffer};
use std::alloc::Global;

/// The line that begins the messages (D-Bus Specification, "Authentication Protocol").
pub const BEGIN_LINE: &str = "BEGIN\r\n";

/// How far the handshake came over some bytes of the server.
#[derive(Clone, Copy, Debug, PartialEq, Eq)]
pub enum Feeding {
    /// All of them were taken, and more are awaited.
    More,
    /// The client is accepted: the messages begin behind the first `count` of them.
    Begun { count: usize },
    /// The server's line has this fault.
    Fault { fault: ShakeFault },
}

/// Feeds the handshake bytes of the server, until it is over.
fn feed_each(shake: &mut ClientShake, bytes: &[u8]) -> Feeding
    requires over { client_over shake.old ≡ None }
    requires open_yet { client_to_come shake.old [] ≡ Open }
    ensures feeds { Feeds shake.old bytes.now shake.new result }
{
    for (index, byte) in bytes.iter().enumerate() {
        match shake.feed(*byte) {
            ClientStep::More => {}
            ClientStep::SendBegin => return Feeding::Begun { count: index + 1 },
            ClientStep::Fault(fault) => return Feeding::Fault { fault },
        }
    }
    Feeding::More
}

/// Reads the line by which the server accepts the client. What was read behind it stays in the
/// buffer.
fn await_acceptance<I: Source>(source: &mut I, buffer: &mut MessageBuffer) -> Result<(), LinkStop>
    requires { buffer.old ≡ [] }
    ensures same { I.origin source.new ≡ I.origin source.old }
    ensures accepts { (read : List ℕ) × Gave (I.left source.old) (I.left source.new) read × Accepts (I.ended source.new) read buffer.new result }
    ensures faults { I.faults source.new ≡ faults_after (I.faults source.old) result }
{
    let mut shake = ClientShake::new();
    'pieces: loop {
        match buffer.fill(source, 1) {
            Filled::There => {}
            Filled::End => return Err(LinkStop::Cut),
            Filled::ReadFault => return Err(LinkStop::Failed),
            Filled::NoMemory => return Err(LinkStop::NoMemory),
        }
        match feed_each(&mut shake, buffer.bytes()) {
            Feeding::More => {
                let all = buffer.bytes().len();
                buffer.take(all);
            }
            Feeding::Begun { count } => {
                buffer.take(count);
                return Ok(());
            }
            Feeding::Fault { fault } => return Err(LinkStop::BadShake { fault }),
        }
    }
}

/// Shakes hands as a client of this user: sends byte 0 and the line `AUTH EXTERNAL`, awaits the line
/// that accepts it, and sends `BEGIN` (D-Bus Specification, "Authentication Protocol"). Nothing may
/// have been read before. What was read behind the server's line, the beginning of its messages,
/// stays in the buffer.
///
/// # Errors
/// `BadShake` exactly where the server's line has a fault, and this fault; `Cut` exactly where the
/// link ended before the end of the line; `Failed` exactly where one of the two directions failed and
/// counted one fault; `NoMemory`, which may come in place of any other answer.
#[tactic(auto, using(pk_outside::proofs::Going::may_go_free))]
pub fn shake_hands<I: Source, O: Sink>(
    alloc: Global,
    uid: u32,
    source: &mut I,
    sink: &mut O,
    buffer: &mut MessageBuffer,
) -> Result<(), LinkStop>
    requires empty { buffer.old ≡ [] }
    requires free { IsFree O.allowed }
    // What was read, what was written, and what the answer says of both.
    ensures shakes { ShakesHands uid (I.left source.old) (I.left source.new) (I.ended source.new) (O.held sink.old) (O.held sink.new) buffer.new result }
    ensures same { I.origin source.new ≡ I.origin source.old }
    // A direction failed exactly where it counted a fault, and then one of them, once.
    ensures faults { LinkFaults (I.faults source.old) (I.faults source.new) (O.faults sink.old) (O.faults sink.new) result }
{
    let first = client_first(alloc, uid)?;
    write_all(sink, first.as_slice())?;
    await_acceptance(source, buffer)?;
    write_all(sink, BEGIN_LINE.as_bytes())?;
    Ok(())
}
