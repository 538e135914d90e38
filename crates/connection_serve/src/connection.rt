// One connection, from its first byte to its end.
ghost use Rattle.std.specs.Prelude.{◌≡◌};
ghost use Rattle.connection_serve.specs.Headline.{IsCollected, IsFresh, Serves};
ghost use Rattle.connection_serve.specs.Promises.{MaySend};

use crate::body::serve_with;
use crate::ends::{End, LiveEnd};
use connection_lookout::NoSights;
use history_lock::{Pass, TableName};
use pk_outside::{Clock, Salt, Sink, Source};
use shared_authority::{Kept, LimitsName, Shared};
use std::alloc::Global;
use std::sync::Wait;
use std::thread::Threads;

/// Serves one connection of this user, from its first byte to its end.
///
/// The first random word is the GUID of the handshake (D-Bus Specification, "Authentication
/// Protocol"). Once the messages have begun a reader enters the beginning of the connection, the
/// event of each message, and the end of the connection, under the number of `pass`; each takes a
/// reading of the clock and a random word. Beside it a writer collects with `collector` what is sent
/// to the connection, and writes the messages with the serials 1, 2, and so on. At the end the two
/// passes meet. Something that is refused ends the lock.
///
/// # Errors
/// The end has its cause. `Ended`: the lock has ended, by the kept cause. `WriteFault` and
/// `ReadFault`: only where the sink or the source counted a fault in this call. `BadShake` and
/// `ShakeCut`: exactly where the handshake's bytes have this fault, and where the source ended before
/// the messages began. `BadBytes`: the bytes behind the messages have this fault. `Truncated` and
/// `Done`: the source ended inside a message, and behind one. Of several that apply the first is
/// answered, and `NoMemory` may stand in place of any.
pub fn serve_connection<
    'a,
    L: LimitsName + Send + Sync,
    T: TableName + Send + Sync,
    I: Source,
    O: Sink,
    C: Clock,
    S: Salt,
    R: Threads + Wait + Sync,
>(
    rt: &'a R,
    alloc: Global,
    shared: &'a Shared<L, T>,
    pass: &mut Pass<Kept<L>, T>,
    collector: &mut Pass<Kept<L>, T>,
    uid: u32,
    clock: &mut C,
    salt: &mut S,
    source: &mut I,
    sink: &mut O,
) -> End
    // The passes have different numbers other than 0, know one history, and have no entry in it.
    requires fresh { IsFresh pass.old collector.old }
    // Each prefix of a talk with this connection may be written.
    requires may { MaySend O.allowed (O.held sink.old) uid collector.old.number pass.old.number }
    // What was entered for the connection, what was read and written, and why it ended.
    ensures served { Serves L.limits uid pass.old pass.new (I.left source.old) (I.left source.new) (O.held sink.old) (O.held sink.new)
        (C.gave clock.old) (C.gave clock.new) (S.gave salt.old) (S.gave salt.new) (I.faults source.old) (I.faults source.new) (O.faults sink.old) (O.faults sink.new) result }
    // What was written are replies of the handshake, and the first of the messages that the collecting pass took.
    ensures collected { IsCollected collector.old.number pass.new.number pass.new.history (O.held sink.old) (O.held sink.new) }
    // The source is from where it was.
    ensures origin { I.origin source.new ≡ I.origin source.old }
    // Both passes know the same.
    ensures both { (collector.new.history ≡ pass.new.history)
        × (collector.new.made ≡ pass.new.made)
        × (collector.new.ended ≡ pass.new.ended) }
{
    let end = serve_with(
        rt,
        alloc,
        shared,
        pass,
        collector,
        &mut None,
        uid,
        clock,
        salt,
        source,
        sink,
        &mut NoSights,
    );
    match end {
        LiveEnd::Plain(end) => end,
        LiveEnd::SightFault => unreachable!(),
    }
}
