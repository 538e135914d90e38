// One connection that looks at processes.
ghost use Rattle.std.specs.Prelude.{◌≡◌, Some};
ghost use Rattle.connection_lookout.specs.Watching.{watch};
ghost use Rattle.connection_serve.specs.Ends.{OnSightFault, plain_of};
ghost use Rattle.connection_serve.specs.Headline.{IsCollected, IsFresh, Serves};
ghost use Rattle.connection_serve.specs.Live.{HasLooked, WroteAll};
ghost use Rattle.connection_serve.specs.Promises.{MaySend};
ghost use Rattle.history_lock.specs.Entries.{NoneBy};
ghost use Rattle.pk_outside.specs.Causes.{Rose};
ghost use Rattle.shared_authority.specs.Journals.{caller_of};

use crate::body::serve_with;
use crate::ends::LiveEnd;
use history_lock::{Pass, TableName};
use pk_outside::{Clock, Salt, Sights, Sink, Source};
use shared_authority::{Kept, LimitsName, Shared};
use std::alloc::Global;
use std::sync::Wait;
use std::thread::Threads;

/// Serves one connection of this user as `serve_connection` does, and looks at processes besides.
///
/// Before each event that names a process (`sight_events::named`) it takes one sighting of the pid.
/// Where the process has ended, or another one has its pid, `sighter` enters the last load without
/// it, so that what rests on it ends; where the last load does not list it nothing is entered. At the
/// end the three passes meet, and the sighter comes back.
///
/// # Errors
/// The ends are those of `serve_connection`, and `SightFault`: only where the sights counted a fault in
/// this call. Then the message whose look failed was not handed in, nor any after it; the end of the
/// connection was, and all that was sent to it was written. It is answered in place of each end but
/// `Ended`, `WriteFault` and `NoMemory`.
pub fn serve_live_connection<
    'a,
    L: LimitsName + Send + Sync,
    T: TableName + Send + Sync,
    I: Source,
    O: Sink,
    C: Clock,
    S: Salt,
    G: Sights,
    R: Threads + Wait + Sync,
>(
    rt: &'a R,
    alloc: Global,
    shared: &'a Shared<L, T>,
    pass: &mut Pass<Kept<L>, T>,
    collector: &mut Pass<Kept<L>, T>,
    sighter: Pass<Kept<L>, T>,
    uid: u32,
    clock: &mut C,
    salt: &mut S,
    source: &mut I,
    sink: &mut O,
    sights: &mut G,
) -> (LiveEnd, Pass<Kept<L>, T>)
    // The first two passes have different numbers other than 0, know one history, and have no entry in it.
    requires fresh { IsFresh pass.old collector.old }
    // The sighter has no entry either.
    requires fresh_sighter { NoneBy caller_of sighter.number sighter.history }
    // Each prefix of a talk with this connection may be written.
    requires may { MaySend O.allowed (O.held sink.old) uid collector.old.number pass.old.number }
    // What was entered for the connection, what was read and written, and why it ended.
    ensures served { let (end, sighter) = result in Serves L.limits uid pass.old pass.new (I.left source.old) (I.left source.new) (O.held sink.old) (O.held sink.new)
        (C.gave clock.old) (C.gave clock.new) (S.gave salt.old) (S.gave salt.new) (I.faults source.old) (I.faults source.new) (O.faults sink.old) (O.faults sink.new) (plain_of end) }
    // What was written are replies of the handshake, and the first of the messages that the collecting pass took.
    ensures collected { IsCollected collector.old.number pass.new.number pass.new.history (O.held sink.old) (O.held sink.new) }
    // The source is from where it was.
    ensures origin { I.origin source.new ≡ I.origin source.old }
    // The three passes know the same.
    ensures both { (collector.new.history ≡ pass.new.history)
        × (collector.new.made ≡ pass.new.made)
        × (collector.new.ended ≡ pass.new.ended) }
    ensures third { let (end, sighter) = result in (sighter.history ≡ pass.new.history)
        × (sighter.made ≡ pass.new.made)
        × (sighter.ended ≡ pass.new.ended) }
    // What was looked at before what the messages ask, and what was entered for it.
    ensures looked { let (end, back) = result in HasLooked uid pass.new.number pass.new.history
        (Some (watch sighter (G.left sights.old) (G.gave sights.old)))
        (Some (watch back (G.left sights.new) (G.gave sights.new))) }
    // A sight fault was counted, and all that was sent was written.
    ensures sights { let (end, sighter) = result in OnSightFault end (Rose (G.faults sights.old) (G.faults sights.new)) }
    ensures wrote { let (end, sighter) = result in OnSightFault end (WroteAll pass.old.number pass.new.history (O.held sink.old) (O.held sink.new)) }
{
    let mut sighter = Some(sighter);
    let end = serve_with(
        rt,
        alloc,
        shared,
        pass,
        collector,
        &mut sighter,
        uid,
        clock,
        salt,
        source,
        sink,
        sights,
    );
    match sighter {
        Some(sighter) => (end, sighter),
        None => unreachable!(),
    }
}
