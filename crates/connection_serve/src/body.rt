// The body that every connection has, from its first byte to its end.
ghost use Rattle.std.specs.Prelude.{◌≡◌};
ghost use Rattle.connection_lookout.specs.Watching.{IsFresh as IsFreshWatch, watch_of};
ghost use Rattle.connection_serve.specs.Ends.{OnSightFault, plain_of};
ghost use Rattle.connection_serve.specs.Headline.{IsCollected, IsFresh, Serves};
ghost use Rattle.connection_serve.specs.Live.{HasLooked, KnowsSame, WroteAll};
ghost use Rattle.connection_serve.specs.Promises.{MaySend};
ghost use Rattle.pk_outside.specs.Causes.{Rose};

use crate::ends::LiveEnd;
use crate::halves::serve_messages;
use crate::opening::greet;
use connection_lookout::meet;
use connection_reader::Inbox;
use history_lock::{Pass, TableName};
use pk_outside::{Clock, Salt, Sights, Sink, Source};
use shared_authority::{Kept, LimitsName, Shared};
use std::alloc::Global;
use std::sync::Wait;
use std::thread::Threads;

/// Serves one connection, as `serve_connection` says without a sighter and `serve_live_connection` with
/// one.
pub fn serve_with<
    'a,
    L: LimitsName + Send + Sync,
    T: TableName + Send + Sync,
    I: Source,
    O: Sink,
    C: Clock,
    S: Salt,
    G: Sights,
    R: Threads + Wait + Sync,
>(
    rt: &'a R,
    alloc: Global,
    shared: &'a Shared<L, T>,
    pass: &mut Pass<Kept<L>, T>,
    collector: &mut Pass<Kept<L>, T>,
    sighter: &mut Option<Pass<Kept<L>, T>>,
    uid: u32,
    clock: &mut C,
    salt: &mut S,
    source: &mut I,
    sink: &mut O,
    sights: &mut G,
) -> LiveEnd
    requires fresh { IsFresh pass.old collector.old }
    requires fresh_sighter { IsFreshWatch (watch_of sighter.old (G.left sights.old) (G.gave sights.old)) }
    requires may { MaySend O.allowed (O.held sink.old) uid collector.old.number pass.old.number }
    ensures served { Serves L.limits uid pass.old pass.new (I.left source.old) (I.left source.new) (O.held sink.old) (O.held sink.new)
        (C.gave clock.old) (C.gave clock.new) (S.gave salt.old) (S.gave salt.new) (I.faults source.old) (I.faults source.new) (O.faults sink.old) (O.faults sink.new) (plain_of result) }
    ensures collected { IsCollected collector.old.number pass.new.number pass.new.history (O.held sink.old) (O.held sink.new) }
    ensures origin { I.origin source.new ≡ I.origin source.old }
    ensures both { (collector.new.history ≡ pass.new.history)
        × (collector.new.made ≡ pass.new.made)
        × (collector.new.ended ≡ pass.new.ended) }
    ensures third { KnowsSame pass.new (watch_of sighter.new (G.left sights.new) (G.gave sights.new)) }
    ensures looked { HasLooked uid pass.new.number pass.new.history
        (watch_of sighter.old (G.left sights.old) (G.gave sights.old)) (watch_of sighter.new (G.left sights.new) (G.gave sights.new)) }
    ensures sights { OnSightFault result (Rose (G.faults sights.old) (G.faults sights.new)) }
    ensures wrote { OnSightFault result (WroteAll pass.old.number pass.new.history (O.held sink.old) (O.held sink.new)) }
{
    let guid = salt.word();
    match greet(alloc, uid, guid, source, sink) {
        Ok(buffer) => {
            let mut inbox = Inbox::new(alloc, buffer);
            serve_messages(
                rt, alloc, shared, pass, collector, sighter, uid, clock, salt, source, sink,
                sights, &mut inbox,
            )
        }
        Err(end) => {
            meet(shared, pass, collector, sighter);
            LiveEnd::Plain(end)
        }
    }
}
