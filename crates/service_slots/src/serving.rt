// One connection, which looks at processes or never does.
ghost use Rattle.std.specs.Prelude.{◌≡◌, IfSome};
ghost use Rattle.connection_serve.specs.Ends.{OnSightFault, plain_of};
ghost use Rattle.connection_serve.specs.Headline.{IsFresh, Serves};
ghost use Rattle.connection_serve.specs.Live.{WroteAll};
ghost use Rattle.connection_serve.specs.Promises.{MaySend};
ghost use Rattle.history_lock.specs.Entries.{NoneBy};
ghost use Rattle.service_slots.specs.Served.{HasWatched};
ghost use Rattle.shared_authority.specs.Journals.{caller_of};

use crate::admitting::Passes;
use crate::slot::Slot;
use connection_serve::{LiveEnd, serve_connection, serve_live_connection};
use history_lock::TableName;
use pk_outside::{Clock, Door, Ends, Salt, Sights};
use shared_authority::{LimitsName, Shared};
use std::alloc::Global;
use std::sync::Wait;
use std::thread::Threads;

/// Serves a link of a slot's door by these passes. The connection looks at processes where there are a
/// sighter and sights. Answers how it ended, and the number of its sighter, if it looked.
pub(crate) fn serve_link<
    'a,
    L: LimitsName + Send + Sync,
    T: TableName + Send + Sync,
    D: Door,
    C: Clock,
    S: Salt,
    G: Sights,
    R: Threads + Wait + Sync,
>(
    rt: &'a R,
    alloc: Global,
    shared: &'a Shared<L, T>,
    slot: &mut Slot<L, T, D, C, S, G>,
    passes: &mut Passes<L, T>,
    ends: &mut Ends<D::Link>,
) -> (LiveEnd, Option<u32>)
    requires fresh { IsFresh passes.old.pass passes.old.collector }
    requires fresh_sighter { IfSome passes.old.sighter (λ sighter. NoneBy caller_of sighter.number sighter.history) }
    requires may { MaySend D.Link.Out.allowed (D.Link.Out.held ends.old.output) (D.owner slot.old.door) passes.old.collector.number passes.old.pass.number }
    ensures served { let (end, by) = result in Serves L.limits (D.owner slot.old.door) passes.old.pass passes.new.pass
        (D.Link.In.left ends.old.input) (D.Link.In.left ends.new.input) (D.Link.Out.held ends.old.output) (D.Link.Out.held ends.new.output)
        (C.gave slot.old.clock) (C.gave slot.new.clock) (S.gave slot.old.salt) (S.gave slot.new.salt)
        (D.Link.In.faults ends.old.input) (D.Link.In.faults ends.new.input) (D.Link.Out.faults ends.old.output) (D.Link.Out.faults ends.new.output) (plain_of end) }
    ensures origin { D.Link.In.origin ends.new.input ≡ D.Link.In.origin ends.old.input }
    ensures watched { let (end, by) = result in IfSome by (λ n. HasWatched n passes.new.pass.number (D.owner slot.old.door) passes.new.pass.history) }
    ensures wrote { let (end, by) = result in OnSightFault end (WroteAll passes.old.pass.number passes.new.pass.history (D.Link.Out.held ends.old.output) (D.Link.Out.held ends.new.output)) }
    ensures kept { (slot.new.pass ≡ slot.old.pass) × (slot.new.door ≡ slot.old.door) × (slot.new.lines ≡ slot.old.lines) }
{
    let uid = slot.door.uid();
    if let Some(sighter) = passes.sighter.take() {
        if let Some(sights) = &mut slot.sights {
            let number = sighter.number();
            let (end, _sighter) = serve_live_connection(
                rt,
                alloc,
                shared,
                &mut passes.pass,
                &mut passes.collector,
                sighter,
                uid,
                &mut slot.clock,
                &mut slot.salt,
                &mut ends.input,
                &mut ends.output,
                sights,
            );
            return (end, Some(number));
        }
    }
    let end = serve_connection(
        rt,
        alloc,
        shared,
        &mut passes.pass,
        &mut passes.collector,
        uid,
        &mut slot.clock,
        &mut slot.salt,
        &mut ends.input,
        &mut ends.output,
    );
    (LiveEnd::Plain(end), None)
}
