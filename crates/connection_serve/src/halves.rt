// The two halves of a connection, beside each other.
ghost use Rattle.std.specs.Prelude.{◌≡◌, ◌≢◌, ℕ, Option as TheOption, List as TheList};
ghost use Rattle.authority_model.specs.declared.journal.Item.{Item};
ghost use Rattle.connection_lookout.specs.Watching.{IsFresh as IsFreshWatch, watch_of};
ghost use Rattle.connection_reader.specs.Reading.{ReadFaults, ReadsTo, SightFaultsTo, hand};
ghost use Rattle.connection_serve.specs.Ends.{OnSightFault, plain_of};
ghost use Rattle.connection_serve.specs.Halves.{Meets};
ghost use Rattle.connection_serve.specs.Headline.{sent_texts};
ghost use Rattle.connection_serve.specs.Live.{KnowsSame, LooksBefore};
ghost use Rattle.connection_writer.specs.Promises.{Began, MayAnswer};
ghost use Rattle.connection_writer.specs.Writing.{StandsAt, WritesTo};
ghost use Rattle.history_lock.specs.Entries.{NoneBy};
ghost use Rattle.history_lock.specs.Known.{Known};
ghost use Rattle.pk_outside.specs.Causes.{Rose};
ghost use Rattle.pk_outside.specs.Streams.{Got};
ghost use Rattle.shared_authority.specs.Journals.{caller_of, past_of};

use crate::ends::{LiveEnd, live_end_of};
use connection_lookout::meet;
use connection_reader::{Common, Inbox, ReaderEnd, read_connection};
use connection_writer::{AnswerDesk, Begun, Writer, WriterEnd, write_as_it_comes, write_on};
use history_lock::{Pass, TableName};
use pk_outside::{Clock, Salt, Sights, Sink, Source};
use shared_authority::{Kept, LimitsName, Shared};
use std::alloc::Global;
use std::marker::Brand;
use std::sync::{Mutex, Wait};
use std::thread::{Threads, join_mut};

/// Writes what is sent to the connection as it comes.
fn write_at<L: LimitsName, T: TableName, O: Sink, B: Begun, R: Wait>(
    common: &Common<'_, '_, L, T, O, B, R>,
    by: u32,
    of: u32,
) {
    write_as_it_comes(common.rt, common.shared, by, of, common.desk);
}

/// Reads the connection, and beside it writes what is sent to it as it comes. Where no thread can be
/// made the reader runs first. `of` is the number of the connection, and `by` that of the collecting
/// pass.
fn read_beside<
    'a,
    'b,
    'w,
    L: LimitsName + Send + Sync,
    T: TableName + Send + Sync,
    O: Sink,
    B: Begun + Send + Sync,
    I: Source,
    C: Clock,
    S: Salt,
    G: Sights,
    R: Threads + Wait + Sync,
>(
    common: &'a Common<'a, 'w, L, T, O, B, R>,
    by: u32,
    of: u32,
    pass: &'b mut Pass<Kept<L>, T>,
    sighter: &'b mut Option<Pass<Kept<L>, T>>,
    uid: u32,
    clock: &'b mut C,
    salt: &'b mut S,
    source: &'b mut I,
    sights: &'b mut G,
    inbox: &'b mut Inbox,
) -> ReaderEnd
    requires fresh { NoneBy caller_of pass.old.number pass.old.history }
    requires fresh_sighter { IsFreshWatch (watch_of sighter.old (G.left sights.old) (G.gave sights.old)) }
    ensures reads { ReadsTo L.limits uid (hand pass.old (I.left source.old) (C.gave clock.old) (S.gave salt.old) inbox.old (watch_of sighter.old (G.left sights.old) (G.gave sights.old)))
        (hand pass.new (I.left source.new) (C.gave clock.new) (S.gave salt.new) inbox.new (watch_of sighter.new (G.left sights.new) (G.gave sights.new))) (I.ended source.new) result }
    ensures faults { ReadFaults I.left I.faults source.old source.new result }
    ensures sights { SightFaultsTo (G.faults sights.old) (G.faults sights.new) result }
    ensures origin { I.origin source.new ≡ I.origin source.old }
{
    let ((), read) = join_mut(
        common.rt,
        &mut || { write_at(common, by, of) },
        &mut || -> ReaderEnd
            requires { NoneBy caller_of pass.now.number pass.now.history × IsFreshWatch (watch_of sighter.now (G.left sights.now) (G.gave sights.now)) }
            ensures reads { ReadsTo L.limits uid (hand pass.entry.now (I.left source.entry.now) (C.gave clock.entry.now) (S.gave salt.entry.now) inbox.entry.now (watch_of sighter.entry.now (G.left sights.entry.now) (G.gave sights.entry.now)))
                (hand pass.exit.now (I.left source.exit.now) (C.gave clock.exit.now) (S.gave salt.exit.now) inbox.exit.now (watch_of sighter.exit.now (G.left sights.exit.now) (G.gave sights.exit.now))) (I.ended source.exit.now) result }
            ensures faults { ReadFaults I.left I.faults source.entry.now source.exit.now result }
            ensures sights { SightFaultsTo (G.faults sights.entry.now) (G.faults sights.exit.now) result }
            ensures origin { I.origin source.exit.now ≡ I.origin source.entry.now }
        {
            read_connection(
                common, pass, sighter, uid, clock, salt, source, sights, inbox,
            )
        },
    );
    read
}

/// Reads the connection, and lends the collecting pass and the sink to both threads meanwhile. The two
/// come back, with how writing has ended, if it has.
fn read_with_writer<
    'a,
    'b,
    'w,
    L: LimitsName + Send + Sync,
    T: TableName + Send + Sync,
    O: Sink,
    B: Begun + Send + Sync,
    I: Source,
    C: Clock,
    S: Salt,
    G: Sights,
    R: Threads + Wait + Sync,
>(
    rt: &'a R,
    alloc: Global,
    shared: &'a Shared<L, T>,
    collector: &'w mut Pass<Kept<L>, T>,
    sink: &'w mut O,
    by: u32,
    of: u32,
    pass: &'b mut Pass<Kept<L>, T>,
    sighter: &'b mut Option<Pass<Kept<L>, T>>,
    uid: u32,
    clock: &'b mut C,
    salt: &'b mut S,
    source: &'b mut I,
    sights: &'b mut G,
    inbox: &'b mut Inbox,
) -> (
    &'w mut Pass<Kept<L>, T>,
    &'w mut O,
    Option<WriterEnd>,
    ReaderEnd,
)
    requires of { (of ≡ B.of) × (B.of ≢ 0) }
    requires names { (collector.ghost_name ≡ B.pass_name) × (sink.ghost_name ≡ B.sink_name) }
    requires stands { StandsAt L.limits B.of B.held B.faults B.pass (O.held sink.old) (O.faults sink.old) collector.old None }
    requires fresh { NoneBy caller_of pass.old.number pass.old.history }
    requires fresh_sighter { IsFreshWatch (watch_of sighter.old (G.left sights.old) (G.gave sights.old)) }
    requires may { MayAnswer O.allowed B.held B.pass.number B.of }
    ensures names { let (collector, sink, end, read) = result in (collector.ghost_name ≡ B.pass_name) × (sink.ghost_name ≡ B.sink_name) }
    ensures stands { let (collector, sink, end, read) = result in StandsAt L.limits B.of B.held B.faults B.pass (O.held sink.now) (O.faults sink.now) collector.now end }
    ensures reads { let (collector, sink, end, read) = result in ReadsTo L.limits uid (hand pass.old (I.left source.old) (C.gave clock.old) (S.gave salt.old) inbox.old (watch_of sighter.old (G.left sights.old) (G.gave sights.old)))
        (hand pass.new (I.left source.new) (C.gave clock.new) (S.gave salt.new) inbox.new (watch_of sighter.new (G.left sights.new) (G.gave sights.new))) (I.ended source.new) read }
    ensures faults { let (collector, sink, end, read) = result in ReadFaults I.left I.faults source.old source.new read }
    ensures sights { let (collector, sink, end, read) = result in SightFaultsTo (G.faults sights.old) (G.faults sights.new) read }
    ensures origin { I.origin source.new ≡ I.origin source.old }
{
    let writer = Writer {
        pass: collector,
        sink,
        alloc,
        of,
        end: None,
    };
    let desk: Mutex<AnswerDesk<L, T, O, B>> = Mutex::new(AnswerDesk::new(writer));
    let common = Common {
        rt,
        shared,
        desk: &desk,
    };
    let read = read_beside(
        &common, by, of, pass, sighter, uid, clock, salt, source, sights, inbox,
    );
    let Writer {
        pass: collector,
        sink,
        alloc: _,
        of: _,
        end,
    } = desk.into_inner().into_writer();
    (collector, sink, end, read)
}

/// Writes on where writing has not ended yet.
fn finish<L: LimitsName, T: TableName, O: Sink, R: Wait>(
    rt: &R,
    alloc: Global,
    shared: &Shared<L, T>,
    collector: &mut Pass<Kept<L>, T>,
    of: u32,
    sink: &mut O,
    end: Option<WriterEnd>,
) -> WriterEnd
    requires connection { of ≢ 0 }
    requires began { Began L.limits O.allowed of (O.held sink.old) (O.faults sink.old) collector.old end }
    ensures { (v : Known Item) (held : TheOption (TheList ℕ)) (faults : ℕ)
        → StandsAt L.limits of held faults v (O.held sink.old) (O.faults sink.old) collector.old end
        → WritesTo L.limits of held faults v (O.held sink.new) (O.faults sink.new) collector.new result }
{
    match end {
        Some(end) => end,
        None => write_on(rt, alloc, shared, collector, of, sink),
    }
}

/// Runs the writer and the reader beside each other. What was answered to a message that came alone
/// the reader writes; all else the writer does.
fn beside<
    'a,
    'b,
    L: LimitsName + Send + Sync,
    T: TableName + Send + Sync,
    I: Source,
    O: Sink,
    C: Clock,
    S: Salt,
    G: Sights,
    R: Threads + Wait + Sync,
>(
    rt: &'a R,
    alloc: Global,
    shared: &'a Shared<L, T>,
    pass: &'b mut Pass<Kept<L>, T>,
    collector: &mut Pass<Kept<L>, T>,
    sighter: &'b mut Option<Pass<Kept<L>, T>>,
    uid: u32,
    of: u32,
    clock: &'b mut C,
    salt: &'b mut S,
    source: &'b mut I,
    sink: &mut O,
    sights: &'b mut G,
    inbox: &'b mut Inbox,
) -> (WriterEnd, ReaderEnd)
    requires connection { of ≢ 0 }
    requires number { of ≡ pass.old.number }
    requires fresh { NoneBy caller_of pass.old.number pass.old.history }
    requires fresh_sighter { IsFreshWatch (watch_of sighter.old (G.left sights.old) (G.gave sights.old)) }
    requires fresh_collector { NoneBy caller_of collector.old.number collector.old.history }
    requires may { MayAnswer O.allowed (O.held sink.old) collector.old.number of }
    ensures reads { let (wrote, read) = result in ReadsTo L.limits uid (hand pass.old (I.left source.old) (C.gave clock.old) (S.gave salt.old) inbox.old (watch_of sighter.old (G.left sights.old) (G.gave sights.old)))
        (hand pass.new (I.left source.new) (C.gave clock.new) (S.gave salt.new) inbox.new (watch_of sighter.new (G.left sights.new) (G.gave sights.new))) (I.ended source.new) read }
    ensures faults { let (wrote, read) = result in ReadFaults I.left I.faults source.old source.new read }
    ensures sights { let (wrote, read) = result in SightFaultsTo (G.faults sights.old) (G.faults sights.new) read }
    ensures writes { let (wrote, read) = result in WritesTo L.limits of (O.held sink.old) (O.faults sink.old) collector.old (O.held sink.new) (O.faults sink.new) collector.new wrote }
    ensures origin { I.origin source.new ≡ I.origin source.old }
{
    let by = collector.number();
    let (collector, sink, end, read) = read_with_writer::<L, T, O, Brand, I, C, S, G, R>(
        rt, alloc, shared, collector, sink, by, of, pass, sighter, uid, clock, salt, source,
        sights, inbox,
    );
    let wrote = finish(rt, alloc, shared, collector, of, sink, end);
    (wrote, read)
}

/// Serves a connection whose messages have begun: a reader hands in what they ask, and a writer
/// writes what is answered. All passes know one history then.
pub fn serve_messages<
    'a,
    L: LimitsName + Send + Sync,
    T: TableName + Send + Sync,
    I: Source,
    O: Sink,
    C: Clock,
    S: Salt,
    G: Sights,
    R: Threads + Wait + Sync,
>(
    rt: &'a R,
    alloc: Global,
    shared: &'a Shared<L, T>,
    pass: &mut Pass<Kept<L>, T>,
    collector: &mut Pass<Kept<L>, T>,
    sighter: &mut Option<Pass<Kept<L>, T>>,
    uid: u32,
    clock: &mut C,
    salt: &mut S,
    source: &mut I,
    sink: &mut O,
    sights: &mut G,
    inbox: &mut Inbox,
) -> LiveEnd
    requires connection { pass.old.number ≢ 0 }
    requires fresh { NoneBy caller_of pass.old.number pass.old.history }
    requires fresh_sighter { IsFreshWatch (watch_of sighter.old (G.left sights.old) (G.gave sights.old)) }
    requires fresh_collector { NoneBy caller_of collector.old.number collector.old.history }
    requires may { MayAnswer O.allowed (O.held sink.old) collector.old.number pass.old.number }
    ensures meets { Meets L.limits uid (hand pass.old (I.left source.old) (C.gave clock.old) (S.gave salt.old) inbox.old (watch_of sighter.old (G.left sights.old) (G.gave sights.old)))
        (hand pass.new (I.left source.new) (C.gave clock.new) (S.gave salt.new) inbox.new (watch_of sighter.new (G.left sights.new) (G.gave sights.new))) (I.ended source.new) collector.old collector.new
        (O.held sink.old) (O.held sink.new) (I.faults source.old) (I.faults source.new) (O.faults sink.old) (O.faults sink.new) (plain_of result) }
    ensures origin { I.origin source.new ≡ I.origin source.old }
    ensures looked { LooksBefore uid pass.new.number pass.new.history
        (watch_of sighter.old (G.left sights.old) (G.gave sights.old)) (watch_of sighter.new (G.left sights.new) (G.gave sights.new)) }
    ensures third { KnowsSame pass.new (watch_of sighter.new (G.left sights.new) (G.gave sights.new)) }
    ensures sights { OnSightFault result (Rose (G.faults sights.old) (G.faults sights.new)) }
    ensures wrote { OnSightFault result (Got (O.held sink.old) (O.held sink.new) (sent_texts (past_of pass.new.history) pass.old.number)) }
{
    let of = pass.number();
    let (wrote, read) = beside(
        rt, alloc, shared, pass, collector, sighter, uid, of, clock, salt, source, sink, sights,
        inbox,
    );
    meet(shared, pass, collector, sighter);
    live_end_of(read, wrote)
}
