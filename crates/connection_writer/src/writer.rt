// The loop of the writing half.
ghost use Rattle.std.specs.Prelude.{◌≡◌, ◌≢◌, ◌≤◌, ◌^◌, ℕ, None, IfOk, IfErr, Option as TheOption, List as TheList};
ghost use Rattle.authority_model.specs.declared.journal.Item.{Item};
ghost use Rattle.history_lock.specs.Entries.{NoneBy};
ghost use Rattle.history_lock.specs.Known.{Known};
ghost use Rattle.authority_model.specs.Given.{IsStepped};
ghost use Rattle.shared_authority.specs.Journals.{caller_of};
ghost use Rattle.shared_authority.specs.Passes.{CollectsNow, Submitted, SubmitIsRefused, own_given};
ghost use Rattle.connection_writer.specs.Promises.{Began, MayAnswer};
ghost use Rattle.connection_writer.specs.Writing.{StandsAt, WritesTo, end_in};

use crate::batches::write_batch;
use crate::ends::{WriteStop, WriterEnd};
use history_lock::{Pass, TableName};
use pk_outside::Sink;
use shared_authority::{Collected, CollectedNow, Given, Kept, LimitsName, Shared, SubmitRefused};
use std::alloc::Global;
use std::sync::Wait;

/// Writes what was collected, if anything was there, and tells whether it was. From wherever it
/// began: what was written before is written still. The pass has collected just now, and stood for
/// something before that.
///
/// Where the lock has ended, or memory was refused, the sink is closed, so that the reading half,
/// which may wait for more, meets the end.
///
/// # Errors
/// How writing has ended.
fn write_collected<L: LimitsName, T: TableName, O: Sink, R: Wait>(
    rt: &R,
    alloc: Global,
    shared: &Shared<L, T>,
    pass: &mut Pass<Kept<L>, T>,
    now: CollectedNow,
    sink: &mut O,
) -> Result<bool, WriterEnd>
    requires collects { (before : Known Item) × (of : ℕ) × (of ≢ 0) × CollectsNow L.limits before of now pass.old
        × Began L.limits O.allowed of (O.held sink.old) (O.faults sink.old) before None }
    ensures stands { (before v : Known Item) (of : ℕ) (held : TheOption (TheList ℕ)) (faults : ℕ)
        → CollectsNow L.limits before of now pass.old
        → StandsAt L.limits of held faults v (O.held sink.old) (O.faults sink.old) before None
        → StandsAt L.limits of held faults v (O.held sink.new) (O.faults sink.new) pass.new (end_in result) }
    ensures later { O.faults sink.old ≤ O.faults sink.new }
{
    match now {
        None => Ok(false),
        Some(Ok(Collected::Gone)) => Err(WriterEnd::All),
        Some(Ok(Collected::Batch(batch))) => match write_batch(alloc, batch, sink) {
            Ok(()) => Ok(true),
            Err(WriteStop::Failed) => Err(WriterEnd::WriteFault),
            Err(WriteStop::NoMemory) => {
                sink.close();
                Err(WriterEnd::NoMemory)
            }
        },
        Some(Err(refused)) => {
            let cause = shared.end(rt, pass, refused.cause());
            sink.close();
            Err(WriterEnd::Ended { cause })
        }
    }
}

/// Collects the next batch and writes it, if one is there, and tells whether one was. From wherever
/// it began: what was written before is written still.
///
/// # Errors
/// How writing has ended.
fn write_next<L: LimitsName, T: TableName, O: Sink, R: Wait>(
    rt: &R,
    alloc: Global,
    shared: &Shared<L, T>,
    pass: &mut Pass<Kept<L>, T>,
    of: u32,
    sink: &mut O,
) -> Result<bool, WriterEnd>
    requires connection { of ≢ 0 }
    requires began { Began L.limits O.allowed of (O.held sink.old) (O.faults sink.old) pass.old None }
    ensures stands { (v : Known Item) (held : TheOption (TheList ℕ)) (faults : ℕ)
        → StandsAt L.limits of held faults v (O.held sink.old) (O.faults sink.old) pass.old None
        → StandsAt L.limits of held faults v (O.held sink.new) (O.faults sink.new) pass.new (end_in result) }
    ensures later { O.faults sink.old ≤ O.faults sink.new }
{
    let now = shared.collect_if_ready(rt, pass, of);
    write_collected(rt, alloc, shared, pass, now, sink)
}

/// Collects what is there and writes it, until nothing is left. Answers how writing has ended, if it
/// has.
fn write_ready<L: LimitsName, T: TableName, O: Sink, R: Wait>(
    rt: &R,
    alloc: Global,
    shared: &Shared<L, T>,
    pass: &mut Pass<Kept<L>, T>,
    of: u32,
    sink: &mut O,
) -> Option<WriterEnd>
    requires connection { of ≢ 0 }
    requires began { Began L.limits O.allowed of (O.held sink.old) (O.faults sink.old) pass.old None }
    ensures stands { (v : Known Item) (held : TheOption (TheList ℕ)) (faults : ℕ)
        → StandsAt L.limits of held faults v (O.held sink.old) (O.faults sink.old) pass.old None
        → StandsAt L.limits of held faults v (O.held sink.new) (O.faults sink.new) pass.new result }
    ensures later { O.faults sink.old ≤ O.faults sink.new }
{
    for _turn in rt.forever() {
        match write_next(rt, alloc, shared, pass, of, sink) {
            Ok(true) => {}
            Ok(false) => return None,
            Err(end) => return Some(end),
        }
    }
    unreachable!()
}

/// Collects the outputs to a connection and writes their messages, as they come, until the
/// connection has gone. From wherever it began: what was written before is written still.
///
/// The connection is not the loader, which is connection 0.
pub fn write_on<L: LimitsName, T: TableName, O: Sink, R: Wait>(
    rt: &R,
    alloc: Global,
    shared: &Shared<L, T>,
    pass: &mut Pass<Kept<L>, T>,
    of: u32,
    sink: &mut O,
) -> WriterEnd
    requires connection { of ≢ 0 }
    requires began { Began L.limits O.allowed of (O.held sink.old) (O.faults sink.old) pass.old None }
    ensures stands { (v : Known Item) (held : TheOption (TheList ℕ)) (faults : ℕ)
        → StandsAt L.limits of held faults v (O.held sink.old) (O.faults sink.old) pass.old None
        → WritesTo L.limits of held faults v (O.held sink.new) (O.faults sink.new) pass.new result }
    ensures later { O.faults sink.old ≤ O.faults sink.new }
{
    let by = pass.number();
    for _turn in rt.forever() {
        shared.wait_for_outputs(rt, by, of);
        if let Some(end) = write_ready(rt, alloc, shared, pass, of, sink) {
            return end;
        }
    }
    unreachable!()
}

/// Collects the outputs to a connection and writes their messages, with the serials 1, 2, and so
/// on, until the connection has gone. A refused Collect ends the lock.
///
/// The pass may have no entry, and the connection is not the loader, which is connection 0.
pub fn write_answers<L: LimitsName, T: TableName, O: Sink, R: Wait>(
    rt: &R,
    alloc: Global,
    shared: &Shared<L, T>,
    pass: &mut Pass<Kept<L>, T>,
    of: u32,
    sink: &mut O,
) -> WriterEnd
    requires connection { of ≢ 0 }
    requires fresh { NoneBy caller_of pass.old.number pass.old.history }
    requires may { MayAnswer O.allowed (O.held sink.old) pass.old.number of }
    ensures writes { WritesTo L.limits of (O.held sink.old) (O.faults sink.old) pass.old (O.held sink.new) (O.faults sink.new) pass.new result }
    ensures later { O.faults sink.old ≤ O.faults sink.new }
{
    let _number = pass.number();
    write_on(rt, alloc, shared, pass, of, sink)
}

/// What writes the answers of the connection `of`: the collecting pass and the sink, and how writing
/// has ended, if it has.
#[derive(Drop)]
pub struct Writer<'a, L: LimitsName, T: TableName, O: Sink> {
    /// The pass that collects.
    pub pass: &'a mut Pass<Kept<L>, T>,
    /// Where the messages are written.
    pub sink: &'a mut O,
    /// Where memory is taken from.
    pub alloc: Global,
    /// The number of the connection.
    pub of: u32,
    /// How writing has ended.
    pub end: Option<WriterEnd>,
}

impl<'a, L: LimitsName, T: TableName, O: Sink> Writer<'a, L, T, O> {
    /// Collects what is there and writes it, unless writing has ended.
    pub(crate) fn write_ready<R: Wait>(&mut self, rt: &R, shared: &Shared<L, T>)
        requires of { self.old.of ≢ 0 }
        requires began { Began L.limits O.allowed self.old.of (O.held self.old.sink.now) (O.faults self.old.sink.now) self.old.pass.now self.old.end }
        ensures stands { (v : Known Item) (held : TheOption (TheList ℕ)) (faults : ℕ)
            → StandsAt L.limits self.old.of held faults v (O.held self.old.sink.now) (O.faults self.old.sink.now) self.old.pass.now self.old.end
            → StandsAt L.limits self.old.of held faults v (O.held self.new.sink.now) (O.faults self.new.sink.now) self.new.pass.now self.new.end }
        ensures names { (self.new.pass.ghost_name ≡ self.old.pass.ghost_name) × (self.new.sink.ghost_name ≡ self.old.sink.ghost_name) }
        ensures of { self.new.of ≡ self.old.of }
    {
        if self.end.is_none() {
            self.end = write_ready(rt, self.alloc, shared, self.pass, self.of, self.sink);
        }
    }
    /// Adds the entry of an event of the connection's own pass, and writes what is sent to the
    /// connection then. Where writing has ended it adds the entry alone.
    ///
    /// # Errors
    /// As for `Shared::submit`.
    pub(crate) fn submit<R: Wait>(
        &mut self,
        rt: &R,
        shared: &Shared<L, T>,
        pass: &mut Pass<Kept<L>, T>,
        given: Given,
    ) -> Result<u64, SubmitRefused>
        requires of { self.old.of ≢ 0 }
        requires event { IsStepped given.event }
        requires moment { given.moment ≤ 2 ^ 62 }
        requires began { Began L.limits O.allowed self.old.of (O.held self.old.sink.now) (O.faults self.old.sink.now) self.old.pass.now self.old.end }
        ensures ok { IfOk result (λ place. Submitted pass.old (own_given pass.old given) place pass.new) }
        ensures err { IfErr result (λ refused. SubmitIsRefused L.limits pass.old given.event refused pass.new) }
        ensures stands { (v : Known Item) (held : TheOption (TheList ℕ)) (faults : ℕ)
            → StandsAt L.limits self.old.of held faults v (O.held self.old.sink.now) (O.faults self.old.sink.now) self.old.pass.now self.old.end
            → StandsAt L.limits self.old.of held faults v (O.held self.new.sink.now) (O.faults self.new.sink.now) self.new.pass.now self.new.end }
        ensures names { (self.new.pass.ghost_name ≡ self.old.pass.ghost_name) × (self.new.sink.ghost_name ≡ self.old.sink.ghost_name) }
        ensures of { self.new.of ≡ self.old.of }
    {
        if self.end.is_some() {
            let Given {
                moment,
                salt,
                event,
            } = given;
            return shared.submit(rt, pass, moment, salt, event);
        }
        let (place, now) = shared.submit_and_collect(rt, pass, given, self.pass, self.of)?;
        self.end = write_collected(rt, self.alloc, shared, self.pass, now, self.sink).err();
        Ok(place)
    }
}
