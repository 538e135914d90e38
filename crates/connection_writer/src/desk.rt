// The desk at which the two threads of a connection write.
ghost use Rattle.std.specs.Prelude.{◌≡◌, ◌≢◌, ◌≤◌, ◌^◌, IfOk, IfErr};
ghost use Rattle.authority_model.specs.Given.{IsStepped};
ghost use Rattle.shared_authority.specs.Passes.{Submitted, SubmitIsRefused, own_given};
ghost use Rattle.connection_writer.specs.Promises.{MayAnswer};
ghost use Rattle.connection_writer.specs.Writing.{StandsAt};

use crate::writer::Writer;
use history_lock::{Pass, TableName};
use pk_outside::Sink;
use shared_authority::{Given, Kept, LimitsName, Shared, SubmitRefused};
use std::marker::{Brand, Model, PhantomData};
use std::sync::{Mutex, Wait};

/// How writing began. A program picks it, by a call of a function that is generic in the name.
pub trait Begun {
    ghost use Rattle.std.specs.Prelude.{ℕ, List, Option};
    ghost use Rattle.authority_model.specs.declared.journal.Item.{Item};
    ghost use Rattle.history_lock.specs.Known.{Known};

    /// The connection whose answers are written.
    ghost of: { ℕ };

    /// What the collecting pass stood for.
    ghost pass: { Known Item };

    /// What the sink held.
    ghost held: { Option (List ℕ) };

    /// How often the sink had failed.
    ghost faults: { ℕ };

    /// Which pass it is.
    ghost pass_name: { ℕ };

    /// Which sink it is.
    ghost sink_name: { ℕ };
}

impl Begun for Brand {
    ghost use Rattle.std.specs.Prelude.{None};
    ghost use Rattle.connection_writer.specs.Writing.{no_pass};

    ghost of = { 0 };

    ghost pass = { no_pass };

    ghost held = { None };

    ghost faults = { 0 };

    ghost pass_name = { 0 };

    ghost sink_name = { 0 };
}

/// A writer that the two threads of a connection share. Whoever comes to it writes what is there.
#[derive(Drop)]
pub struct AnswerDesk<'a, L: LimitsName, T: TableName, O: Sink, B: Begun> {
    writer: Writer<'a, L, T, O>,
    of: PhantomData<B>,
}

impl<'a, L: LimitsName, T: TableName, O: Sink, B: Begun> Model for AnswerDesk<'a, L, T, O, B> {
    ghost use Rattle.std.specs.Prelude.{◌≡◌, ◌≢◌};
    ghost use Rattle.connection_writer.specs.Promises.{MayAnswer};
    ghost use Rattle.connection_writer.specs.Writing.{StandsAt};

    ghost Value = { Unit {0} };

    ghost view = { λ d. tt };

    ghost invariant = { λ d. (d.writer.of ≡ B.of)
        × (B.of ≢ 0)
        × (d.writer.pass.ghost_name ≡ B.pass_name)
        × (d.writer.sink.ghost_name ≡ B.sink_name)
        × StandsAt L.limits B.of B.held B.faults B.pass (O.held d.writer.sink.now) (O.faults d.writer.sink.now) d.writer.pass.now d.writer.end
        × MayAnswer O.allowed B.held B.pass.number B.of };
}

impl<'a, L: LimitsName, T: TableName, O: Sink, B: Begun> AnswerDesk<'a, L, T, O, B> {
    /// A desk with this writer, which began so, and may write what is sent to its connection.
    pub fn new(writer: Writer<'a, L, T, O>) -> AnswerDesk<'a, L, T, O, B>
        requires of { (writer.of ≡ B.of) × (B.of ≢ 0) }
        requires names { (writer.pass.ghost_name ≡ B.pass_name) × (writer.sink.ghost_name ≡ B.sink_name) }
        requires stands { StandsAt L.limits B.of B.held B.faults B.pass (O.held writer.sink.now) (O.faults writer.sink.now) writer.pass.now writer.end }
        requires may { MayAnswer O.allowed B.held B.pass.number B.of }
    {
        AnswerDesk {
            writer,
            of: PhantomData,
        }
    }

    /// Collects what is there and writes it, unless writing has ended. Tells whether it has.
    fn write_ready<R: Wait>(&mut self, rt: &R, shared: &Shared<L, T>) -> bool {
        self.writer.write_ready(rt, shared);
        self.writer.end.is_some()
    }

    /// Adds the entry of an event of the connection's own pass, and writes what is sent to the
    /// connection then, unless writing has ended.
    fn submit<R: Wait>(
        &mut self,
        rt: &R,
        shared: &Shared<L, T>,
        pass: &mut Pass<Kept<L>, T>,
        given: Given,
    ) -> Result<u64, SubmitRefused>
        requires event { IsStepped given.event }
        requires moment { given.moment ≤ 2 ^ 62 }
        ensures ok { IfOk result (λ place. Submitted pass.old (own_given pass.old given) place pass.new) }
        ensures err { IfErr result (λ refused. SubmitIsRefused L.limits pass.old given.event refused pass.new) }
    {
        self.writer.submit(rt, shared, pass, given)
    }

    /// The writer, as it stands since it began.
    pub fn into_writer(self) -> Writer<'a, L, T, O>
        ensures of { result.of ≡ B.of }
        ensures names { (result.pass.ghost_name ≡ B.pass_name) × (result.sink.ghost_name ≡ B.sink_name) }
        ensures stands { StandsAt L.limits B.of B.held B.faults B.pass (O.held result.sink.now) (O.faults result.sink.now) result.pass.now result.end }
    {
        let AnswerDesk { writer, of: _ } = self;
        writer
    }
}

/// Adds the entry of an event of the connection's own pass, as `Shared::submit` does, and writes
/// what is sent to the connection then. Where its other thread is at the desk the entry alone is
/// added, and wakes that thread, which writes.
///
/// # Errors
/// As for `Shared::submit`.
pub fn submit_at_desk<L: LimitsName, T: TableName, O: Sink, B: Begun, R: Wait>(
    rt: &R,
    shared: &Shared<L, T>,
    desk: &Mutex<AnswerDesk<'_, L, T, O, B>>,
    pass: &mut Pass<Kept<L>, T>,
    given: Given,
) -> Result<u64, SubmitRefused>
    requires event { IsStepped given.event }
    requires moment { given.moment ≤ 2 ^ 62 }
    ensures ok { IfOk result (λ place. Submitted pass.old (own_given pass.old given) place pass.new) }
    ensures err { IfErr result (λ refused. SubmitIsRefused L.limits pass.old given.event refused pass.new) }
{
    match desk.try_lock() {
        Some(mut desk) => desk.submit(rt, shared, pass, given),
        None => {
            let Given {
                moment,
                salt,
                event,
            } = given;
            shared.submit(rt, pass, moment, salt, event)
        }
    }
}

/// Writes what is sent to the connection `of`, as it comes, until writing has ended. `by` is the
/// number of the collecting pass.
pub fn write_as_it_comes<L: LimitsName, T: TableName, O: Sink, B: Begun, R: Wait>(
    rt: &R,
    shared: &Shared<L, T>,
    by: u32,
    of: u32,
    desk: &Mutex<AnswerDesk<'_, L, T, O, B>>,
) {
    for _turn in rt.forever() {
        shared.wait_for_outputs(rt, by, of);
        if desk.lock(rt).write_ready(rt, shared) {
            return;
        }
    }
}
