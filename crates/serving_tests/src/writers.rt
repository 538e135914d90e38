// What is sent to a connection is written until it has gone.
ghost use Rattle.std.specs.Prelude.{◌≡◌, ◌≢◌};
ghost use Rattle.authority_model.specs.Entering.{AreAllowed};
ghost use Rattle.authority_model.specs.Given.{IsStepped};
ghost use Rattle.history_lock.specs.Entries.{NoneBy};
ghost use Rattle.shared_authority.specs.Journals.{caller_of};
ghost use Rattle.connection_writer.specs.Promises.{MayAnswer};
ghost use Rattle.connection_writer.specs.Writing.{StandsAt};

use crate::passes::{has_place, is_entered};
use authority_model::{Call, Event, Limits};
use connection_writer::{
    AnswerDesk, Begun, Writer, WriterEnd, submit_at_desk, write_answers, write_as_it_comes,
};
use dbus_values::{Next, next_message};
use history_lock::{Opened, Pass, TableName, open_table};
use memory_outside::ByteSink;
use pk_outside::Sink;
use pk_types::NoMemory;
use shared_authority::{Given, Kept, LimitsName, Shared};
use std::alloc::Global;
use std::marker::Brand;
use std::sync::{Mutex, Wait};
use std::test::Fail;
use test_parts::new_pass;

/// The type, the serial and the reply serial of a message.
type Head = (u8, u32, Option<u32>);

/// How the writing of the same two answers ended, at once and at a desk, and what was written.
#[derive(Clone, Copy)]
struct Written {
    /// How it ended, where all answers were there.
    end: WriterEnd,
    /// The heads of the two messages, if there are two and nothing more.
    heads: Option<[Head; 2]>,
    /// How it ended at a desk.
    desk_end: WriterEnd,
    /// Whether the same was written there.
    is_same: bool,
}

/// Two announcements of processes that no table lists are answered by errors, in this order, with
/// the serials 1 and 2 (D-Bus Specification, "Message Format"; 3 is the type of an error).
#[test]
fn answers_are_written_until_the_connection_has_gone(rt: HostRuntime) -> Result<(), Fail> {
    let written = name_limits::<Brand, _>(&rt, rt.alloc(), Limits::GREATEST).ok_or("enters")?;
    assert_eq!(rt; written.end, WriterEnd::All);
    assert_eq!(rt; written.heads, Some([(3, 1, Some(8)), (3, 2, Some(9))]));
    assert_eq!(rt; written.desk_end, WriterEnd::All);
    assert!(rt; written.is_same);
    Ok(())
}

fn name_limits<L: LimitsName, R: Wait>(rt: &R, alloc: Global, limits: Limits) -> Option<Written>
    requires allowed { AreAllowed limits }
    requires limits { limits ≡ L.limits }
{
    let opened = open_table::<Kept<L>>(alloc).ok()?;
    write_each::<L, Brand, R>(rt, alloc, limits, opened)
}

fn write_each<L: LimitsName, T: TableName, R: Wait>(
    rt: &R,
    alloc: Global,
    limits: Limits,
    opened: Opened<Kept<L>>,
) -> Option<Written>
    requires allowed { AreAllowed limits }
    requires limits { limits ≡ L.limits }
    requires table { opened ≡ T.table }
{
    let (shared, mut zero) = Shared::<L, T>::start(alloc, limits, opened).ok()?;
    write_twice(rt, alloc, &shared, &mut zero)
}

/// One connection after another sends the same two calls.
fn write_twice<L: LimitsName, T: TableName, R: Wait>(
    rt: &R,
    alloc: Global,
    shared: &Shared<L, T>,
    zero: &mut Pass<Kept<L>, T>,
) -> Option<Written> {
    let mut sink = sink(alloc).ok()?;
    let end = write_at_once(rt, alloc, shared, zero, &mut sink)?;
    let (desk_end, is_same) = connect_at_desk(rt, alloc, shared, zero, sink.bytes())?;
    Some(Written {
        end,
        heads: two_heads(sink.bytes()),
        desk_end,
        is_same,
    })
}

/// A sink of which a write takes 100 bytes.
fn sink(alloc: Global) -> Result<ByteSink, NoMemory> {
    ByteSink::new(alloc, 4096, 100, Vec::new(alloc))
}

/// Writes the answers to connection 1, once it has departed, and answers how that ended.
fn write_at_once<L: LimitsName, T: TableName, R: Wait>(
    rt: &R,
    alloc: Global,
    shared: &Shared<L, T>,
    zero: &mut Pass<Kept<L>, T>,
    sink: &mut ByteSink,
) -> Option<WriterEnd> {
    let mut pass = new_pass(rt, shared, zero)?;
    let mut collector = new_pass(rt, shared, zero)?;
    if !comes_and_goes(rt, shared, &mut pass) {
        return None;
    }
    Some(write_answers(rt, alloc, shared, &mut collector, 1, sink))
}

/// Enters a connection, its two calls and its end, and answers whether all were entered.
fn comes_and_goes<L: LimitsName, T: TableName, R: Wait>(
    rt: &R,
    shared: &Shared<L, T>,
    pass: &mut Pass<Kept<L>, T>,
) -> bool {
    is_entered(rt, shared, pass, Event::Connect { uid: 1000 })
        && is_entered(rt, shared, pass, announce(8))
        && is_entered(rt, shared, pass, announce(9))
        && is_entered(rt, shared, pass, Event::Depart)
}

/// The heads of two messages, if the bytes are these two and nothing more.
fn two_heads(bytes: &[u8]) -> Option<[Head; 2]> {
    let (first, rest) = head(bytes)?;
    let (second, rest) = head(rest)?;
    if rest.is_empty() {
        Some([first, second])
    } else {
        None
    }
}

/// The head of the message in front, and the bytes behind it.
fn head(bytes: &[u8]) -> Option<(Head, &[u8])> {
    let Next::Whole { message, used } = next_message(bytes) else {
        return None;
    };
    let (_, rest) = bytes.split_at(used);
    Some(((message.kind, message.serial, message.reply_serial), rest))
}

/// Another connection writes at a desk. Answers how that ended, and whether this was written.
fn connect_at_desk<L: LimitsName, T: TableName, R: Wait>(
    rt: &R,
    alloc: Global,
    shared: &Shared<L, T>,
    zero: &mut Pass<Kept<L>, T>,
    wanted: &[u8],
) -> Option<(WriterEnd, bool)> {
    let mut pass = new_pass(rt, shared, zero)?;
    let mut collector = new_pass(rt, shared, zero)?;
    if !is_entered(rt, shared, &mut pass, Event::Connect { uid: 1000 }) {
        return None;
    }
    write_the_same_at_desk(rt, alloc, shared, &mut pass, &mut collector, wanted)
}

/// The same for a connection that was entered, which hands in the same two calls.
fn write_the_same_at_desk<L: LimitsName, T: TableName, R: Wait>(
    rt: &R,
    alloc: Global,
    shared: &Shared<L, T>,
    pass: &mut Pass<Kept<L>, T>,
    collector: &mut Pass<Kept<L>, T>,
    wanted: &[u8],
) -> Option<(WriterEnd, bool)>
    requires fresh { NoneBy caller_of collector.old.number collector.old.history }
{
    let by = collector.number();
    let of = pass.number();
    if of == 0 {
        return None;
    }
    let mut sink = sink(alloc).ok()?;
    let writer = Writer {
        pass: collector,
        sink: &mut sink,
        alloc,
        of,
        end: None,
    };
    let writer = write_at_desk::<L, T, ByteSink, Brand, R>(rt, shared, pass, writer, by)?;
    let end = writer.end?;
    Some((end, sink.bytes() == wanted))
}

/// Writes at a desk: first by the one who hands in each call, and then by one who waits for what is
/// left. None where something was not entered.
fn write_at_desk<'w, L: LimitsName, T: TableName, O: Sink, B: Begun, R: Wait>(
    rt: &R,
    shared: &Shared<L, T>,
    pass: &mut Pass<Kept<L>, T>,
    writer: Writer<'w, L, T, O>,
    by: u32,
) -> Option<Writer<'w, L, T, O>>
    requires of { (writer.of ≡ B.of) × (B.of ≢ 0) }
    requires names { (writer.pass.ghost_name ≡ B.pass_name) × (writer.sink.ghost_name ≡ B.sink_name) }
    requires stands { StandsAt L.limits B.of B.held B.faults B.pass (O.held writer.sink.now) (O.faults writer.sink.now) writer.pass.now writer.end }
    requires may { MayAnswer O.allowed B.held B.pass.number B.of }
{
    let of = writer.of;
    let desk: Mutex<AnswerDesk<L, T, O, B>> = Mutex::new(AnswerDesk::new(writer));
    if !hands_in(rt, shared, &desk, pass) {
        return None;
    }
    write_as_it_comes(rt, shared, by, of, &desk);
    Some(desk.into_inner().into_writer())
}

/// Hands in the two calls at a desk and departs, and answers whether all was entered.
fn hands_in<L: LimitsName, T: TableName, O: Sink, B: Begun, R: Wait>(
    rt: &R,
    shared: &Shared<L, T>,
    desk: &Mutex<AnswerDesk<'_, L, T, O, B>>,
    pass: &mut Pass<Kept<L>, T>,
) -> bool {
    has_place(submit_at_desk(rt, shared, desk, pass, given(8)))
        && has_place(submit_at_desk(rt, shared, desk, pass, given(9)))
        && is_entered(rt, shared, pass, Event::Depart)
}

/// That announcement, at the moment 0 and with the random word 0.
fn given(serial: u32) -> Given
    ensures event { IsStepped result.event }
    ensures moment { result.moment ≡ 0 }
{
    Given {
        moment: 0,
        salt: 0,
        event: announce(serial),
    }
}

/// An announcement of process 5, in the call with this serial.
fn announce(serial: u32) -> Event
    ensures { IsStepped result }
{
    Event::Call {
        serial,
        quiet: false,
        call: Call::Announce { pid: 5, start: 5 },
    }
}
