// The run of a connection over a source and a sink.
ghost use Rattle.std.specs.Prelude.{◌≡◌, ◌≤◌, [], true, IfOk, length};
ghost use Rattle.authority_model.specs.Entering.{AreAllowed};
ghost use Rattle.authority_model.specs.Items.{sent};
ghost use Rattle.pipe_run.specs.Ends.{Pipes, traffic};
ghost use Rattle.pipe_run.specs.Faults.{InputFaults, OutputFaults, ReadsNothing};
ghost use Rattle.pipe_run.specs.Handed.{awaits_message};
ghost use Rattle.pipe_run.specs.Promises.{MayGoOn, MayPipe};
ghost use Rattle.pipe_run.specs.Supplies.{supply};
ghost use Rattle.pipe_run.specs.Stages.{EndsInput, Serves, standing};

use crate::ends::{PipeEnd, Stopped};
use crate::served::{CONNECTION, Served};
use crate::turning::{depart, open, take_message};
use authority_model::{Limits, Loaded};
use dbus_values::awaited;
use pk_outside::{Clock, Salt, Sink, Source, Tree};
use pk_types::{NoMemory, Text};
use source_buffer::{Filled, MessageBuffer};
use std::alloc::Global;
use usual_calls::{NextEvent, Usual, next_event};

/// How a run ends whose input ended before so many bytes of a message.
fn end_of_input<C: Clock, S: Salt, O: Sink>(
    served: &mut Served,
    rest: usize,
    clock: &mut C,
    salt: &mut S,
    output: &mut O,
) -> PipeEnd
    requires counted { served.old.sent ≡ sent served.old.past CONNECTION }
    requires waits { awaits_message served.old.past ≡ true }
    requires written { served.old.unsent ≡ [] }
    requires may { MayGoOn O.allowed (O.held output.old) served.old }
    ensures run { EndsInput (standing served.old 0 (supply (C.left clock.old) (C.gave clock.old)) (supply (S.left salt.old) (S.gave salt.old)) (O.held output.old)) (standing served.new 0 (supply (C.left clock.new) (C.gave clock.new)) (supply (S.left salt.new) (S.gave salt.new)) (O.held output.new)) rest result }
    ensures unread { ReadsNothing result }
    ensures write { OutputFaults O.held O.faults output.old output.new result }
{
    if rest != 0 {
        return PipeEnd::Truncated { rest: rest as u64 };
    }
    if let Err(stopped) = depart(served, clock, salt) {
        return stopped.end();
    }
    match served.write_out(output) {
        Ok(()) => PipeEnd::Done,
        Err(stopped) => stopped.end(),
    }
}

/// Answers the messages of the input one after another, until it ends or the first fault comes. The
/// answers are written before more is read.
fn serve<T: Tree, C: Clock, S: Salt, I: Source, O: Sink>(
    served: &mut Served,
    root: &Text,
    tree: &mut T,
    clock: &mut C,
    salt: &mut S,
    input: &mut I,
    output: &mut O,
) -> PipeEnd
    requires counted { served.old.sent ≡ sent served.old.past CONNECTION }
    requires waits { awaits_message served.old.past ≡ true }
    requires may { MayGoOn O.allowed (O.held output.old) served.old }
    ensures run { Serves (T.told tree.old) root.now (standing served.old (T.faults tree.old) (supply (C.left clock.old) (C.gave clock.old)) (supply (S.left salt.old) (S.gave salt.old)) (O.held output.old)) (standing served.new (T.faults tree.new) (supply (C.left clock.new) (C.gave clock.new)) (supply (S.left salt.new) (S.gave salt.new)) (O.held output.new)) (I.left input.old) (I.left input.new) (I.ended input.new) result }
    ensures read { InputFaults I.left I.faults input.old input.new result }
    ensures write { OutputFaults O.held O.faults output.old output.new result }
{
    let mut buffer = match MessageBuffer::new(served.alloc()) {
        Ok(buffer) => buffer,
        Err(NoMemory) => return PipeEnd::NoMemory,
    };
    let mut usual = Usual::new(served.alloc());
    'messages: loop {
        match next_event(served.alloc(), &mut usual, buffer.bytes()) {
            NextEvent::Whole { event, used } => {
                match take_message(served, event, root, tree, clock, salt, output) {
                    Ok(()) => buffer.take(used),
                    Err(stopped) => return stopped.end(),
                }
            }
            NextEvent::Bad { kind, at } => {
                return match served.write_out(output) {
                    Ok(()) => PipeEnd::BadBytes {
                        kind,
                        at: at as u64,
                    },
                    Err(stopped) => stopped.end(),
                };
            }
            NextEvent::Partial => {
                if let Err(stopped) = served.write_out(output) {
                    return stopped.end();
                }
                let wanted = awaited(buffer.bytes());
                match buffer.fill(input, wanted) {
                    Filled::There => {}
                    Filled::End => {
                        let rest = buffer.bytes().len();
                        return end_of_input(served, rest, clock, salt, output);
                    }
                    Filled::ReadFault => return PipeEnd::ReadFault,
                    Filled::NoMemory => return PipeEnd::NoMemory,
                }
            }
            NextEvent::NoMemory => return PipeEnd::NoMemory,
        }
    }
}

/// Serves one connection of this user: answers the messages that the input gives, and writes what
/// the connection is sent (D-Bus Specification, "Message Format"; the interface is that of the
/// reference manual, "org.freedesktop.PolicyKit1.Authority Interface").
///
/// The first load is handed in first, then the beginning of the connection, then what each message
/// asks; directly behind an entry that asks for a load, what the load of the root gives, or the
/// number of the cause of its refusal; and at the end of the input the end of the connection. All
/// that is handed in takes one reading of the clock, and the connection's own a random word. The
/// answers are written before more is read, and what was answered before a fault is written too. Only
/// where memory is refused the last of it may lack.
///
/// # Errors
/// `BadBytes` exactly where a message has a fault, with the first one and its place; `Truncated`
/// exactly where the input ends inside a message; `Full` exactly where a further entry was due and the
/// journal had reached its limit of entries or of counted bytes; `ReadFault` and `WriteFault`
/// exactly where the input or the output counted a fault, which its last call did; `NoMemory`, which
/// may come in place of any other answer.
pub fn run_pipe<T: Tree, C: Clock, S: Salt, I: Source, O: Sink>(
    alloc: Global,
    uid: u32,
    root: &Text,
    limits: Limits,
    first: Loaded,
    tree: &mut T,
    clock: &mut C,
    salt: &mut S,
    input: &mut I,
    output: &mut O,
) -> PipeEnd
    requires limits { AreAllowed limits }
    // Each prefix of what the connection is sent in some legal history may be written.
    requires may { MayPipe O.allowed (O.held output.old) }

    // What is written is the messages that the connection is sent in the legal history that the bytes
    // read make, as far as the end says.
    ensures run { Pipes (record { uid = uid; first = first; told = T.told tree.old; root = root.now }) limits (T.faults tree.old) (T.faults tree.new) (traffic (I.left input.old) (I.left input.new) (I.ended input.new) (O.held output.old) (O.held output.new) (supply (C.left clock.old) (C.gave clock.old)) (supply (C.left clock.new) (C.gave clock.new)) (supply (S.left salt.old) (S.gave salt.old)) (supply (S.left salt.new) (S.gave salt.new))) result }

    // A fault of the outside is told exactly where the object counted it, by its last call.
    ensures read { InputFaults I.left I.faults input.old input.new result }
    ensures write { OutputFaults O.held O.faults output.old output.new result }
{
    let mut served = match Served::start(alloc, limits) {
        Ok(served) => served,
        Err(NoMemory) => return PipeEnd::NoMemory,
    };
    match open(&mut served, uid, first, clock, salt, output) {
        Ok(()) => serve(&mut served, root, tree, clock, salt, input, output),
        Err(stopped) => stopped.end(),
    }
}
