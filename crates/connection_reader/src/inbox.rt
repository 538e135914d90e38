// What was read of a connection.
ghost use Rattle.std.specs.Prelude.{◌≡◌, ◌≤◌, ℕ, drop, length};
ghost use Rattle.dbus_values.specs.Next.{Partial, next_of};
ghost use Rattle.usual_calls.specs.Nexts.{Tells, TellsStep};
ghost use Rattle.connection_reader.specs.Stops.{ReadsOn, SightFaults, StopFaults};

use crate::ends::ReadStop;
use crate::handing::Answerer;
use dbus_values::awaited;
use pk_outside::Source;
use source_buffer::{Filled, MessageBuffer};
use std::alloc::Global;
use std::marker::Model;
use usual_calls::{NextEvent, Usual, next_event};

/// Whether something was handed in since the last read.
#[derive(Clone, Copy)]
enum SinceRead {
    Nothing,
    Something,
}

/// The bytes that were read of a connection and belong to no message yet. Contracts see these bytes.
#[derive(Drop)]
pub struct Inbox {
    alloc: Global,
    buffer: MessageBuffer,
    usual: Usual,
    since_read: SinceRead,
}

impl Model for Inbox {
    ghost use Rattle.std.specs.Prelude.{ℕ, List};

    ghost Value = { List ℕ };

    ghost view = { λ i. i.buffer };
}

impl Inbox {
    /// The bytes of this buffer.
    pub fn new(alloc: Global, buffer: MessageBuffer) -> Inbox
        ensures same { result ≡ buffer }
    {
        Inbox {
            alloc,
            buffer,
            usual: Usual::new(alloc),
            since_read: SinceRead::Nothing,
        }
    }

    /// What the bytes begin with, and what the message asks that they begin with.
    pub(crate) fn next_event(&mut self) -> NextEvent
        ensures exact { Tells self.old result }
        ensures stepped { TellsStep result }
        ensures same { self.new ≡ self.old }
    {
        next_event(self.alloc, &mut self.usual, self.buffer.bytes())
    }

    /// Takes the next message, which has so many bytes, and tells who answers it. Where it is all that
    /// a read gave, the reading half does. The writing half does where there is more to read first: so
    /// a client that sends many messages before it reads an answer never keeps the reading half from
    /// reading.
    pub(crate) fn take(&mut self, used: usize) -> Answerer
        requires within { used ≤ length self.old }
        ensures taken { self.new ≡ drop used self.old }
    {
        self.buffer.take(used);
        let since_read = self.since_read;
        self.since_read = SinceRead::Something;
        match since_read {
            SinceRead::Nothing if self.buffer.bytes().is_empty() => Answerer::Reader,
            _ => Answerer::Writer,
        }
    }

    /// Reads on behind less than a message, until as many bytes are there as are awaited.
    pub(crate) fn read_on<I: Source>(&mut self, source: &mut I) -> Option<ReadStop>
        requires partial { next_of self.old ≡ Partial }
        ensures reads { ReadsOn (I.left source.old) (I.left source.new) (I.ended source.new) self.old self.new result }
        ensures faults { StopFaults I.left I.faults source.old source.new result }
        ensures sights { (count : ℕ) → SightFaults count count result }
        ensures later { I.faults source.old ≤ I.faults source.new }
        ensures same { I.origin source.new ≡ I.origin source.old }
    {
        self.since_read = SinceRead::Nothing;
        read_on(source, &mut self.buffer)
    }
}

/// Reads on behind less than a message, until as many bytes are there as are awaited.
fn read_on<I: Source>(source: &mut I, buffer: &mut MessageBuffer) -> Option<ReadStop>
    requires partial { next_of buffer.old ≡ Partial }
    ensures reads { ReadsOn (I.left source.old) (I.left source.new) (I.ended source.new) buffer.old buffer.new result }
    ensures faults { StopFaults I.left I.faults source.old source.new result }
    ensures sights { (count : ℕ) → SightFaults count count result }
    ensures later { I.faults source.old ≤ I.faults source.new }
    ensures same { I.origin source.new ≡ I.origin source.old }
{
    let wanted = awaited(buffer.bytes());
    match buffer.fill(source, wanted) {
        Filled::There => None,
        Filled::End => {
            let rest = buffer.bytes().len();
            if rest == 0 {
                Some(ReadStop::Done)
            } else {
                Some(ReadStop::Truncated { rest })
            }
        }
        Filled::ReadFault => Some(ReadStop::ReadFault),
        Filled::NoMemory => Some(ReadStop::NoMemory),
    }
}
