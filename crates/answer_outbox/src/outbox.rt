// The messages that a connection is sent and that were not written yet.
ghost use Rattle.std.specs.Prelude.{◌≡◌, ◌<◌, ◌++◌, [], OnOk, OnErr};
ghost use Rattle.pk_outside.specs.Allowing.{MayGo};
ghost use Rattle.pk_outside.specs.Causes.{HasCause, FailsLast};
ghost use Rattle.pk_outside.specs.Streams.{GotUpTo};
ghost use Rattle.authority_laws.specs.Batches.{IsSendable};
ghost use Rattle.authority_messages.specs.Texts.{message_text};

use authority_model::{History, Output};
use pk_outside::{Failed, Sink};
use pk_types::NoMemory;
use std::alloc::Global;
use std::marker::Model;
use usual_replies::put_message_of;

/// With this many bytes it is long: 64 KiB.
const WRITE_BYTES: usize = 65_536;

/// The bytes that a connection is sent and that were not written yet, since many answers go with
/// one write. Contracts see these bytes.
#[derive(Drop)]
pub struct Outbox {
    /// What was put in, and from `start` on is not written yet.
    bytes: Vec<u8>,
    start: usize,
}

impl Model for Outbox {
    ghost use Rattle.std.specs.Prelude.{ℕ, List, ◌≤◌, length, drop};

    ghost Value = { List ℕ };

    ghost view = { λ o. drop o.start o.bytes.items };

    ghost invariant = { λ o. o.start ≤ length o.bytes.items };
}

impl Outbox {
    /// An outbox with nothing in it. It takes no memory.
    pub fn new(alloc: Global) -> Self
        ensures empty { result ≡ [] }
    {
        Outbox {
            bytes: Vec::new(alloc),
            start: 0,
        }
    }

    /// Whether it is long enough to be written.
    pub fn is_long(&self) -> bool {
        self.bytes.len() >= WRITE_BYTES
    }

    /// Puts the message of an output behind the bytes that are in it.
    ///
    /// # Errors
    /// `NoMemory` where memory was refused. Nothing is left in it then.
    pub fn put_message(
        &mut self,
        alloc: Global,
        output: &Output,
        history: &History,
        serial: u32,
    ) -> Result<(), NoMemory>
        requires sendable { IsSendable output.now.message }
        requires serial { 0 < serial }
        ensures put { OnOk result (self.new ≡ self.old ++ message_text history.now.loads serial output.now) }
        ensures dropped { OnErr result (self.new ≡ []) }
    {
        match put_message_of(alloc, output, history, serial, &mut self.bytes) {
            Ok(()) => Ok(()),
            Err(NoMemory) => {
                self.bytes = Vec::new(alloc);
                self.start = 0;
                Err(NoMemory)
            }
        }
    }

    /// Writes all that is in it.
    ///
    /// # Errors
    /// `Failed` where the last write failed and counted one fault. What was not written stays.
    pub fn write_out<O: Sink>(&mut self, output: &mut O) -> Result<(), Failed>
        requires may { MayGo O.allowed (O.held output.old) self.old }
        ensures written { GotUpTo (O.held output.old) (O.held output.new) self.old self.new }
        ensures all { OnOk result (self.new ≡ []) }
        ensures cause { HasCause (O.faults output.old) (O.faults output.new) result }
        ensures quiet { OnOk result (O.faults output.new ≡ O.faults output.old) }
        ensures last { OnErr result (FailsLast O.held O.faults output.old output.new) }
    {
        while self.start < self.bytes.len() {
            let (_, rest) = self.bytes.split_at(self.start);
            self.start += output.write(rest)?;
        }
        self.bytes.clear();
        self.start = 0;
        Ok(())
    }
}
