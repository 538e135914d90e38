// As many bytes as are awaited.
ghost use Rattle.std.specs.Prelude.{◌≡◌, ◌+◌, ◌≤◌, ℕ, List, length};
ghost use Rattle.pk_outside.specs.Streams.{Gave};
ghost use Rattle.source_buffer.specs.Filling.{Fills, FillFaults};

use crate::buffer::{SourceBuffer, Unread};
use pk_outside::Source;

/// How far reading came.
#[derive(Clone, Copy, Debug, PartialEq, Eq)]
pub enum Filled {
    /// As many bytes as were awaited are there.
    There,
    /// The source ended before.
    End,
    /// The last read of the source failed, and counted one fault.
    ReadFault,
    /// Memory was refused.
    NoMemory,
}

impl SourceBuffer {
    /// Reads until so many bytes are there that are not taken, until the source ends, or until it
    /// fails. Where as many are there already nothing is read. Every answer but `ReadFault` leaves the
    /// source's count of faults; behind a read that failed no other read is made. Whatever the answer,
    /// all that was read is in the buffer.
    pub fn fill<I: Source>(&mut self, input: &mut I, wanted: usize) -> Filled
        ensures fills { (read : List ℕ) × Gave (I.left input.old) (I.left input.new) read × Fills (I.ended input.new) wanted self.old read self.new result }
        ensures idle { wanted ≤ length self.old → (self.new ≡ self.old) × (I.left input.new ≡ I.left input.old) }
        ensures faults { FillFaults I.left I.faults input.old input.new result }
        ensures later { I.faults input.old ≤ I.faults input.new }
        ensures same { I.origin input.new ≡ I.origin input.old }
        ensures fewer { result ≡ Filled.There → I.budget input.new + length self.new ≤ I.budget input.old + length self.old }
    {
        'reads: while self.bytes().len() < wanted {
            match self.read_once(input, wanted) {
                Ok(0) => return Filled::End,
                Ok(_) => {}
                Err(Unread::Failed) => return Filled::ReadFault,
                Err(Unread::NoMemory) => return Filled::NoMemory,
            }
        }
        Filled::There
    }
}
