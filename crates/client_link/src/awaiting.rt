// Waiting for a whole message.
ghost use Rattle.std.specs.Prelude.{◌≡◌, ◌+◌, ◌≤◌, ◌++◌, ℕ, List, length, OnOk};
ghost use Rattle.pk_outside.specs.Streams.{Gave};
ghost use Rattle.client_link.specs.Faults.{faults_after};
ghost use Rattle.client_link.specs.Messages.{Awaits};

use crate::stop::LinkStop;
use dbus_values::{Next, awaited, next_message};
use pk_outside::Source;
use source_buffer::{Filled, MessageBuffer};

/// Reads until a whole message is at the front of the buffer.
pub fn await_message<I: Source>(source: &mut I, buffer: &mut MessageBuffer) -> Result<(), LinkStop>
    ensures awaits { (read : List ℕ) × Gave (I.left source.old) (I.left source.new) read × Awaits (I.ended source.new) (buffer.old ++ read) buffer.new result }
    ensures faults { I.faults source.new ≡ faults_after (I.faults source.old) result }
    ensures same { I.origin source.new ≡ I.origin source.old }
    ensures fewer { OnOk result (I.budget source.new + length buffer.new ≤ I.budget source.old + length buffer.old) }
{
    'pieces: loop {
        match next_message(buffer.bytes()) {
            Next::Whole { .. } => return Ok(()),
            Next::Bad { kind, at } => {
                return Err(LinkStop::BadBytes {
                    kind,
                    at: at as u64,
                });
            }
            Next::Partial => {}
        }
        let wanted = awaited(buffer.bytes());
        match buffer.fill(source, wanted) {
            Filled::There => {}
            Filled::End => return Err(LinkStop::Cut),
            Filled::ReadFault => return Err(LinkStop::Failed),
            Filled::NoMemory => return Err(LinkStop::NoMemory),
        }
    }
}
