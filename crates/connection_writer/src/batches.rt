// Writes the messages of a batch.
ghost use Rattle.std.specs.Prelude.{◌+◌, ◌<◌, ◌≤◌, ◌++◌, length};
ghost use Rattle.pk_outside.specs.Allowing.{MayFronts};
ghost use Rattle.authority_laws.specs.Batches.{AreSendable, IsSendable};
ghost use Rattle.authority_messages.specs.Texts.{message_text, texts};
ghost use Rattle.connection_writer.specs.Writing.{IsWritable};
ghost use Rattle.connection_writer.specs.Written.{HasStopped, Writes, WritesUpTo};
ghost use Rattle.pk_types.specs.declared.decimals.TheConstants.{MAX_NUMBER};

use crate::ends::WriteStop;
use answer_outbox::Outbox;
use authority_core::Batch;
use authority_model::{History, Output};
use pk_outside::Sink;
use pk_types::List;
use std::alloc::Global;

/// Puts the message of one output into the outbox, and writes all that is in this once it is long.
fn add_message<O: Sink>(
    alloc: Global,
    history: &History,
    output: &Output,
    serial: u32,
    outbox: &mut Outbox,
    sink: &mut O,
) -> Result<(), WriteStop>
    requires sendable { IsSendable output.now.message }
    requires serial { 0 < serial }
    requires may { MayFronts O.allowed (O.held sink.old) (outbox.old ++ message_text history.now.loads serial output.now) }
    ensures writes { WritesUpTo (O.held sink.old) (O.held sink.new) (outbox.old ++ message_text history.now.loads serial output.now) outbox.new result }
    ensures later { O.faults sink.old ≤ O.faults sink.new }
    ensures stopped { HasStopped (O.faults sink.old) (O.faults sink.new) result }
{
    outbox.put_message(alloc, output, history, serial)?;
    if outbox.is_long() {
        outbox.write_out(sink)?;
    }
    Ok(())
}

/// Puts the messages of outputs into the outbox, of which the first has this serial and each other
/// the next one, and writes them, but for those that are in it then.
fn add_messages<O: Sink>(
    alloc: Global,
    history: &History,
    outputs: &[Output],
    first: u32,
    outbox: &mut Outbox,
    sink: &mut O,
) -> Result<(), WriteStop>
    requires first { 0 < first }
    requires few { first + length outputs.now ≤ MAX_NUMBER }
    requires sendable { AreSendable outputs.now }
    requires may { MayFronts O.allowed (O.held sink.old) (outbox.old ++ texts history.now.loads first outputs.now) }
    ensures writes { WritesUpTo (O.held sink.old) (O.held sink.new) (outbox.old ++ texts history.now.loads first outputs.now) outbox.new result }
    ensures later { O.faults sink.old ≤ O.faults sink.new }
    ensures stopped { HasStopped (O.faults sink.old) (O.faults sink.new) result }
{
    let mut serial = first;
    for output in outputs {
        add_message(alloc, history, output, serial, outbox, sink)?;
        serial += 1;
    }
    Ok(())
}

/// Writes the messages of a batch, in few writes.
pub fn write_batch<O: Sink>(alloc: Global, batch: Batch, sink: &mut O) -> Result<(), WriteStop>
    requires writable { IsWritable batch }
    requires may { MayFronts O.allowed (O.held sink.old) (texts batch.loads batch.from batch.outputs) }
    ensures writes { Writes (O.held sink.old) (O.held sink.new) (texts batch.loads batch.from batch.outputs) result }
    ensures later { O.faults sink.old ≤ O.faults sink.new }
    ensures stopped { HasStopped (O.faults sink.old) (O.faults sink.new) result }
{
    let Batch {
        from,
        outputs,
        loads,
    } = batch;
    let history = History {
        entries: List::new(alloc),
        loads,
    };
    let mut outbox = Outbox::new(alloc);
    add_messages(alloc, &history, outputs.as_slice(), from, &mut outbox, sink)?;
    outbox.write_out(sink)?;
    Ok(())
}
