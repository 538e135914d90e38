// Writing audit texts.
ghost use Rattle.std.specs.Prelude.{◌≡◌, ◌≤◌, ◌+◌, ◌<◌, ◌^◌, ◌∷◌, [], OnOk, OnErr, IfOk, IfErr, length};
ghost use Rattle.std.specs.List.{flat_map};
ghost use Rattle.pk_outside.specs.Allowing.{MayFronts, MayGo};
ghost use Rattle.pk_outside.specs.Causes.{FailsLast, Rose};
ghost use Rattle.pk_outside.specs.Streams.{Got, GotFront};
ghost use Rattle.audit_words.specs.Buffers.{emptied};
ghost use Rattle.audit_text.specs.Audit.{audit_text};
ghost use Rattle.audit_text.specs.Lines.{line};
ghost use Rattle.audit_text.specs.Writes.{MayWrite, Writes, desk, history_lines, item_lines, load_lines};

use crate::fault::AuditWriteRefused;
use crate::heads::{LoadHead, TextHead};
use crate::measuring::longest_line;
use crate::putting::put_line;
use audit_values::Spell;
use audit_words::LineBuffer;
use authority_model::{History, Loaded, LoadedList};
use pk_outside::{Failed, Sink, write_all};
use pk_types::{List, NoMemory};
use std::alloc::Global;

/// So many bytes are written at once, or more by less than a line.
const PIECE: usize = 65_536;

/// Writes the bytes of the buffer where they are a piece or more.
fn write_piece<O: Sink>(buffer: &mut LineBuffer, output: &mut O) -> Result<(), Failed>
    requires whole { buffer.old.count ≡ length buffer.old.kept }
    requires small { buffer.old.room < 2 ^ 64 }
    requires may { MayGo O.allowed (O.held output.old) buffer.old.kept }
    ensures writes { Writes O.held O.faults (desk buffer.old output.old) (desk buffer.new output.new) result [] }
{
    if buffer.count() < PIECE {
        return Ok(());
    }
    write_all(output, buffer.bytes())?;
    buffer.clear();
    Ok(())
}

/// Writes the line of a value, which begins with this word.
fn write_line<T: Spell, O: Sink>(
    buffer: &mut LineBuffer,
    word: &[u8],
    value: &T,
    output: &mut O,
) -> Result<(), Failed>
    requires may { MayWrite O.allowed O.held (desk buffer.old output.old) ((line word.now T.codec).spell value.now ∷ []) }
    ensures writes { Writes O.held O.faults (desk buffer.old output.old) (desk buffer.new output.new) result
        ((line word.now T.codec).spell value.now ∷ []) }
{
    put_line(buffer, word, value);
    write_piece(buffer, output)
}

/// Writes a line for each value.
fn write_lines<T: Spell, O: Sink>(
    buffer: &mut LineBuffer,
    word: &[u8],
    values: &List<T>,
    output: &mut O,
) -> Result<(), Failed>
    requires may { MayWrite O.allowed O.held (desk buffer.old output.old) (item_lines (line word.now T.codec) values.now) }
    ensures writes { Writes O.held O.faults (desk buffer.old output.old) (desk buffer.new output.new) result
        (item_lines (line word.now T.codec) values.now) }
{
    let items = values.as_slice();
    for value in items {
        write_line(buffer, word, value, output)?;
    }
    Ok(())
}

/// Writes the lines of a load.
fn write_load<O: Sink>(
    buffer: &mut LineBuffer,
    loaded: &Loaded,
    output: &mut O,
) -> Result<(), Failed>
    requires may { MayWrite O.allowed O.held (desk buffer.old output.old) (load_lines loaded.now) }
    ensures writes { Writes O.held O.faults (desk buffer.old output.old) (desk buffer.new output.new) result (load_lines loaded.now) }
{
    write_line(buffer, b"load", &LoadHead::of(loaded), output)?;
    write_lines(buffer, b"action", &loaded.policy.actions, output)?;
    write_lines(buffer, b"rule", &loaded.policy.entries, output)?;
    write_lines(buffer, b"admin", &loaded.policy.admins, output)?;
    write_lines(buffer, b"user", &loaded.world.users, output)?;
    write_lines(buffer, b"group", &loaded.world.groups, output)?;
    write_lines(buffer, b"session", &loaded.world.sessions, output)?;
    write_lines(buffer, b"process", &loaded.world.processes, output)?;
    write_lines(buffer, b"fault", &loaded.faults, output)
}

/// Writes the lines of all loads.
fn write_loads<O: Sink>(
    buffer: &mut LineBuffer,
    loads: &LoadedList,
    output: &mut O,
) -> Result<(), Failed>
    requires may { MayWrite O.allowed O.held (desk buffer.old output.old) (flat_map load_lines loads.now) }
    ensures writes { Writes O.held O.faults (desk buffer.old output.old) (desk buffer.new output.new) result
        (flat_map load_lines loads.now) }
{
    let items = loads.as_slice();
    for load in items {
        write_load(buffer, load, output)?;
    }
    Ok(())
}

/// Writes the lines of a history, up to the last ones, which are fewer than a piece: the buffer keeps them.
fn write_history<O: Sink>(
    buffer: &mut LineBuffer,
    history: &History,
    output: &mut O,
) -> Result<(), Failed>
    requires may { MayWrite O.allowed O.held (desk buffer.old output.old) (history_lines history.now) }
    ensures writes { Writes O.held O.faults (desk buffer.old output.old) (desk buffer.new output.new) result
        (history_lines history.now) }
{
    write_line(buffer, b"audit", &TextHead::of(history), output)?;
    write_loads(buffer, &history.loads, output)?;
    write_lines(buffer, b"entry", &history.entries, output)
}

/// An empty buffer with room for a line that is no longer than this, after bytes that are fewer than a piece.
fn buffer_for(alloc: Global, most: usize) -> Result<LineBuffer, NoMemory>
    ensures empty { IfOk result (λ buffer. buffer ≡ emptied (PIECE + most)) }
    ensures small { IfOk result (λ _. PIECE + most < 2 ^ 64) }
{
    match most.checked_add(PIECE) {
        Some(room) => LineBuffer::with_room(alloc, room),
        None => Err(NoMemory),
    }
}

/// Writes all lines of a history, and then all that the buffer keeps of them.
fn write_text<O: Sink>(
    buffer: &mut LineBuffer,
    history: &History,
    output: &mut O,
) -> Result<(), Failed>
    requires empty { buffer.old.kept ≡ [] }
    requires may { MayWrite O.allowed O.held (desk buffer.old output.old) (history_lines history.now) }
    ensures whole { OnOk result (Got (O.held output.old) (O.held output.new) (audit_text history.now)) }
    ensures quiet { OnOk result (O.faults output.new ≡ O.faults output.old) }
    ensures front { OnErr result (GotFront (O.held output.old) (O.held output.new) (audit_text history.now)) }
    ensures last { OnErr result (FailsLast O.held O.faults output.old output.new) }
    ensures later { O.faults output.old ≤ O.faults output.new }
{
    write_history(buffer, history, output)?;
    write_all(output, buffer.bytes())?;
    Ok(())
}

/// Writes the audit text of a history, in pieces. All memory is taken before the first byte is written: that of
/// one piece and of the longest line.
///
/// # Errors
/// `WriteFault` where the sink failed and counted it; a prefix of the text was written. `NoMemory` where memory
/// was refused; nothing was written.
pub fn write<O: Sink>(
    alloc: Global,
    history: &History,
    output: &mut O,
) -> Result<(), AuditWriteRefused>
    requires may { MayFronts O.allowed (O.held output.old) (audit_text history.now) }
    ensures whole { OnOk result (Got (O.held output.old) (O.held output.new) (audit_text history.now)) }
    ensures fault { IfErr result (λ refused. refused ≡ AuditWriteRefused.WriteFault →
        Rose (O.faults output.old) (O.faults output.new)
        × GotFront (O.held output.old) (O.held output.new) (audit_text history.now)) }
    ensures memory { IfErr result (λ refused. refused ≡ AuditWriteRefused.NoMemory → output.new ≡ output.old) }
    ensures later { O.faults output.old ≤ O.faults output.new }
    ensures quiet { OnOk result (O.faults output.new ≡ O.faults output.old) }
    ensures last { IfErr result (λ refused. refused ≡ AuditWriteRefused.WriteFault → FailsLast O.held O.faults output.old output.new) }
{
    let most = longest_line(alloc, history);
    let Ok(mut buffer) = buffer_for(alloc, most) else {
        return Err(AuditWriteRefused::NoMemory);
    };
    match write_text(&mut buffer, history, output) {
        Ok(()) => Ok(()),
        Err(Failed) => Err(AuditWriteRefused::WriteFault),
    }
}
