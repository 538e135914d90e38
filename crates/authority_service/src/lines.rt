// The lines that a service prints of its closed journal.
ghost use Rattle.std.specs.Prelude.{◌≡◌, ◌++◌, ◌∷◌, [], IfOk, List, OnOk, codes, map, string_bytes};
ghost use Rattle.std.specs.List.{flat_map};
ghost use Rattle.authority_model.specs.declared.journal.Item.{Item};
ghost use Rattle.authority_service.specs.Lines.{connection_line, connection_lines, end_word, entries_line, opening_text, plain_word, scanned, service_text};
ghost use Rattle.journal_scan.specs.Counts.{tally_of};
ghost use Rattle.journal_scan.specs.Orderly.{AreCounts};

use authority_model::Loaded;
use connection_serve::{End, LiveEnd};
use journal_scan::{ConnectionLine, Counts, Totals};
use pk_types::{ByteList, List, NoMemory};
use scenario_text::skipped_text;
use service_slots::{Line, ShutSlot};
use std::alloc::{AllocError, Global};

/// The word for how a connection ended, where no look at a process failed.
fn plain_word(end: End) -> &'static str
    ensures word { result.now ≡ plain_word end }
{
    match end {
        End::Ended { .. } => "ended",
        End::WriteFault => "write-fault",
        End::ReadFault => "read-fault",
        End::BadShake { .. } | End::ShakeCut => "bad-handshake",
        End::BadBytes { .. } => "bad-bytes",
        End::Truncated { .. } => "truncated",
        End::Done => "done",
        End::NoMemory => "no-memory",
    }
}

/// The word for how a connection ended.
fn end_word(end: LiveEnd) -> &'static str
    ensures word { result.now ≡ end_word end }
{
    match end {
        LiveEnd::SightFault => "sight-fault",
        LiveEnd::Plain(end) => plain_word(end),
    }
}

/// Adds the line of a connection.
fn push_line(text: &mut String, line: &Line, counts: &Counts) -> Result<(), NoMemory>
    ensures ok { OnOk result ((past : List Item) → AreCounts past counts.now → string_bytes text.new ≡ string_bytes text.old ++ connection_line line.now (tally_of past line.now.number)) }
{
    let Some(tally) = counts.tallies.get(line.number as usize) else {
        return Err(NoMemory);
    };
    let Line {
        number,
        uid,
        end,
        ..
    } = *line;
    let messages = tally.messages;
    let answers = tally.answers;
    write!(text, "connection {number} {uid} ")?;
    text.push_str(end_word(end))?;
    write!(text, " {messages} {answers}\n")?;
    Ok(())
}

/// Adds the lines of connections, one after another.
fn push_lines(text: &mut String, lines: &[Line], counts: &Counts) -> Result<(), NoMemory>
    ensures ok { OnOk result ((past : List Item) → AreCounts past counts.now → string_bytes text.new ≡ string_bytes text.old ++ connection_lines past lines.now) }
{
    for line in lines {
        push_line(text, line, counts)?;
    }
    Ok(())
}

/// Adds the line of all entries.
fn push_totals(text: &mut String, totals: &Totals) -> Result<(), AllocError>
    ensures ok { OnOk result (string_bytes text.new ≡ string_bytes text.old ++ entries_line totals.now) }
{
    let entries = totals.entries;
    let loads = totals.loads;
    let refused = totals.refused;
    write!(text, "entries {entries} loads {loads} refused {refused}\n")
}

/// What a service tells of its first load: the lines of what this skipped, or nothing where the audit text is
/// asked for.
///
/// # Errors
/// `NoMemory` alone.
pub fn opening_text(alloc: Global, audit: bool, first: &Loaded) -> Result<ByteList, NoMemory>
    ensures text { IfOk result (λ text. text ≡ opening_text audit first.now) }
{
    if audit {
        return Ok(List::new(alloc));
    }
    skipped_text(alloc, first.faults.as_slice())
}

/// What a service prints of its closed journal, with these counts, and of these connections.
///
/// # Errors
/// `NoMemory` alone.
pub fn service_text(alloc: Global, lines: &[Line], counts: &Counts) -> Result<ByteList, NoMemory>
    ensures text { IfOk result (λ text. (past : List Item) → AreCounts past counts.now → text ≡ service_text past lines.now) }
{
    let mut text = String::new(alloc);
    push_lines(&mut text, lines, counts)?;
    push_totals(&mut text, &counts.totals)?;
    Ok(List::from_vec(text.into_bytes()))
}

/// What a `connection` line tells to whoever looks through the journal.
fn scanned(line: &Line) -> ConnectionLine
    ensures { result ≡ scanned line.now }
{
    ConnectionLine {
        number: line.number,
        uid: line.uid,
        sighter: line.sighter,
    }
}

/// The same of all lines.
///
/// # Errors
/// `NoMemory` alone.
pub fn scanned_lines(alloc: Global, lines: &[Line]) -> Result<Vec<ConnectionLine>, NoMemory>
    ensures lines { IfOk result (λ all. all.items ≡ map scanned lines.now) }
{
    let mut all = Vec::with_capacity(alloc, lines.len())?;
    for line in lines {
        all.push(scanned(line))?;
    }
    Ok(all)
}

/// The lines of all slots, slot after slot.
///
/// # Errors
/// `NoMemory` alone.
pub fn all_lines(alloc: Global, slots: &[ShutSlot]) -> Result<Vec<Line>, NoMemory>
    ensures lines { IfOk result (λ lines. lines.items ≡ flat_map (λ s. s.lines.items) slots.now) }
{
    let mut all = Vec::new(alloc);
    for slot in slots {
        all.extend_from_slice(slot.lines.as_slice())?;
    }
    Ok(all)
}
