// Reading audit texts.
ghost use Rattle.std.specs.Prelude.{◌≡◌, ◌≤◌, ℕ, List, length, Some, IsTrue, IfErr};
ghost use Rattle.pk_outside.specs.Causes.{Rose};
ghost use Rattle.pk_outside.specs.Streams.{Gave};
ghost use Rattle.authority_model.specs.declared.journal.History.{History as Journal};
ghost use Rattle.audit_text.specs.Audit.{audit_text, IsSpelled, all_lines, behind_head, first_line, history_headed, unless_many};
ghost use Rattle.audit_text.specs.Lines.{take_parts};
ghost use Rattle.audit_text.specs.Outcomes.{IsReading, IsReadAs, IsRefusedMany, IsTooMany, OnJudged};
ghost use Rattle.audit_text.specs.Takes.{stand, Takes, Refuses, Ends};

use crate::fault::{AuditReadRefused, LineKind, Stop};
use crate::heads::TextHead;
use crate::lines::Lines;
use crate::loads::{next_items, next_loads};
use authority_model::{Entry, History};
use pk_outside::Source;
use pk_types::NoMemory;
use std::alloc::Global;

/// The greatest number of entries of a history that is read.
pub const MAX_ENTRIES: u64 = 65_536;

/// What follows the first line: the loads, and then the entries.
fn history_behind<I: Source>(
    lines: &mut Lines,
    input: &mut I,
    head: TextHead,
) -> Result<History, Stop>
    ensures taken { Takes (stand lines.old.number lines.old.buffer (I.left input.old) (I.faults input.old) (I.ended input.old))
        (stand lines.new.number lines.new.buffer (I.left input.new) (I.faults input.new) (I.ended input.new)) result
        (λ place. take_parts history_headed (head, place)) }
{
    let loads = next_loads(lines, input, head.loads)?;
    let entries = next_items(lines, input, b"entry", head.entries)?;
    Ok(History { entries, loads })
}

/// The refusal for a stop. Where a line is at fault, all of the input is read first.
fn refused<I: Source>(lines: &mut Lines, input: &mut I, stop: Stop) -> AuditReadRefused
    ensures refusal { Refuses stop (stand lines.old.number lines.old.buffer (I.left input.old) (I.faults input.old) (I.ended input.old))
        (stand lines.new.number lines.new.buffer (I.left input.new) (I.faults input.new) (I.ended input.new)) result }
{
    match stop {
        Stop::Memory => AuditReadRefused::NoMemory,
        Stop::Failed => AuditReadRefused::ReadFault,
        Stop::Bad {
            line,
            kind: LineKind::End,
        } => AuditReadRefused::BadLine {
            line,
            kind: LineKind::End,
        },
        Stop::Bad { line, kind } => lines.close(input, AuditReadRefused::BadLine { line, kind }),
    }
}

/// This history, where nothing is behind it.
fn whole_history<I: Source>(
    lines: &mut Lines,
    input: &mut I,
    history: History,
) -> Result<History, AuditReadRefused>
    ensures ends { Ends (stand lines.old.number lines.old.buffer (I.left input.old) (I.faults input.old) (I.ended input.old))
        (stand lines.new.number lines.new.buffer (I.left input.new) (I.faults input.new) (I.ended input.new)) result
        (λ place. all_lines (history, place)) }
{
    let line = lines.number;
    match lines.is_empty(input) {
        Ok(true) => Ok(history),
        Ok(false) => Err(lines.close(
            input,
            AuditReadRefused::BadLine {
                line,
                kind: LineKind::End,
            },
        )),
        Err(stop) => Err(refused(lines, input, stop)),
    }
}

/// The history that has this first line.
fn history_of<I: Source>(
    lines: &mut Lines,
    input: &mut I,
    head: TextHead,
) -> Result<History, AuditReadRefused>
    ensures ends { Ends (stand lines.old.number lines.old.buffer (I.left input.old) (I.faults input.old) (I.ended input.old))
        (stand lines.new.number lines.new.buffer (I.left input.new) (I.faults input.new) (I.ended input.new)) result
        (λ place. unless_many (head, place)) }
{
    if head.entries > MAX_ENTRIES {
        let answer = AuditReadRefused::TooMany {
            entries: head.entries,
        };
        return Err(lines.close(input, answer));
    }
    match history_behind(lines, input, head) {
        Ok(history) => whole_history(lines, input, history),
        Err(stop) => Err(refused(lines, input, stop)),
    }
}

/// The history whose text the lines are.
fn read_lines<I: Source>(lines: &mut Lines, input: &mut I) -> Result<History, AuditReadRefused>
    ensures ends { Ends (stand lines.old.number lines.old.buffer (I.left input.old) (I.faults input.old) (I.ended input.old))
        (stand lines.new.number lines.new.buffer (I.left input.new) (I.faults input.new) (I.ended input.new)) result
        (λ place. behind_head (first_line.take place)) }
{
    match lines.item::<TextHead, I>(input, b"audit") {
        Ok(head) => history_of(lines, input, head),
        Err(stop) => Err(refused(lines, input, stop)),
    }
}

/// Reads an audit text: all bytes of the input are one. One line is in memory at a time, and the values that the
/// lines before it spell.
///
/// # Errors
/// `ReadFault` where the source failed and counted it. `TooMany` where the first line is in form and tells more
/// than 65,536 entries. `BadLine` for the first line that is out of the grammar. `NoMemory`.
pub fn read<I: Source>(alloc: Global, input: &mut I) -> Result<History, AuditReadRefused>
    ensures reading { (bytes : List ℕ) × Gave (I.left input.old) (I.left input.new) bytes × IsReading bytes result }
    ensures only { (h : Journal) → IsSpelled h → length h.entries ≤ MAX_ENTRIES
        → I.left input.old ≡ Some (audit_text h) → IsReadAs h result }
    ensures too_many { (bytes : List ℕ) (entries : ℕ) → I.left input.old ≡ Some bytes
        → IsTooMany bytes entries → IsRefusedMany entries result }
    ensures end { OnJudged result (IsTrue (I.ended input.new)) }
    ensures read_fault { IfErr result (λ refused. refused ≡ AuditReadRefused.ReadFault
        → Rose (I.faults input.old) (I.faults input.new)) }
{
    match Lines::new(alloc) {
        Ok(mut lines) => read_lines(&mut lines, input),
        Err(NoMemory) => Err(AuditReadRefused::NoMemory),
    }
}
