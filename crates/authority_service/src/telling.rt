// What a service writes at its end, and how it ends.
ghost use Rattle.std.specs.Prelude.{◌≡◌, ◌<◌, ◌≤◌, ◌⊎◌, ℕ, All, IfOk, IsTrue, List, None, OnErr, OnOk, Some, false, flat_map, length};
ghost use Rattle.std.specs.List.{list_any};
ghost use Rattle.pk_outside.specs.Allowing.{MayFronts};
ghost use Rattle.authority_model.specs.Items.{items_of};
ghost use Rattle.authority_service.specs.Looks.{NeverLooked};
ghost use Rattle.authority_service.specs.Service.{AreAllLoads, CanAdmitAll, end_of, end_of_stops, has_failed_door, has_no_memory, most_passes};
ghost use Rattle.authority_service.specs.Printing.{IsSound, WasPrinted, WasUntold, WrittenAs};
ghost use Rattle.authority_service.specs.Lines.{closing_text, service_text};
ghost use Rattle.authority_service.specs.Promises.{MayClose};
ghost use Rattle.authority_model.specs.declared.journal.Item.{Item};
ghost use Rattle.audit_text.specs.Audit.{audit_text};
ghost use Rattle.journal_scan.specs.Orderly.{AreCounts};
ghost use Rattle.history_lock.specs.declared.machine.EndCause.TheVariants as cause;
ghost use Rattle.journal_scan.specs.declared.counts.TheConstants.{PLACES};

use crate::ends::ServiceEnd;
use crate::lines::{all_lines, scanned_lines, service_text};
use crate::running::Ran;
use audit_text::{AuditWriteRefused, write};
use authority_core::Fullness;
use authority_model::History;
use connection_serve::LiveEnd;
use history_lock::EndCause;
use journal_scan::{Counts, PLACES, Totals, scan_journal};
use pk_outside::{Sink, write_all};
use pk_types::NoMemory;
use serve_words::ServePlan;
use service_slots::{Line, ShutSlot, SlotStop};
use std::alloc::Global;

/// Whether as many loads were made as were wanted before the Stop, besides the first and those by sighters.
fn are_all_loads(totals: &Totals) -> bool
    ensures { IsTrue result → AreAllLoads totals.now }
{
    let Some(wanted) = totals.wanted.checked_add(1) else {
        return false;
    };
    match (
        totals.loads.checked_add(totals.refused),
        wanted.checked_add(totals.unlisted),
    ) {
        (Some(made), Some(due)) => made == due,
        _ => false,
    }
}

/// How many passes are made at most for so many connections and slots.
fn most_passes(live: bool, lines: usize, slots: usize) -> usize
    requires few { (lines < PLACES) × (slots < PLACES) }
    ensures { result ≡ most_passes live lines slots }
{
    if live {
        3 * lines + 4 * slots + 2
    } else {
        2 * lines + 3 * slots + 2
    }
}

/// Whether all passes can have been made for so many connections and slots.
fn admits_all(live: bool, lines: usize, slots: usize) -> bool
    ensures { IsTrue result → CanAdmitAll live lines slots }
{
    lines >= PLACES || slots >= PLACES || most_passes(live, lines, slots) >= PLACES
}

/// Whether a connection never looked at a process.
fn never_looked(line: &Line) -> bool
    ensures { IsTrue result → NeverLooked line.now }
{
    match line.end {
        LiveEnd::Plain(_) => line.sighter.is_none(),
        LiveEnd::SightFault => false,
    }
}

/// Whether no connection looked at a process.
fn none_looked(lines: &[Line]) -> bool
    ensures { IsTrue result → All NeverLooked lines.now }
{
    for line in lines {
        if !never_looked(line) {
            return false;
        }
    }
    true
}

/// Whether connections looked at processes only where that is asked for.
fn looks_as_asked(live: bool, totals: &Totals, lines: &[Line]) -> bool
    ensures lines { IsTrue result → live ≡ false → All NeverLooked lines.now }
    ensures unlisted { IsTrue result → live ≡ false → totals.now.unlisted ≡ 0 }
{
    live || (totals.unlisted == 0 && none_looked(lines))
}

/// Whether memory was refused to a slot or to its door.
fn has_no_memory(slot: &ShutSlot) -> bool
    ensures { result ≡ has_no_memory slot.now.stop }
{
    matches!(slot.stop, Some(SlotStop::NoMemory))
}

/// Whether the door of a slot failed.
fn has_failed_door(slot: &ShutSlot) -> bool
    ensures { result ≡ has_failed_door slot.now.stop }
{
    matches!(slot.stop, Some(SlotStop::DoorFailed))
}

/// Whether memory was refused to one of the slots.
fn any_without_memory(slots: &[ShutSlot]) -> bool
    ensures { result ≡ list_any (λ s. has_no_memory s.stop) slots.now }
{
    slots.iter().any(|slot| has_no_memory(slot))
}

/// Whether the door of one of the slots failed.
fn any_failed_door(slots: &[ShutSlot]) -> bool
    ensures { result ≡ list_any (λ s. has_failed_door s.stop) slots.now }
{
    slots.iter().any(|slot| has_failed_door(slot))
}

/// The end of a service whose lock was not ended.
fn end_of_stops(slots: &[ShutSlot], written: bool) -> ServiceEnd
    ensures { result ≡ end_of_stops slots.now written }
{
    if any_without_memory(slots) {
        ServiceEnd::NoMemory
    } else if any_failed_door(slots) {
        ServiceEnd::DoorFault
    } else if written {
        ServiceEnd::Done
    } else {
        ServiceEnd::WriteFault
    }
}

/// What was found in a closed journal: the line of each connection, and what is counted of it.
#[derive(Drop)]
struct Found {
    lines: Vec<Line>,
    counts: Counts,
}

/// Writes the lines that were found. Whether all were written.
fn write_lines<O: Sink>(alloc: Global, found: &Found, output: &mut O) -> Result<bool, NoMemory>
    requires may { (past : List Item) × AreCounts past found.now.counts × MayFronts O.allowed (O.held output.old) (service_text past found.now.lines.items) }
    ensures wrote { IfOk result (λ written. (past : List Item) → AreCounts past found.now.counts →
        WrittenAs (O.held output.old) (O.held output.new) (O.faults output.old) (O.faults output.new) (service_text past found.now.lines.items) written) }
    ensures refused { OnErr result ((O.held output.new ≡ O.held output.old) × (O.faults output.new ≡ O.faults output.old)) }
    ensures later { O.faults output.old ≤ O.faults output.new }
{
    let text = service_text(alloc, found.lines.as_slice(), &found.counts)?;
    Ok(write_all(output, text.as_slice()).is_ok())
}

/// Writes the audit text of a journal. Whether all was written.
fn write_audit<O: Sink>(alloc: Global, journal: &History, output: &mut O) -> Result<bool, NoMemory>
    requires may { MayFronts O.allowed (O.held output.old) (audit_text journal.now) }
    ensures wrote { IfOk result (WrittenAs (O.held output.old) (O.held output.new) (O.faults output.old) (O.faults output.new) (audit_text journal.now)) }
    ensures refused { OnErr result ((O.held output.new ≡ O.held output.old) × (O.faults output.new ≡ O.faults output.old)) }
    ensures later { O.faults output.old ≤ O.faults output.new }
{
    match write(alloc, journal, output) {
        Ok(()) => Ok(true),
        Err(AuditWriteRefused::WriteFault) => Ok(false),
        Err(AuditWriteRefused::NoMemory) => Err(NoMemory),
    }
}

impl Ran {
    /// Whether the counts of the journal fit the kept cause. They always do.
    fn fits(&self, live: bool, totals: &Totals, lines: usize) -> bool
        ensures loads { IsTrue result → self.now.cause ≡ None → AreAllLoads totals.now }
        ensures passes { IsTrue result → (admitted : ℕ) → self.now.cause ≡ Some (cause.Admissions admitted) → CanAdmitAll live lines (length self.now.slots.items) }
    {
        match self.cause {
            None => are_all_loads(totals),
            Some(EndCause::Admissions { .. }) => admits_all(live, lines, self.slots.len()),
            Some(_) => true,
        }
    }

    /// How the service ended.
    fn end(&self, written: bool) -> ServiceEnd
        ensures end { result ≡ end_of self.now.cause self.now.slots.items written }
    {
        match self.cause {
            Some(EndCause::JournalFull { entries, bytes }) => {
                ServiceEnd::Full(Fullness { entries, bytes })
            }
            Some(EndCause::Admissions { admitted }) => ServiceEnd::Admissions { admitted },
            Some(EndCause::NoMemory) => ServiceEnd::NoMemory,
            None => end_of_stops(self.slots.as_slice(), written),
        }
    }

    /// The lines of the connections and the counts of the journal, once the facts that no connection can
    /// know by itself were found in it, and no look at a process unless these are asked for. They always are.
    ///
    /// # Errors
    /// `NoMemory` alone.
    fn found(&self, alloc: Global, live: bool) -> Result<Found, NoMemory>
        ensures sound { OnOk result (IsSound live (items_of self.now.authority.history) (flat_map (λ s. s.lines.items) self.now.slots.items) (length self.now.slots.items) self.now.cause) }
        ensures lines { IfOk result (λ found. found.lines.items ≡ flat_map (λ s. s.lines.items) self.now.slots.items) }
        ensures counts { IfOk result (λ found. AreCounts (items_of self.now.authority.history) found.counts) }
    {
        let lines = all_lines(alloc, self.slots.as_slice())?;
        let scanned = scanned_lines(alloc, lines.as_slice())?;
        let history = self.authority.history();
        let Some(counts) = scan_journal(alloc, history, scanned.as_slice())? else {
            return Err(NoMemory);
        };
        if !self.fits(live, &counts.totals, lines.len()) {
            return Err(NoMemory);
        }
        if !looks_as_asked(live, &counts.totals, lines.as_slice()) {
            return Err(NoMemory);
        }
        Ok(Found { lines, counts })
    }

    /// Writes the lines that were found, or the audit text of the journal in their place. Whether all was
    /// written.
    ///
    /// # Errors
    /// `NoMemory` alone, and then nothing was written.
    fn write_closing<O: Sink>(
        &self,
        alloc: Global,
        audit: bool,
        found: &Found,
        output: &mut O,
    ) -> Result<bool, NoMemory>
        requires may { MayFronts O.allowed (O.held output.old) (closing_text audit self.now.authority.history found.now.lines.items) }
        requires counts { AreCounts (items_of self.now.authority.history) found.now.counts }
        ensures wrote { IfOk result (WrittenAs (O.held output.old) (O.held output.new) (O.faults output.old) (O.faults output.new) (closing_text audit self.now.authority.history found.now.lines.items)) }
        ensures refused { OnErr result ((O.held output.new ≡ O.held output.old) × (O.faults output.new ≡ O.faults output.old)) }
        ensures later { O.faults output.old ≤ O.faults output.new }
    {
        if audit {
            write_audit(alloc, self.authority.history(), output)
        } else {
            write_lines(alloc, found, output)
        }
    }

    /// Writes the closing text, and answers how the service ended.
    pub fn tell<O: Sink>(&self, alloc: Global, plan: &ServePlan, output: &mut O) -> ServiceEnd
        requires may { MayClose O.allowed (O.held output.old) plan.now self.now.authority.history (flat_map (λ s. s.lines.items) self.now.slots.items) }
        ensures told { WasUntold (O.held output.old) (O.held output.new) (O.faults output.old) (O.faults output.new) result
            ⊎ WasPrinted plan.now.live plan.now.audit self.now.authority.history (flat_map (λ s. s.lines.items) self.now.slots.items) self.now.cause self.now.slots.items (O.held output.old) (O.held output.new) (O.faults output.old) (O.faults output.new) result }
        ensures later { O.faults output.old ≤ O.faults output.new }
    {
        let Ok(found) = self.found(alloc, plan.live) else {
            return ServiceEnd::NoMemory;
        };
        match self.write_closing(alloc, plan.audit, &found, output) {
            Ok(written) => self.end(written),
            Err(NoMemory) => ServiceEnd::NoMemory,
        }
    }
}
