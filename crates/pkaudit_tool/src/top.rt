// An audit from its words to its status.
ghost use Rattle.std.specs.Prelude.{ℕ, ◌≡◌, ◌<◌, ◌≤◌, ◌↔◌, [], IsTrue, List, Some, length};
ghost use Rattle.pk_outside.specs.Allowing.{IsFree};
ghost use Rattle.pk_outside.specs.Causes.{Rose};
ghost use Rattle.pk_outside.specs.Streams.{Gave};
ghost use Rattle.authority_model.specs.declared.journal.History.{History as Journal};
ghost use Rattle.authority_model.specs.Legal.{IsLegal};
ghost use Rattle.audit_text.specs.declared.reading.TheConstants.{MAX_ENTRIES};
ghost use Rattle.audit_text.specs.Audit.{IsSpelled, audit_text};
ghost use Rattle.audit_text.specs.Outcomes.{IsTooMany};
ghost use Rattle.journal_audit.specs.declared.clause.Clause.{Clause};
ghost use Rattle.journal_audit.specs.Fault.{IsFirstFault};
ghost use Rattle.pkaudit_tool.specs.Audits.{Audited, OnRead, OutputFaults, Unless};

use crate::status::AuditStatus;
use crate::telling::audit_history;
use audit_text::read;
use pk_outside::{Sink, Source};
use pk_types::Text;
use std::alloc::Global;

/// Does what the words of `pkaudit` ask, without the program's name: reads an audit text, and writes one
/// line, `ok ENTRIES YES` or `fault ENTRY CLAUSE`.
///
/// A journal is accepted where each entry is the authority's: a Load names the next load (`load`), the
/// moments rise to at most 2^62 (`moment`), a Collect has the salt 0 (`salt`), the outputs are the
/// answers to the event after the entries before it (`outputs`), and each load is named (`loads`). YES
/// counts the yes verdicts, each of which is licensed then. ENTRY counts from 0.
///
/// # Errors
/// `Usage` exactly where there are words, and then nothing is done; `ReadFault` only where the input
/// counted a fault; `TooMany` and `BadLine` as `audit_text::read` gives them; `WriteFault` only where
/// the output counted a fault, which its last write did, and then a prefix of the line was written;
/// `NoMemory`, which may come in place of any other answer.
pub fn pkaudit<I: Source, O: Sink>(
    alloc: Global,
    words: &[Text],
    input: &mut I,
    output: &mut O,
) -> AuditStatus
    requires free { IsFree O.allowed }
    ensures usage { (result ≡ AuditStatus.Usage) ↔ (0 < length words.now) }
    ensures unread { result ≡ AuditStatus.Usage
        → (I.left input.new ≡ I.left input.old) × (I.faults input.new ≡ I.faults input.old) }
    ensures unwritten { result ≡ AuditStatus.Usage → O.held output.new ≡ O.held output.old }

    // The bytes that were read are the text of the journal that the status and the line speak of.
    ensures audited { words.now ≡ [] → (bytes : List ℕ)
        × Gave (I.left input.old) (I.left input.new) bytes
        × Audited bytes (O.held output.old) (O.held output.new) result }

    // They are all bytes of the input, where they were judged.
    ensures end { OnRead result (IsTrue (I.ended input.new)) }

    // The text of a legal journal is accepted, and that of any other is faulty by its first fault.
    ensures legal { (h : Journal) → words.now ≡ [] → IsSpelled h → length h.entries ≤ MAX_ENTRIES
        → I.left input.old ≡ Some (audit_text h) → IsLegal h → Unless AuditStatus.Accepted result }
    ensures faulty { (h : Journal) (k : ℕ) (clause : Clause) → words.now ≡ [] → IsSpelled h → length h.entries ≤ MAX_ENTRIES
        → I.left input.old ≡ Some (audit_text h) → IsFirstFault h k clause → Unless (AuditStatus.Faulty k clause) result }
    ensures too_many { (bytes : List ℕ) (entries : ℕ) → words.now ≡ []
        → I.left input.old ≡ Some bytes → IsTooMany bytes entries → Unless (AuditStatus.TooMany entries) result }

    // A fault is told only where it was counted.
    ensures read { result ≡ AuditStatus.ReadFault → Rose (I.faults input.old) (I.faults input.new) }
    ensures write { OutputFaults O.held O.faults output.old output.new result }
{
    if !words.is_empty() {
        return AuditStatus::Usage;
    }
    match read(alloc, input) {
        Ok(history) => audit_history(alloc, &history, output),
        Err(refused) => AuditStatus::of_refused(refused),
    }
}
