// Telling what was found.
ghost use Rattle.std.specs.Prelude.{◌≡◌};
ghost use Rattle.pk_outside.specs.Allowing.{IsFree};
ghost use Rattle.pkaudit_tool.specs.Audits.{AuditsHistory, OutputFaults, Told};

use crate::line::line_of;
use crate::status::AuditStatus;
use authority_model::History;
use journal_audit::{Finding, audit};
use pk_outside::{Sink, write_all};
use pk_types::NoMemory;
use std::alloc::Global;

/// Writes the line of what was found.
#[tactic(auto, using(pk_outside::proofs::Going::may_go_free))]
fn tell<O: Sink>(alloc: Global, finding: Finding, output: &mut O) -> AuditStatus
    requires free { IsFree O.allowed }
    ensures told { Told finding (O.held output.old) (O.held output.new) result }
    ensures write { OutputFaults O.held O.faults output.old output.new result }
{
    let line = match line_of(alloc, finding) {
        Ok(line) => line,
        Err(NoMemory) => return AuditStatus::NoMemory,
    };
    match write_all(output, line.as_slice()) {
        Ok(()) => AuditStatus::of_finding(finding),
        Err(_) => AuditStatus::WriteFault,
    }
}

/// Audits a journal, and writes the line of what was found.
pub fn audit_history<O: Sink>(alloc: Global, history: &History, output: &mut O) -> AuditStatus
    requires free { IsFree O.allowed }
    ensures audited { AuditsHistory history.now (O.held output.old) (O.held output.new) result }
    ensures write { OutputFaults O.held O.faults output.old output.new result }
{
    match audit(alloc, history) {
        Ok(finding) => tell(alloc, finding, output),
        Err(NoMemory) => AuditStatus::NoMemory,
    }
}
