// The command that runs generated checks.
ghost use Rattle.std.specs.Prelude.{◌≡◌, ◌≤◌, IfErr, IfOk, OnOk};
ghost use Rattle.pk_outside.specs.Allowing.{MayFronts};
ghost use Rattle.authority_model.specs.Legal.{Legal};
ghost use Rattle.authority_model.specs.Licensed.{AllLicensed};
ghost use Rattle.generated_run.specs.Run.{generated};
ghost use Rattle.generated_run.specs.Stops.{StopsIn};
ghost use Rattle.polkit_daemon.specs.Faults.{OutputFaults};
ghost use Rattle.polkit_daemon.specs.Generate.{Generates, generated_line};

use crate::status::Status;
use authority_core::Halt;
use generated_run::{generate, summary_line};
use pk_outside::{Failed, Sink, write_all};
use pk_types::ByteList;
use std::alloc::Global;

/// The line of a generated run of so many checks.
fn generated_line(alloc: Global, checks: u32) -> Result<ByteList, Halt>
    requires checks { checks ≤ 100000 }
    ensures line { IfOk result (λ line. line ≡ generated_line checks) }
    ensures legal { OnOk result (Legal (generated checks)) }
    ensures licensed { OnOk result (AllLicensed (generated checks)) }
    ensures stop { IfErr result (StopsIn (generated checks)) }
{
    let summary = generate(alloc, checks)?;
    Ok(summary_line(alloc, &summary)?)
}

/// Runs so many generated checks, from 1 to 100,000, each with its dialogue, and writes one line that
/// counts the verdicts, the temporary authorizations and the entries.
///
/// # Errors
/// `JournalFull` only where a journal of the greatest limits is full after entries of the run, and
/// a further one is due, and then nothing was written; `WriteFault` exactly where the output
/// counted a fault, which its last write did; `NoMemory`, which may come in place of any other
/// answer.
pub fn load_run<O: Sink>(alloc: Global, checks: u32, output: &mut O) -> Status
    requires checks { (1 ≤ checks) × (checks ≤ 100000) }
    // Each prefix of the line may be written.
    requires may { MayFronts O.allowed (O.held output.old) (generated_line checks) }

    // What is written is the line of the generated run, as far as the status says.
    ensures run { Generates checks (O.held output.old) (O.held output.new) result }

    // A fault of the output is told exactly where it counted one, by its last write.
    ensures write { OutputFaults O.held O.faults output.old output.new result }
{
    let line = match generated_line(alloc, checks) {
        Ok(line) => line,
        Err(Halt::Full(full)) => return Status::full(full),
        Err(Halt::NoMemory) => return Status::NoMemory,
    };
    match write_all(output, line.as_slice()) {
        Ok(()) => return Status::Done,
        Err(Failed) => return Status::WriteFault,
    }
}
