// What the first load skipped is written first.
ghost use Rattle.std.specs.Prelude.{OnErr, OnOk};
ghost use Rattle.pk_outside.specs.Allowing.{MayGo};
ghost use Rattle.pk_outside.specs.Streams.{Got, GotFront};
ghost use Rattle.scenario_text.specs.Skipped.{skipped_lines};
ghost use Rattle.replay_run.specs.Faults.{AnswerWrites};

use crate::written::WriteRefused;
use authority_model::Loaded;
use pk_outside::{Sink, write_all};
use scenario_text::skipped_text;
use std::alloc::Global;

/// Writes what a first load skipped, one `skipped` line each.
///
/// # Errors
/// `Failed` where the output failed and counted it; `NoMemory`.
#[tactic(auto, using(crate::proofs::Texts::front_none))]
pub fn write_skipped<O: Sink>(
    alloc: Global,
    first: &Loaded,
    output: &mut O,
) -> Result<(), WriteRefused>
    requires may { MayGo O.allowed (O.held output.old) (skipped_lines first.now.faults) }
    ensures ok { OnOk result (Got (O.held output.old) (O.held output.new) (skipped_lines first.now.faults)) }
    ensures err { OnErr result (GotFront (O.held output.old) (O.held output.new) (skipped_lines first.now.faults)) }
    ensures faults { AnswerWrites O.held O.faults output.old output.new result }
{
    let lines = skipped_text(alloc, first.faults.as_slice())?;
    write_all(output, lines.as_slice())?;
    Ok(())
}
