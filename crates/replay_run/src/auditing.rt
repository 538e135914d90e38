// A scenario is audited: it is run to its end, and then the audit text of its journal is written.
ghost use Rattle.std.specs.Prelude.{◌≡◌};
ghost use Rattle.std.specs.Option.{option_copied};
ghost use Rattle.pk_outside.specs.Allowing.{MayFronts};
ghost use Rattle.authority_model.specs.Entering.{AreAllowed};
ghost use Rattle.scenario_run.specs.Room.{whole};
ghost use Rattle.scenario_run.specs.Scene.{start};
ghost use Rattle.audit_text.specs.Audit.{audit_text};
ghost use Rattle.replay_run.specs.Audited.{Audits, AuditsFrom, IsWritten};
ghost use Rattle.replay_run.specs.Faults.{InputFaults, OutputFaults};
ghost use Rattle.replay_run.specs.Promises.{MayAudit};

use crate::ends::ReplayEnd;
use crate::first::{first_draft, refused_end};
use crate::playing::Playback;
use crate::telling::Telling;
use audit_text::{AuditWriteRefused, write};
use authority_model::{History, Limits, Loaded};
use pk_outside::{Sink, Source, Tree};
use pk_types::{NoMemory, Text};
use std::alloc::Global;

/// Writes the audit text of a history.
fn write_text<O: Sink>(alloc: Global, history: &History, output: &mut O) -> ReplayEnd
    requires may { MayFronts O.allowed (O.held output.old) (audit_text history.now) }
    ensures written { IsWritten history.now (O.held output.old) (O.held output.new) result }
    ensures write { OutputFaults O.held O.faults output.old output.new result }
{
    match write(alloc, history, output) {
        Ok(()) => ReplayEnd::Done,
        Err(AuditWriteRefused::WriteFault) => ReplayEnd::WriteFault,
        Err(AuditWriteRefused::NoMemory) => ReplayEnd::NoMemory,
    }
}

/// Runs the scenario from the draft, and writes the audit text of its journal.
fn audit_from<I: Source, O: Sink>(
    alloc: Global,
    limits: Limits,
    first: Loaded,
    input: &mut I,
    output: &mut O,
) -> ReplayEnd
    requires limits { AreAllowed limits }
    requires may { MayAudit O.allowed (O.held output.old) }
    ensures run { Audits (start (whole limits) first) (I.left input.old) (I.left input.new) (I.ended input.new) (O.held output.old) (O.held output.new) result }
    ensures read { InputFaults I.left I.faults input.old input.new result }
    ensures write { OutputFaults O.held O.faults output.old output.new result }
{
    let mut playback = match Playback::start(alloc, limits, first, Telling::Nothing) {
        Ok(playback) => playback,
        Err(NoMemory) => return ReplayEnd::NoMemory,
    };
    match playback.run(input, output) {
        ReplayEnd::Done => match playback.journal().history() {
            Some(history) => write_text(alloc, history, output),
            None => unreachable!(),
        },
        end => end,
    }
}

/// Runs the scenario that the input gives, and writes the audit text of the journal that it makes.
///
/// The draft begins as what the tree gives below the root, or empty without a root. Nothing is written
/// before the input has ended and all its lines were run.
///
/// # Errors
/// Those of `replay`. On `WriteFault` a prefix of the audit text was written, and on every other answer
/// but `Done` nothing.
pub fn audit<T: Tree, I: Source, O: Sink>(
    alloc: Global,
    root: Option<&Text>,
    limits: Limits,
    tree: &mut T,
    input: &mut I,
    output: &mut O,
) -> ReplayEnd
    requires limits { AreAllowed limits }
    // Each prefix of the audit text of some legal history may be written.
    requires may { MayAudit O.allowed (O.held output.old) }

    // What is written is the audit text of the legal history that the whole input makes, as far as the
    // end says, and nothing where the run stopped before.
    ensures run { AuditsFrom (T.told tree.old) (option_copied root.entry) limits (T.faults tree.old) (T.faults tree.new) (I.left input.old) (I.left input.new) (I.ended input.new) (O.held output.old) (O.held output.new) result }

    // A fault of the outside is told exactly where the object counted it, by its last call.
    ensures read { InputFaults I.left I.faults input.old input.new result }
    ensures write { OutputFaults O.held O.faults output.old output.new result }
{
    match first_draft(alloc, root, tree) {
        Ok(first) => audit_from(alloc, limits, first, input, output),
        Err(refused) => refused_end(refused),
    }
}
