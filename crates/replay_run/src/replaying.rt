// A scenario is replayed: its answers are written as they come.
ghost use Rattle.std.specs.Prelude.{◌≡◌, ◌≤◌};
ghost use Rattle.std.specs.Option.{option_copied};
ghost use Rattle.authority_model.specs.Entering.{AreAllowed};
ghost use Rattle.scenario_run.specs.Room.{whole};
ghost use Rattle.scenario_run.specs.Scene.{start};
ghost use Rattle.scenario_text.specs.Skipped.{skipped_lines};
ghost use Rattle.replay_run.specs.Faults.{InputFaults, OutputFaults};
ghost use Rattle.replay_run.specs.Promises.{MayReplay, MayReplayFrom};
ghost use Rattle.replay_run.specs.Replay.{Replays};
ghost use Rattle.replay_run.specs.Rooted.{ReplaysFrom};

use crate::ends::ReplayEnd;
use crate::first::{first_draft, refused_end};
use crate::playing::Playback;
use crate::sent_counts::SentCounts;
use crate::skipped::write_skipped;
use crate::telling::Telling;
use authority_model::{Limits, Loaded};
use pk_outside::{Sink, Source, Tree};
use pk_types::{NoMemory, Text};
use std::alloc::Global;

/// Writes what the draft skipped, and runs the scenario from it.
fn replay_from<I: Source, O: Sink>(
    alloc: Global,
    limits: Limits,
    first: Loaded,
    input: &mut I,
    output: &mut O,
) -> ReplayEnd
    requires limits { AreAllowed limits }
    requires may { MayReplayFrom O.allowed (O.held output.old) first }
    ensures run { Replays (skipped_lines first.faults) (start (whole limits) first) (I.left input.old) (I.left input.new) (I.ended input.new) (O.held output.old) (O.held output.new) result }
    ensures read { InputFaults I.left I.faults input.old input.new result }
    ensures write { OutputFaults O.held O.faults output.old output.new result }
{
    match write_skipped(alloc, &first, output) {
        Ok(()) => {}
        Err(refused) => return refused.end(),
    }
    let telling = Telling::Answers(SentCounts::start(alloc));
    match Playback::start(alloc, limits, first, telling) {
        Ok(mut playback) => playback.run(input, output),
        Err(NoMemory) => ReplayEnd::NoMemory,
    }
}

/// Runs the scenario that the input gives, and writes its answer lines.
///
/// The draft begins as what the tree gives below the root, or empty without a root. What the load
/// skipped is written first, one `skipped` line each. The lines are run one after another, until the
/// input ends or the first fault comes; what was answered before a fault stays written.
///
/// # Errors
/// `TreeFault` only where the tree counted a fault, and `LoadRefused` exactly where the first load is
/// refused by a limit or a table, and then nothing is read or written; `BadLine` only where that line
/// has that first fault and the lines before it have none; `Full` exactly where a further entry
/// was due and the journal had reached its limit of entries or of counted bytes; `ReadFault` and
/// `WriteFault` exactly where the input or the output counted a fault, which its last call did;
/// `NoMemory`, which may come in place of any other answer.
pub fn replay<T: Tree, I: Source, O: Sink>(
    alloc: Global,
    root: Option<&Text>,
    limits: Limits,
    tree: &mut T,
    input: &mut I,
    output: &mut O,
) -> ReplayEnd
    requires limits { AreAllowed limits }
    // Each prefix of what the first load skipped and of the answers of some legal history may be written.
    requires may { MayReplay O.allowed (O.held output.old) (T.told tree.old) (option_copied root) }

    // What is written is what the first load skipped, and the text of the legal history that the bytes
    // read make, as far as the end says.
    ensures run { ReplaysFrom (T.told tree.old) (option_copied root.entry) (whole limits) (T.faults tree.old) (T.faults tree.new) (I.left input.old) (I.left input.new) (I.ended input.new) (O.held output.old) (O.held output.new) result }

    // A fault of the outside is told exactly where the object counted it, by its last call.
    ensures read { InputFaults I.left I.faults input.old input.new result }
    ensures write { OutputFaults O.held O.faults output.old output.new result }
{
    match first_draft(alloc, root, tree) {
        Ok(first) => replay_from(alloc, limits, first, input, output),
        Err(refused) => refused_end(refused),
    }
}
