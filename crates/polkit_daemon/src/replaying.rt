// The commands that run a scenario: its answers, over a journal kept whole or in segments, or the audit text of
// its journal.
ghost use Rattle.std.specs.Prelude.{◌≡◌, ◌<◌, ◌≤◌};
ghost use Rattle.std.specs.Option.{option_copied};
ghost use Rattle.pk_outside.specs.Allowing.{IsFree};
ghost use Rattle.authority_model.specs.Entering.{AreAllowed};
ghost use Rattle.polkit_daemon.specs.Faults.{InputFaults, OutputFaults};
ghost use Rattle.polkit_daemon.specs.Replayed.{AuditsFrom, ReplaysFrom, ReplaysInSegments, StationFaults};
ghost use Rattle.replay_run.specs.Promises.{MayAudit, MayReplay};
ghost use Rattle.replay_segments.specs.declared.running.TheConstants.{MAX_PER};

use crate::status::Status;
use authority_core::Limits;
use pk_outside::{Sink, Source, Station, Tree};
use pk_types::Text;
use std::alloc::Global;

/// Runs the scenario that the input gives, and writes its answer lines.
///
/// The draft begins as what the tree gives below the root, or empty without a root. What the load
/// skipped is written first, one `skipped` line each. The lines are run one after another, until the
/// input ends or the first fault comes; what was answered before a fault stays written.
///
/// # Errors
/// `TreeFault` only where the tree counted a fault, and `LoadRefused` exactly where the first load is
/// refused by a limit or a table, and then nothing is read or written; `BadLine` only where that line
/// has that first fault and the lines before it have none; `JournalFull` exactly where a further entry
/// was due and the journal had reached its limit of entries or of counted bytes; `ReadFault` and
/// `WriteFault` exactly where the input or the output counted a fault, which its last call did;
/// `NoMemory`, which may come in place of any other answer.
pub fn replay<T: Tree, I: Source, O: Sink>(
    alloc: Global,
    root: Option<&Text>,
    limits: Limits,
    tree: &mut T,
    input: &mut I,
    output: &mut O,
) -> Status
    requires limits { AreAllowed limits }
    // Each prefix of what a replay writes may be written.
    requires may { MayReplay O.allowed (O.held output.old) (T.told tree.old) (option_copied root) }

    // What is written is what the first load skipped, and the text of the legal history that the bytes
    // read make, as far as the status says.
    ensures run { ReplaysFrom (T.told tree.old) (option_copied root.entry) limits (T.faults tree.old) (T.faults tree.new) (I.left input.old) (I.left input.new) (I.ended input.new) (O.held output.old) (O.held output.new) result }

    // A fault of the outside is told exactly where the object counted it, by its last call.
    ensures read { InputFaults I.left I.faults input.old input.new result }
    ensures write { OutputFaults O.held O.faults output.old output.new result }
{
    Status::of_replay(replay_run::replay(alloc, root, limits, tree, input, output))
}

/// Runs the scenario that the input gives, and writes the audit text of the journal that it makes.
///
/// The draft begins as for `replay`. Nothing is written before the input has ended and all its lines
/// were run.
///
/// # Errors
/// Those of `replay`. On `WriteFault` a prefix of the audit text was written, and on every other status
/// but `Done` nothing.
pub fn audit<T: Tree, I: Source, O: Sink>(
    alloc: Global,
    root: Option<&Text>,
    limits: Limits,
    tree: &mut T,
    input: &mut I,
    output: &mut O,
) -> Status
    requires limits { AreAllowed limits }
    // Each prefix of the audit text of some legal history may be written.
    requires may { MayAudit O.allowed (O.held output.old) }

    // What is written is the audit text of the legal history that the whole input makes, as far as the
    // status says, and nothing where the run stopped before.
    ensures run { AuditsFrom (T.told tree.old) (option_copied root.entry) limits (T.faults tree.old) (T.faults tree.new) (I.left input.old) (I.left input.new) (I.ended input.new) (O.held output.old) (O.held output.new) result }

    // A fault of the outside is told exactly where the object counted it, by its last call.
    ensures read { InputFaults I.left I.faults input.old input.new result }
    ensures write { OutputFaults O.held O.faults output.old output.new result }
{
    Status::of_replay(replay_run::audit(alloc, root, limits, tree, input, output))
}

/// Runs the scenario that the input gives over a journal in segments, and writes its answer lines. Each
/// segment has so many entries, unless its counted bytes end it before, and is written to a file that the
/// station makes at the path; its entries and loads are then forgotten.
///
/// What is written on the output is what `replay` writes over a journal that is kept whole, until the journal
/// is full. On `Done` the file has all segments of the journal.
///
/// # Errors
/// Those of `replay`, and `SegmentFault` only where the station counted a fault in this call, when the file
/// was made or when it was taken back after it failed; the text on the output then ends between two entries.
/// `JournalFull` has the number of entries, and no counted bytes.
pub fn replay_segments<T: Tree, N: Station, I: Source, O: Sink>(
    alloc: Global,
    root: Option<&Text>,
    path: &Text,
    per: u64,
    tree: &mut T,
    station: &mut N,
    input: &mut I,
    output: &mut O,
) -> Status
    requires per { (0 < per) × (per ≤ MAX_PER) }
    requires free_file { IsFree N.File.allowed }
    // Each prefix of what a replay writes may be written.
    requires may { MayReplay O.allowed (O.held output.old) (T.told tree.old) (option_copied root) }

    // What is written on the output is what the first load skipped, and the text of the legal history that
    // the bytes read make, as far as the status says; on Done the file has the segments of that history.
    ensures run { ReplaysInSegments (T.told tree.old) (option_copied root.entry) (T.faults tree.old) (T.faults tree.new) path.now per (I.left input.old) (I.left input.new) (I.ended input.new) (O.held output.old) (O.held output.new) (N.told station.old) (N.told station.new) result }

    // A fault of the outside is told only where the object counted it, of input and output by the last call.
    ensures fault { StationFaults (N.faults station.old) (N.faults station.new) result }
    ensures read { InputFaults I.left I.faults input.old input.new result }
    ensures write { OutputFaults O.held O.faults output.old output.new result }
{
    Status::of_replay(replay_segments::replay_segments(
        alloc, root, path, per, tree, station, input, output,
    ))
}
