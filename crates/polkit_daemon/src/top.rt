// The top call: the command that the words name.
ghost use Rattle.std.specs.Prelude.{◌≡◌, ◌↔◌, None, Some, Option, List, ℕ};
ghost use Rattle.pk_outside.specs.Allowing.{IsFree};
ghost use Rattle.connection_serve.specs.Promises.{MayServe};
ghost use Rattle.polkit_daemon.specs.Commands.{AsksNoStation, AsksNoTree, CountsNoStation, IsNoService, Named, command_of, limits_of};
ghost use Rattle.polkit_daemon.specs.Faults.{InputFaults, OutputFaults};
ghost use Rattle.polkit_daemon.specs.Generate.{Generates};
ghost use Rattle.polkit_daemon.specs.Piped.{PipesMade};
ghost use Rattle.polkit_daemon.specs.Promises.{MayRun};
ghost use Rattle.polkit_daemon.specs.Replayed.{AuditsFrom, ReplaysFrom, ReplaysInSegments, StationFaults};
ghost use Rattle.authority_service.specs.Service.{outside};
ghost use Rattle.polkit_daemon.specs.Served.{IsServedOrUntouched};
ghost use Rattle.serve_words.specs.declared.plan.ServePlan.{ServePlan};
ghost use Rattle.serve_words.specs.Plans.{plan_in};

use crate::command::Command;
use crate::generating::load_run;
use crate::piping::pipe;
use crate::replaying::{audit, replay, replay_segments};
use crate::serving::serve_named;
use crate::status::Status;
use authority_model::{Limits, MAX_BYTES};
use pk_outside::{Sink, Source, Station, Tree};
use pk_types::Text;
use std::alloc::Global;
use std::sync::Wait;
use std::thread::Threads;

/// The limits of a journal of so many entries.
fn limits_of(entries: u64) -> Limits
    ensures limits { result ≡ limits_of entries }
{
    Limits {
        entries,
        bytes: MAX_BYTES,
    }
}

/// Runs the command that the words name, over these objects of the outside.
///
/// # Errors
/// `Usage` exactly where the words are not in the grammar, and then nothing was read or written;
/// otherwise the status of the command.
pub fn polkitd<R: Threads + Wait + Sync, T: Tree, N: Station, I: Source, O: Sink>(
    rt: &R,
    alloc: Global,
    words: &[Text],
    tree: &mut T,
    station: &mut N,
    input: &mut I,
    output: &mut O,
) -> Status
    // Each prefix of the text that the command writes may be written to the output, and each prefix of a talk
    // with a connection to its link.
    requires may { MayRun O.allowed (O.held output.old) (T.told tree.old) (command_of words.now) }
    requires free_file { IsFree N.File.allowed }
    requires may_serve { MayServe N.Door.Link.Out.allowed }
    ensures usage { (result ≡ Status.Usage) ↔ (command_of words.now ≡ None) }
    ensures unread { result ≡ Status.Usage → I.left input.new ≡ I.left input.old }
    ensures unwritten { result ≡ Status.Usage → O.held output.new ≡ O.held output.old }

    // A replay writes what the first load skipped, and the text of the legal history that the bytes
    // read make, as far as the status says.
    ensures replay { (root : Option (List ℕ)) (entries : ℕ) → command_of words.now ≡ Some (Named.Replay root entries) →
        ReplaysFrom (T.told tree.old) root (limits_of entries) (T.faults tree.old) (T.faults tree.new) (I.left input.old) (I.left input.new) (I.ended input.new) (O.held output.old) (O.held output.new) result }

    // A replay over a journal in segments writes the same, and the segments of that history to a file of the
    // station. A fault of the file is told only where the station's count rose.
    ensures segments { (root : Option (List ℕ)) (path : List ℕ) (per : ℕ) → command_of words.now ≡ Some (Named.Segments root path per) →
        ReplaysInSegments (T.told tree.old) root (T.faults tree.old) (T.faults tree.new) path per (I.left input.old) (I.left input.new) (I.ended input.new) (O.held output.old) (O.held output.new) (N.told station.old) (N.told station.new) result
        × StationFaults (N.faults station.old) (N.faults station.new) result }

    // An audit writes the audit text of the legal history that the whole input makes, as far as the
    // status says.
    ensures audit { (root : Option (List ℕ)) (entries : ℕ) → command_of words.now ≡ Some (Named.Audit root entries) →
        AuditsFrom (T.told tree.old) root (limits_of entries) (T.faults tree.old) (T.faults tree.new) (I.left input.old) (I.left input.new) (I.ended input.new) (O.held output.old) (O.held output.new) result }

    // A pipe writes the messages that its connection is sent in the legal history that the bytes read
    // make, as far as the status says. Its clock and its salt are made by the station.
    ensures pipe { (uid : ℕ) (root : List ℕ) (entries : ℕ) → command_of words.now ≡ Some (Named.Pipe uid root entries) →
        PipesMade (record { uid = uid; root = root; told = T.told tree.old; limits = limits_of entries }) (T.faults tree.old) (T.faults tree.new)
        (N.told station.old) (N.told station.new) (I.left input.old) (I.left input.new) (I.ended input.new) (O.held output.old) (O.held output.new) result }

    // The words behind `serve` name a plan, which is served; where memory is refused before that,
    // nothing was touched. A service reads nothing of the input.
    ensures serve { (named : List (List ℕ)) (plan : ServePlan) → command_of words.now ≡ Some (Named.Serve named) → plan_in named ≡ Some plan →
        IsServedOrUntouched plan (outside (T.told tree.old) (T.faults tree.old) (T.faults tree.new) (N.told station.old) (N.told station.new)
        (N.faults station.old) (N.faults station.new) (O.held output.old) (O.held output.new) (O.faults output.old) (O.faults output.new)) result }
    ensures serve_unread { (named : List (List ℕ)) → command_of words.now ≡ Some (Named.Serve named) → I.left input.new ≡ I.left input.old }

    // A generated run writes its one line, as far as the status says, and reads nothing.
    ensures load { (checks : ℕ) → command_of words.now ≡ Some (Named.Load checks) →
        Generates checks (O.held output.old) (O.held output.new) result }
    ensures load_unread { (checks : ℕ) → command_of words.now ≡ Some (Named.Load checks) → I.left input.new ≡ I.left input.old }

    // No other command makes anything by the station, or dials: it tells what it told. Nor does one that
    // loads no root look at the tree.
    ensures unmade { AsksNoStation (command_of words.now) → N.told station.new ≡ N.told station.old }
    ensures uncounted { CountsNoStation (command_of words.now) → N.faults station.new ≡ N.faults station.old }
    ensures unlooked { AsksNoTree (command_of words.now) → (T.told tree.new ≡ T.told tree.old) × (T.faults tree.new ≡ T.faults tree.old) }

    // A fault of the outside is told exactly where the object counted it, by its last call. A service
    // tells that of the output only where no other cause comes first.
    ensures read { InputFaults I.left I.faults input.old input.new result }
    ensures write { IsNoService (command_of words.now) → OutputFaults O.held O.faults output.old output.new result }
{
    match Command::read(words) {
        Some(Command::Replay { root, entries }) => {
            replay(alloc, root, limits_of(entries), tree, input, output)
        }
        Some(Command::Segments { root, path, per }) => {
            replay_segments(alloc, root, path, per, tree, station, input, output)
        }
        Some(Command::Audit { root, entries }) => {
            audit(alloc, root, limits_of(entries), tree, input, output)
        }
        Some(Command::Pipe { uid, root, entries }) => {
            let limits = limits_of(entries);
            let mut clock = station.clock();
            let mut salt = station.salt();
            pipe(
                alloc, uid, root, limits, tree, &mut clock, &mut salt, input, output,
            )
        }
        Some(Command::Serve { words: named }) => {
            serve_named(rt, alloc, named, tree, station, output)
        }
        Some(Command::Load { checks }) => load_run(alloc, checks, output),
        None => Status::Usage,
    }
}
