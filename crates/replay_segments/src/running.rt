// A scenario is replayed over a journal in segments.
ghost use Rattle.std.specs.Prelude.{◌≡◌, ◌<◌, ◌≤◌, [], true};
ghost use Rattle.std.specs.Option.{option_copied};
ghost use Rattle.pk_outside.specs.Allowing.{IsFree};
ghost use Rattle.pk_outside.specs.Streams.{IsUsedUp};
ghost use Rattle.journal_segments.specs.Segments.{IsSegmentedFor};
ghost use Rattle.replay_run.specs.Faults.{InputFaults, OutputFaults};
ghost use Rattle.replay_run.specs.Promises.{MayReplay, MayReplayFrom, MayTellOn};
ghost use Rattle.scenario_run.specs.Cuts.{cut_text};
ghost use Rattle.scenario_run.specs.Recorded.{IsFinished};
ghost use Rattle.replay_segments.specs.Ends.{HasEnded, IsBack, IsRunInFile, IsRunTold, IsSegmentsReplay, ReplaysInSegments, StationFaults};

use authority_model::Loaded;
use journal_segments::{SegmentRefused, Segmented};
use pk_outside::{Sink, Source, Station, StationRefused, Tree};
use pk_types::Text;
use replay_run::{
    Playback, ReplayEnd, SentCounts, Telling, first_draft, refused_end, write_skipped,
};
use scenario_run::{Journal, SegmentedJournal};
use source_buffer::LineReader;
use std::alloc::Global;

/// How many entries a segment has at most.
pub const MAX_PER: u64 = 1_048_576;

/// Writes the rest of the journal where the run was done. A fault of the file stays one only where it was
/// counted, as it always was.
fn finish_run<F: Sink>(journal: &mut SegmentedJournal<F>, end: ReplayEnd) -> ReplayEnd
    ensures ended { HasEnded end result }
    ensures past { journal.new.past ≡ journal.old.past }
    ensures path { F.path journal.new.file ≡ F.path journal.old.file }
    ensures done { result ≡ ReplayEnd.Done → IsFinished (F.held journal.new.file) (F.faults journal.new.file) journal.old.per journal.old.past }
    ensures fault { result ≡ ReplayEnd.SegmentFault → 0 < F.faults journal.new.file }
{
    match end {
        ReplayEnd::Done => match journal.finish() {
            Ok(()) => ReplayEnd::Done,
            Err(SegmentRefused::SegmentFault) => ReplayEnd::SegmentFault,
            Err(_) => ReplayEnd::NoMemory,
        },
        ReplayEnd::SegmentFault => {
            if journal.has_failed() {
                ReplayEnd::SegmentFault
            } else {
                ReplayEnd::NoMemory
            }
        }
        end => end,
    }
}

/// Ends a run over a journal in segments: the rest of the journal is written where the run was done, and the
/// file goes back to the station.
fn file_back<N: Station>(
    mut journal: SegmentedJournal<N::File>,
    end: ReplayEnd,
    station: &mut N,
) -> ReplayEnd
    ensures ended { HasEnded end result }
    ensures back { result ≡ ReplayEnd.Done →
        IsBack (N.told station.old) (N.told station.new) (N.File.path journal.file) (cut_text journal.per journal.past) }
    ensures fault { StationFaults (N.faults station.old) (N.faults station.new) result }
{
    let end = finish_run(&mut journal, end);
    station.filed(journal.into_file());
    end
}

/// Runs the scenario from the draft over a journal in segments, whose file was just made.
fn run_in_file<N: Station, I: Source, O: Sink>(
    alloc: Global,
    reader: LineReader,
    segmented: Segmented,
    file: N::File,
    first: Loaded,
    station: &mut N,
    input: &mut I,
    output: &mut O,
) -> ReplayEnd
    requires reader { reader ≡ [] }
    requires empty { segmented.items ≡ [] }
    requires none { segmented.written ≡ 0 }
    requires stands { IsSegmentedFor [] segmented }
    requires unwritten { IsUsedUp (N.File.held file) }
    requires sound { N.File.faults file ≡ 0 }
    requires free_file { IsFree N.File.allowed }
    requires may { MayTellOn true O.allowed (O.held output.old) [] }
    ensures run { IsRunInFile first (N.File.path file) segmented.per (I.left input.old) (I.left input.new) (I.ended input.new) (O.held output.old) (O.held output.new) (N.told station.old) (N.told station.new) result }
    ensures fault { StationFaults (N.faults station.old) (N.faults station.new) result }
    ensures read { InputFaults I.left I.faults input.old input.new result }
    ensures write { OutputFaults O.held O.faults output.old output.new result }
{
    let journal = Journal::in_segments(SegmentedJournal::start(alloc, segmented, file));
    let telling = Telling::Answers(SentCounts::start(alloc));
    let mut playback = Playback::over(alloc, reader, journal, first, telling);
    let end = playback.run(input, output);
    let Some(journal) = playback.into_journal().into_segmented() else {
        unreachable!()
    };
    file_back(journal, end, station)
}

/// Makes the file of the segments, and runs the scenario from the draft, whose skipped files were told.
fn run_told<N: Station, I: Source, O: Sink>(
    alloc: Global,
    path: &Text,
    per: u64,
    first: Loaded,
    station: &mut N,
    input: &mut I,
    output: &mut O,
) -> ReplayEnd
    requires per { 0 < per }
    requires free_file { IsFree N.File.allowed }
    requires may { MayTellOn true O.allowed (O.held output.old) [] }
    ensures run { IsRunTold first path.now per (I.left input.old) (I.left input.new) (I.ended input.new) (O.held output.old) (O.held output.new) (N.told station.old) (N.told station.new) result }
    ensures fault { StationFaults (N.faults station.old) (N.faults station.new) result }
    ensures read { InputFaults I.left I.faults input.old input.new result }
    ensures write { OutputFaults O.held O.faults output.old output.new result }
{
    let Ok(reader) = LineReader::new(alloc) else {
        return ReplayEnd::NoMemory;
    };
    let Ok(segmented) = Segmented::start(alloc, per) else {
        return ReplayEnd::NoMemory;
    };
    match station.file(path) {
        Ok(file) => run_in_file(
            alloc, reader, segmented, file, first, station, input, output,
        ),
        Err(StationRefused::Failed) => ReplayEnd::SegmentFault,
        Err(StationRefused::NoMemory) => ReplayEnd::NoMemory,
    }
}

/// Writes what the draft skipped, and runs the scenario from it.
fn replay_from<N: Station, I: Source, O: Sink>(
    alloc: Global,
    path: &Text,
    per: u64,
    first: Loaded,
    station: &mut N,
    input: &mut I,
    output: &mut O,
) -> ReplayEnd
    requires per { 0 < per }
    requires free_file { IsFree N.File.allowed }
    requires may { MayReplayFrom O.allowed (O.held output.old) first }
    ensures run { IsSegmentsReplay first path.now per (I.left input.old) (I.left input.new) (I.ended input.new) (O.held output.old) (O.held output.new) (N.told station.old) (N.told station.new) result }
    ensures fault { StationFaults (N.faults station.old) (N.faults station.new) result }
    ensures read { InputFaults I.left I.faults input.old input.new result }
    ensures write { OutputFaults O.held O.faults output.old output.new result }
{
    match write_skipped(alloc, &first, output) {
        Ok(()) => run_told(alloc, path, per, first, station, input, output),
        Err(refused) => refused.end(),
    }
}

/// Runs the scenario that the input gives over a journal in segments, and writes its answer lines. Each
/// segment has so many entries, unless its counted bytes end it before, and is written to a file that the
/// station makes at the path.
///
/// What is written on the output is what `replay` writes over a journal that is kept whole; only when the
/// journal is full is another matter (`Segmented::step`). On `Done` the file has all segments of the journal.
///
/// # Errors
/// Those of `replay`, and `SegmentFault` only where the station counted a fault in this call, when the file
/// was made or when it was taken back after it failed; the text on the output then ends between two entries.
/// `Full` has the number of entries, and no counted bytes.
pub fn replay_segments<T: Tree, N: Station, I: Source, O: Sink>(
    alloc: Global,
    root: Option<&Text>,
    path: &Text,
    per: u64,
    tree: &mut T,
    station: &mut N,
    input: &mut I,
    output: &mut O,
) -> ReplayEnd
    requires per { (0 < per) × (per ≤ MAX_PER) }
    requires free_file { IsFree N.File.allowed }
    // Each prefix of what the first load skipped and of the answers of some legal history may be written.
    requires may { MayReplay O.allowed (O.held output.old) (T.told tree.old) (option_copied root) }

    // What is written on the output is what the first load skipped, and the text of the legal history that
    // the bytes read make, as far as the end says; on Done the file has the segments of that history.
    ensures run { ReplaysInSegments (T.told tree.old) (option_copied root.entry) (T.faults tree.old) (T.faults tree.new) path.now per (I.left input.old) (I.left input.new) (I.ended input.new) (O.held output.old) (O.held output.new) (N.told station.old) (N.told station.new) result }

    // A fault of the outside is told only where the object counted it, of input and output by the last call.
    ensures fault { StationFaults (N.faults station.old) (N.faults station.new) result }
    ensures read { InputFaults I.left I.faults input.old input.new result }
    ensures write { OutputFaults O.held O.faults output.old output.new result }
{
    match first_draft(alloc, root, tree) {
        Ok(first) => replay_from(alloc, path, per, first, station, input, output),
        Err(refused) => refused_end(refused),
    }
}
