// A journal in segments, over which a scenario is run.
ghost use Rattle.std.specs.Prelude.{◌≡◌, ◌<◌, ◌^◌, ◌≤◌, ◌∷◌, [], IfErr, IfOk, IfSome, None, OnErr, OnOk, Some, length, true};
ghost use Rattle.authority_model.specs.Given.{IsStepped, event_given, load_given, next};
ghost use Rattle.authority_model.specs.Legal.{Legal};
ghost use Rattle.scenario_text.specs.Answers.{message_line};
ghost use Rattle.scenario_run.specs.Room.{full_at, in_segments};
ghost use Rattle.scenario_run.specs.Text.{last_outputs, loads_of};
ghost use Rattle.pk_outside.specs.Allowing.{IsFree};
ghost use Rattle.pk_outside.specs.Streams.{IsUsedUp};
ghost use Rattle.journal_segments.specs.Segments.{IsSegmentedFor, last_of};
ghost use Rattle.scenario_run.specs.Journals.{IsDue, is_first};
ghost use Rattle.scenario_run.specs.declared.segmented.Standing.TheVariants as standing;
ghost use Rattle.scenario_run.specs.Recorded.{FinishFault, IsFinished};
ghost use Rattle.scenario_run.specs.Refusals.{refused_of, standing_after};

use crate::action_counts::ActionCounts;
use crate::journal::Refused;
use authority_core::Fullness;
use authority_model::{Event, Item, Loaded, Output};
use journal_segments::{SegmentRefused, Segmented};
use pk_outside::Sink;
use pk_types::{ByteList, NoMemory, Reserved};
use scenario_text::answer_line;
use std::alloc::Global;
use std::marker::Model;
use std::snapshot::Snapshot;

/// How a journal in segments stands.
#[derive(Clone, Copy, Debug, PartialEq, Eq)]
pub enum Standing {
    /// Each full segment was written so far.
    Going,
    /// The file failed, and counted it.
    Failed,
    /// No more is written: memory was refused, or the rest was written.
    Ended,
}

/// How a refusal leaves a journal in segments.
fn standing_after(standing: Standing, refused: SegmentRefused) -> Standing
    ensures standing { result ≡ standing_after standing refused }
{
    match refused {
        SegmentRefused::Full { .. } => standing,
        SegmentRefused::SegmentFault => Standing::Failed,
        SegmentRefused::NoMemory => Standing::Ended,
    }
}

/// Why nothing was entered.
fn refused_of(refused: SegmentRefused) -> Refused
    ensures refused { result ≡ refused_of refused }
{
    match refused {
        SegmentRefused::Full { entries } => Refused::Full(Fullness { entries, bytes: 0 }),
        SegmentRefused::SegmentFault => Refused::SegmentFault,
        SegmentRefused::NoMemory => Refused::NoMemory,
    }
}

/// The newest item, as proofs see it.
fn newest(segmented: &Segmented) -> Snapshot<Item>
    requires some { 0 < length segmented.now.items }
    ensures item { Some result.value ≡ last_of segmented.now.items }
{
    match segmented.items().last() {
        Some(item) => Snapshot::of(item),
        None => unreachable!(),
    }
}

/// A journal in segments with its file. It is seen as its items, although it keeps only those of the segment
/// so far: a snapshot has no bytes.
#[derive(Drop)]
pub struct SegmentedJournal<F: Sink> {
    segmented: Segmented,
    file: F,
    standing: Standing,
    /// How many actions each load has.
    actions: ActionCounts,
    /// The items so far, for proofs alone.
    items: Reserved<Snapshot<Item>>,
}

impl<F: Sink> Model for SegmentedJournal<F> {
    ghost use Rattle.std.specs.Prelude.{map, reverse};
    ghost use Rattle.pk_outside.specs.Allowing.{IsFree};
    ghost use Rattle.scenario_run.specs.Recorded.{IsRecorded, Recorded};

    ghost Value = { Recorded F };

    ghost view = { λ j. record { past = reverse (map (λ s. s.value) j.items.items); per = j.segmented.per; file = j.file; standing = j.standing } };

    ghost invariant = { λ j. IsFree F.allowed × IsRecorded (F.held j.file) (F.faults j.file) j.segmented j.actions (reverse (map (λ s. s.value) j.items.items)) j.standing };
}

impl<F: Sink> SegmentedJournal<F> {
    /// The journal without an item, in a file to which nothing was written.
    pub fn start(alloc: Global, segmented: Segmented, file: F) -> SegmentedJournal<F>
        requires empty { segmented.items ≡ [] }
        requires none { segmented.written ≡ 0 }
        requires stands { IsSegmentedFor [] segmented }
        requires unwritten { IsUsedUp (F.held file) }
        requires sound { F.faults file ≡ 0 }
        requires free { IsFree F.allowed }
        ensures past { result.past ≡ [] }
        ensures per { result.per ≡ segmented.per }
        ensures file { result.file ≡ file }
    {
        SegmentedJournal {
            segmented,
            file,
            standing: Standing::Going,
            actions: ActionCounts::new(alloc),
            items: Reserved::new(alloc),
        }
    }

    /// Writes the rest, if there is one.
    ///
    /// # Errors
    /// As for `Segmented::finish`; `NoMemory` too where a step was refused before.
    pub fn finish(&mut self) -> Result<(), SegmentRefused>
        ensures past { self.new.past ≡ self.old.past }
        ensures per { self.new.per ≡ self.old.per }
        ensures path { F.path self.new.file ≡ F.path self.old.file }
        ensures ok { OnOk result (IsFinished (F.held self.new.file) (F.faults self.new.file) self.old.per self.old.past) }
        ensures fault { IfErr result (FinishFault (F.faults self.new.file)) }
    {
        match self.standing {
            Standing::Going => {}
            _ => return Err(SegmentRefused::NoMemory),
        }
        self.standing = Standing::Ended;
        match self.segmented.finish(&mut self.file) {
            Ok(()) => Ok(()),
            Err(refused) => {
                self.standing = standing_after(Standing::Ended, refused);
                Err(refused)
            }
        }
    }

    /// Whether the file failed.
    pub fn has_failed(&self) -> bool
        ensures failed { result ≡ true → 0 < F.faults self.now.file }
    {
        matches!(self.standing, Standing::Failed)
    }

    /// The file. Nothing more is written to it.
    pub fn into_file(self) -> F
        ensures file { result ≡ self.file }
    {
        self.file
    }

    /// Whether there is no item.
    pub(crate) fn is_empty(&self) -> bool
        ensures empty { result ≡ is_first self.now.past }
    {
        self.items.is_empty()
    }

    /// The outputs of the newest entry. `None` comes only where a refusal came after that.
    pub(crate) fn last_outputs(&self) -> Option<&[Output]>
        ensures outputs { IfSome result (λ outputs. outputs.now ≡ last_outputs self.now.past) }
    {
        let entry = self.segmented.last()?;
        Some(entry.outputs.as_slice())
    }

    /// The answer line of one of the outputs, which has this number among those to its connection.
    ///
    /// # Errors
    /// `NoMemory` alone.
    pub(crate) fn answer(
        &self,
        alloc: Global,
        output: &Output,
        serial: u32,
    ) -> Result<ByteList, NoMemory>
        ensures line { IfOk result (λ line. line ≡ message_line (loads_of self.now.past) output.now.to serial output.now.message) }
    {
        answer_line(alloc, output, self.actions.listed(&output.message), serial)
    }

    /// Adds the entry of an event.
    ///
    /// # Errors
    /// As for `Segmented::step`. No entry is made then.
    pub(crate) fn enter(&mut self, caller: u32, moment: u64, event: Event) -> Result<(), Refused>
        requires event { IsStepped event }
        requires moment { moment ≤ 2 ^ 62 }
        ensures per { self.new.per ≡ self.old.per }
        ensures path { F.path self.new.file ≡ F.path self.old.file }
        ensures room { OnOk result (full_at (in_segments (record { per = self.old.per; file = F.path self.old.file })) self.old.past ≡ None) }
        ensures item { OnOk result (self.new.past ≡ next self.old.past (event_given caller moment 0 event) ∷ self.old.past) }
        ensures err { OnErr result (self.new.past ≡ self.old.past) }
        ensures refused { IfErr result (IsDue (in_segments (record { per = self.old.per; file = F.path self.old.file })) self.old.past) }
        ensures legal { Legal self.new.past }
    {
        self.items.try_reserve(1)?;
        match self
            .segmented
            .step(caller, moment, 0, event, &mut self.file)
        {
            Ok(()) => {
                self.items.push_reserved(newest(&self.segmented));
                Ok(())
            }
            Err(refused) => {
                self.standing = standing_after(self.standing, refused);
                Err(refused_of(refused))
            }
        }
    }

    /// Adds the entry of the next load.
    ///
    /// # Errors
    /// As for `enter`.
    pub(crate) fn enter_load(&mut self, moment: u64, loaded: Loaded) -> Result<(), Refused>
        requires moment { moment ≤ 2 ^ 62 }
        ensures per { self.new.per ≡ self.old.per }
        ensures path { F.path self.new.file ≡ F.path self.old.file }
        ensures room { OnOk result (full_at (in_segments (record { per = self.old.per; file = F.path self.old.file })) self.old.past ≡ None) }
        ensures item { OnOk result (self.new.past ≡ next self.old.past (load_given 0 moment loaded) ∷ self.old.past) }
        ensures err { OnErr result (self.new.past ≡ self.old.past) }
        ensures refused { IfErr result (IsDue (in_segments (record { per = self.old.per; file = F.path self.old.file })) self.old.past) }
        ensures legal { Legal self.new.past }
    {
        self.items.try_reserve(1)?;
        let actions = self.actions.of(&loaded)?;
        match self.segmented.load(0, moment, loaded, &mut self.file) {
            Ok(()) => {
                self.items.push_reserved(newest(&self.segmented));
                self.actions.push(actions);
                Ok(())
            }
            Err(refused) => {
                self.standing = standing_after(self.standing, refused);
                Err(refused_of(refused))
            }
        }
    }
}
