// What a scenario is run over.
ghost use Rattle.std.specs.Prelude.{◌≡◌, ◌^◌, ◌≤◌, ◌∷◌, None, IfErr, IfNone, IfOk, IfSome, OnErr, OnOk};
ghost use Rattle.authority_model.specs.Given.{IsStepped, event_given, load_given, next};
ghost use Rattle.authority_model.specs.Items.{items_of};
ghost use Rattle.authority_model.specs.Legal.{IsLegal, Legal};
ghost use Rattle.scenario_text.specs.Answers.{message_line};
ghost use Rattle.scenario_run.specs.Journals.{IsDue, IsWhole, is_first};
ghost use Rattle.scenario_run.specs.Room.{Cutting, IsInSegments, full_at, in_segments, whole};
ghost use Rattle.scenario_run.specs.Text.{last_outputs, loads_of};

use crate::segmented::SegmentedJournal;
use crate::whole;
use authority_core::{Authority, Fullness, Halt};
use authority_model::{Event, History, Loaded, Output};
use pk_outside::{Failed, Sink};
use pk_types::{ByteList, NoMemory};
use std::alloc::Global;
use std::marker::Model;

/// Why nothing was entered.
#[derive(Clone, Copy, Debug, PartialEq, Eq)]
pub enum Refused {
    /// The journal had reached a limit. It is this full.
    Full(Fullness),
    /// The file of the segments failed, and counted it.
    SegmentFault,
    /// Memory was refused.
    NoMemory,
}

impl From<NoMemory> for Refused {
    ghost use Rattle.std.specs.Prelude.{◌≡◌};
    ghost use Rattle.scenario_run.specs.declared.journal.Refused.TheVariants as refused;

    ghost from_gives = { λ _ given. given ≡ refused.NoMemory };

    fn from(_: NoMemory) -> Self {
        Refused::NoMemory
    }
}

impl From<Halt> for Refused {
    ghost use Rattle.std.specs.Prelude.{◌≡◌};
    ghost use Rattle.scenario_run.specs.Refusals.{refused_by};

    ghost from_gives = { λ halt given. given ≡ refused_by halt };

    fn from(halt: Halt) -> Self {
        match halt {
            Halt::Full(full) => Refused::Full(full),
            Halt::NoMemory => Refused::NoMemory,
        }
    }
}

/// The file of a journal that is kept whole: there is none, and nothing is written to it.
#[derive(Clone, Copy, Debug, Drop)]
pub struct NoFile;

impl Sink for NoFile {
    ghost use Rattle.std.specs.Prelude.{None};

    ghost held = { λ _. None };

    ghost faults = { λ _. 0 };

    fn write(&mut self, bytes: &[u8]) -> Result<usize, Failed> {
        Ok(bytes.len())
    }
}

/// How a journal is kept.
#[derive(Drop)]
enum Kept<F: Sink> {
    Whole(Authority),
    InSegments(SegmentedJournal<F>),
}

/// A journal over which a scenario is run: one that is kept whole, or one whose full segments are handed
/// out to a file. It is seen as how it is kept and its items.
#[derive(Drop)]
pub struct Journal<F: Sink> {
    kept: Kept<F>,
}

impl<F: Sink> Model for Journal<F> {
    ghost use Rattle.scenario_run.specs.Journals.{Journaled, seen_as};

    ghost Value = { Journaled };

    ghost view = { λ j. seen_as F.path j.kept };
}

impl<F: Sink> Journal<F> {
    /// The journal of an authority, which is kept whole.
    pub fn whole(authority: Authority) -> Journal<F>
        ensures keeping { result.keeping ≡ whole authority.limits }
        ensures past { result.past ≡ items_of authority.history }
    {
        Journal {
            kept: Kept::Whole(authority),
        }
    }

    /// A journal in segments.
    pub fn in_segments(segmented: SegmentedJournal<F>) -> Journal<F>
        ensures keeping { result.keeping ≡ in_segments (record { per = segmented.per; file = F.path segmented.file }) }
        ensures past { result.past ≡ segmented.past }
    {
        Journal {
            kept: Kept::InSegments(segmented),
        }
    }

    /// The history of a journal that is kept whole.
    pub fn history(&self) -> Option<&History>
        ensures items { IfSome result (λ history. items_of history.now ≡ self.now.past) }
        ensures legal { IfSome result (λ history. IsLegal history.now) }
        ensures none { IfNone result (IsInSegments self.now.keeping) }
    {
        match &self.kept {
            Kept::Whole(authority) => Some(authority.history()),
            Kept::InSegments(_) => None,
        }
    }

    /// The journal in segments, where it is one.
    pub fn into_segmented(self) -> Option<SegmentedJournal<F>>
        ensures past { IfSome result (λ segmented. segmented.past ≡ self.past) }
        ensures keeping { IfSome result (λ segmented. in_segments (record { per = segmented.per; file = F.path segmented.file }) ≡ self.keeping) }
        ensures none { IfNone result (IsWhole self.keeping) }
    {
        match self.kept {
            Kept::Whole(_) => None,
            Kept::InSegments(segmented) => Some(segmented),
        }
    }

    /// Whether there is no item.
    pub fn is_empty(&self) -> bool
        ensures empty { result ≡ is_first self.now.past }
    {
        match &self.kept {
            Kept::Whole(authority) => whole::is_empty(authority),
            Kept::InSegments(segmented) => segmented.is_empty(),
        }
    }

    /// The outputs of the newest entry. `None` comes only where a refusal came after that.
    pub fn last_outputs(&self) -> Option<&[Output]>
        ensures outputs { IfSome result (λ outputs. outputs.now ≡ last_outputs self.now.past) }
    {
        match &self.kept {
            Kept::Whole(authority) => whole::last_outputs(authority),
            Kept::InSegments(segmented) => segmented.last_outputs(),
        }
    }

    /// The answer line of one of the outputs, which has this number among those to its connection.
    ///
    /// # Errors
    /// `NoMemory` alone.
    pub fn answer(&self, alloc: Global, output: &Output, serial: u32) -> Result<ByteList, NoMemory>
        ensures line { IfOk result (λ line. line ≡ message_line (loads_of self.now.past) output.now.to serial output.now.message) }
    {
        match &self.kept {
            Kept::Whole(authority) => whole::answer(authority, alloc, output, serial),
            Kept::InSegments(segmented) => segmented.answer(alloc, output, serial),
        }
    }

    /// Adds the entry of an event, with the salt 0.
    ///
    /// # Errors
    /// `Full` exactly where the journal takes no further entry; `SegmentFault` only where the file
    /// of the segments failed; `NoMemory`. No entry is made then.
    pub fn enter(&mut self, caller: u32, moment: u64, event: Event) -> Result<(), Refused>
        requires event { IsStepped event }
        requires moment { moment ≤ 2 ^ 62 }
        ensures kept { self.new.keeping ≡ self.old.keeping }
        ensures room { OnOk result (full_at self.old.keeping self.old.past ≡ None) }
        ensures item { OnOk result (self.new.past ≡ next self.old.past (event_given caller moment 0 event) ∷ self.old.past) }
        ensures err { OnErr result (self.new.past ≡ self.old.past) }
        ensures refused { IfErr result (IsDue self.old.keeping self.old.past) }
        ensures legal { Legal self.new.past }
    {
        match &mut self.kept {
            Kept::Whole(authority) => whole::enter(authority, caller, moment, event),
            Kept::InSegments(segmented) => segmented.enter(caller, moment, event),
        }
    }

    /// Adds the entry of the next load, by connection 0.
    ///
    /// # Errors
    /// As for `enter`.
    pub fn enter_load(&mut self, moment: u64, loaded: Loaded) -> Result<(), Refused>
        requires moment { moment ≤ 2 ^ 62 }
        ensures kept { self.new.keeping ≡ self.old.keeping }
        ensures room { OnOk result (full_at self.old.keeping self.old.past ≡ None) }
        ensures item { OnOk result (self.new.past ≡ next self.old.past (load_given 0 moment loaded) ∷ self.old.past) }
        ensures err { OnErr result (self.new.past ≡ self.old.past) }
        ensures refused { IfErr result (IsDue self.old.keeping self.old.past) }
        ensures legal { Legal self.new.past }
    {
        match &mut self.kept {
            Kept::Whole(authority) => whole::enter_load(authority, moment, loaded),
            Kept::InSegments(segmented) => segmented.enter_load(moment, loaded),
        }
    }
}
