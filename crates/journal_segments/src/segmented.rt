// A journal in segments.
ghost use Rattle.std.specs.Prelude.{◌≡◌, ◌<◌, ◌≤◌, ◌^◌, ◌+◌, [], List, false, nat_lt, length, IfErr, IfOk, OnErr, OnOk};
ghost use Rattle.std.specs.Option.{option_copied, option_map};
ghost use Rattle.pk_outside.specs.Allowing.{IsFree};
ghost use Rattle.pk_outside.specs.Causes.{FailsLast};
ghost use Rattle.pk_outside.specs.Streams.{Got, GotFront};
ghost use Rattle.authority_model.specs.declared.journal.Item.{Item};
ghost use Rattle.authority_model.specs.Given.{IsStepped, event_given, load_given, next};
ghost use Rattle.authority_model.specs.Legal.{Legal};
ghost use Rattle.journal_segments.specs.Segments.{IsSegmentedFor, after_due, after_rest, due_text, is_full, last_of, once_written, rest_text};
ghost use Rattle.journal_segments.specs.Steps.{FileFaults, IsAdded, IsEntered, IsFullExactly, Writes, WritesAll};
ghost use Rattle.journal_segments.specs.Text.{onto, segment_text};

use crate::pieces::write_pieces;
use crate::segment::Segment;
use crate::text::text_of;
use authority_desk::{Desk, DeskLoadRefused, DeskRefused};
use authority_model::{Entry, Event, Item, Loaded};
use pk_outside::{Failed, Sink};
use pk_types::{NoMemory, TryCopy};
use std::alloc::Global;
use std::marker::Model;

/// How many entries a journal in segments has at most.
pub const MAX_ENTRIES: u64 = 16_777_216;

/// How many outputs the entries of a journal in segments may have made where a further one is entered.
pub const MAX_OUTPUTS: u64 = 2_147_483_648;

/// Why nothing was entered, or the segment was not written.
#[derive(Clone, Copy, Debug, PartialEq, Eq)]
pub enum SegmentRefused {
    /// The file failed, and counted it.
    SegmentFault,
    /// The journal has as many entries, or more outputs, than it may have. It has this many entries.
    Full { entries: u64 },
    /// Memory was refused, or a count is at its greatest.
    NoMemory,
}

impl From<Failed> for SegmentRefused {
    ghost use Rattle.std.specs.Prelude.{◌≡◌};
    ghost use Rattle.journal_segments.specs.declared.segmented.SegmentRefused.TheVariants as refused;

    ghost from_gives = { λ _ e. e ≡ refused.SegmentFault };

    fn from(_: Failed) -> Self {
        SegmentRefused::SegmentFault
    }
}

impl From<NoMemory> for SegmentRefused {
    ghost use Rattle.std.specs.Prelude.{◌≡◌};
    ghost use Rattle.journal_segments.specs.declared.segmented.SegmentRefused.TheVariants as refused;

    ghost from_gives = { λ _ e. e ≡ refused.NoMemory };

    fn from(_: NoMemory) -> Self {
        SegmentRefused::NoMemory
    }
}

/// The authority with a journal whose full segments are handed out. It always stands for some legal history,
/// of which it keeps the tables and the segment so far.
#[derive(Drop)]
pub struct Segmented {
    alloc: Global,
    /// How many entries a segment has.
    per: u64,
    /// How many segments were written.
    written: u64,
    segment: Segment,
    /// In a box of its own, as that of an authority.
    desk: Box<Desk>,
}

impl Model for Segmented {
    ghost use Rattle.journal_segments.specs.Segments.{IsSegmented, Segments};

    ghost Value = { Segments };

    ghost view = { λ s. record { per = s.per; written = s.written; items = s.segment.items; desk = s.desk.value } };

    ghost invariant = { λ s. IsSegmented (record { per = s.per; written = s.written; items = s.segment.items; desk = s.desk.value }) };
}

impl Segmented {
    /// The empty history, of which no segment was written. A segment has so many entries.
    pub fn start(alloc: Global, per: u64) -> Result<Segmented, NoMemory>
        requires some { 0 < per }
        ensures per { IfOk result (λ s. s.per ≡ per) }
        ensures empty { IfOk result (λ s. s.items ≡ []) }
        ensures none { IfOk result (λ s. s.written ≡ 0) }
        ensures stands { IfOk result (IsSegmentedFor []) }
    {
        let desk = Box::new(alloc, Desk::start(alloc)?)?;
        Ok(Segmented {
            alloc,
            per,
            written: 0,
            segment: Segment::new(alloc),
            desk,
        })
    }

    /// The desk, which stands for the whole history. It takes no memory.
    pub fn desk(&self) -> &Desk
        ensures desk { result.now ≡ self.now.desk }
    {
        self.desk.as_ref()
    }

    /// The items of the segment so far, the oldest first. It takes no memory.
    pub fn items(&self) -> &[Item]
        ensures items { result.now ≡ self.now.items }
    {
        self.segment.items()
    }

    /// The newest entry of the segment so far, and `None` exactly where that is empty. It takes no memory.
    pub fn last(&self) -> Option<&Entry>
        ensures last { option_copied result ≡ option_map (λ (i : Item). i.entry) (last_of self.now.items) }
    {
        let item = self.items().last()?;
        Some(&item.entry)
    }

    /// Whether no further entry can be made.
    pub fn is_full(&self) -> bool
        ensures full { result ≡ is_full self.now }
    {
        let counts = self.desk.as_ref().counts();
        MAX_ENTRIES <= counts.entries || MAX_OUTPUTS < counts.outputs
    }

    /// The number of the segment so far.
    fn next_number(&self) -> Result<u64, NoMemory>
        ensures number { IfOk result (λ number. number ≡ self.now.written + 1) }
    {
        let number = self.written.checked_add(1).ok_or(NoMemory)?;
        Ok(number)
    }

    /// The text of the segment so far, as the one after those that were written.
    fn text(&self, number: u64) -> Result<Vec<u8>, NoMemory>
        ensures text { (done : List Item) → IsSegmentedFor done self.now → IfOk result (λ text. text.items ≡ segment_text number done self.now.items) }
    {
        let counts = self.desk.as_ref().counts();
        let items = self.segment.items();
        let first = counts.entries - items.len() as u64;
        text_of(self.alloc, number, first, items, counts)
    }

    /// Forgets the segment so far, which was written as the one with this number.
    fn forget(&mut self, number: u64)
        requires number { number ≡ self.old.written + 1 }
        ensures forgotten { self.new ≡ once_written self.old }
    {
        self.segment = Segment::new(self.alloc);
        self.written = number;
    }

    /// Writes the segment so far, and forgets it.
    fn write_segment<F: Sink>(&mut self, file: &mut F) -> Result<(), SegmentRefused>
        requires free { IsFree F.allowed }
        ensures ok { OnOk result (self.new ≡ once_written self.old) }
        ensures err { OnErr result (self.new ≡ self.old) }
        ensures wrote { (done : List Item) → IsSegmentedFor done self.old → WritesAll F.held (segment_text (self.old.written + 1) done self.old.items) file.old file.new result }
        ensures faults { FileFaults F.held F.faults file.old file.new result }
        ensures same { F.path file.new ≡ F.path file.old }
    {
        let number = self.next_number()?;
        let text = self.text(number)?;
        write_pieces(file, &text)?;
        self.forget(number);
        Ok(())
    }

    /// Writes the segment so far if it is full, and forgets it then.
    fn write_due<F: Sink>(&mut self, file: &mut F) -> Result<(), SegmentRefused>
        requires free { IsFree F.allowed }
        ensures ok { OnOk result (self.new ≡ after_due self.old) }
        ensures err { OnErr result (self.new ≡ self.old) }
        ensures wrote { (done : List Item) → IsSegmentedFor done self.old → WritesAll F.held (due_text done self.old) file.old file.new result }
        ensures faults { FileFaults F.held F.faults file.old file.new result }
        ensures same { F.path file.new ≡ F.path file.old }
    {
        if self.segment.is_due(self.per) {
            self.write_segment(file)
        } else {
            Ok(())
        }
    }

    /// Writes the rest, if there is one.
    ///
    /// # Errors
    /// 1 `SegmentFault` only where the file counted a fault, in its last write; 2 `NoMemory`, and then nothing
    /// was written.
    pub fn finish<F: Sink>(&mut self, file: &mut F) -> Result<(), SegmentRefused>
        requires free { IsFree F.allowed }
        ensures ok { OnOk result (self.new ≡ after_rest self.old) }
        ensures err { OnErr result (self.new ≡ self.old) }
        ensures wrote { (done : List Item) → IsSegmentedFor done self.old → WritesAll F.held (rest_text done self.old) file.old file.new result }
        ensures faults { FileFaults F.held F.faults file.old file.new result }
        ensures same { F.path file.new ≡ F.path file.old }
    {
        if self.segment.is_empty() {
            Ok(())
        } else {
            self.write_segment(file)
        }
    }

    /// Enters an event.
    fn enter(&mut self, caller: u32, moment: u64, salt: u128, event: Event) -> Result<(), NoMemory>
        requires event { IsStepped event }
        requires moment { moment ≤ 2 ^ 62 }
        requires few { self.old.desk.peers.entries < MAX_ENTRIES }
        ensures entered { (done : List Item) → IsSegmentedFor done self.old → OnOk result (IsAdded (event_given caller moment salt event) done self.old self.new) }
        ensures err { OnErr result (self.new ≡ self.old) }
    {
        self.segment.reserve()?;
        match self.desk.as_mut().step(caller, moment, salt, event) {
            Ok(entry) => {
                let loaded = None;
                self.segment.push(Item { entry, loaded });
                Ok(())
            }
            Err(DeskRefused::NoMemory { .. }) => Err(NoMemory),
        }
    }

    /// Enters a load.
    fn enter_load(&mut self, caller: u32, moment: u64, loaded: Loaded) -> Result<(), NoMemory>
        requires moment { moment ≤ 2 ^ 62 }
        requires few { self.old.desk.peers.entries < MAX_ENTRIES }
        ensures entered { (done : List Item) → IsSegmentedFor done self.old → OnOk result (IsAdded (load_given caller moment loaded) done self.old self.new) }
        ensures err { OnErr result (self.new ≡ self.old) }
    {
        let copy = loaded.try_copy()?;
        self.segment.reserve()?;
        match self.desk.as_mut().load(caller, moment, loaded) {
            Ok(entry) => {
                let loaded = Some(copy);
                self.segment.push(Item { entry, loaded });
                Ok(())
            }
            Err(DeskLoadRefused::NoMemory { .. }) => Err(NoMemory),
        }
    }

    /// Adds the entry of an event. The segment so far is written first if it is full, and the new entry then
    /// begins the next one.
    ///
    /// # Errors
    /// 1 `SegmentFault` only where the file counted a fault, in its last write, and the journal is not full; 2
    /// `Full` exactly where there are `MAX_ENTRIES` entries or more than `MAX_OUTPUTS` outputs; 3 `NoMemory`. No
    /// entry is made then; a segment that was due may have been written.
    pub fn step<F: Sink>(
        &mut self,
        caller: u32,
        moment: u64,
        salt: u128,
        event: Event,
        file: &mut F,
    ) -> Result<(), SegmentRefused>
        requires event { IsStepped event }
        requires moment { moment ≤ 2 ^ 62 }
        requires free { IsFree F.allowed }
        ensures entered { (done : List Item) → IsSegmentedFor done self.old → OnOk result (IsEntered (event_given caller moment salt event) done self.old self.new) }
        ensures wrote { (done : List Item) → IsSegmentedFor done self.old → Writes F.held (due_text done self.old) self.old self.new file.old file.new result }
        ensures full { IsFullExactly self.old result }
        ensures faults { FileFaults F.held F.faults file.old file.new result }
        ensures same { F.path file.new ≡ F.path file.old }
    {
        if self.is_full() {
            let entries = self.desk.as_ref().counts().entries;
            return Err(SegmentRefused::Full { entries });
        }
        self.write_due(file)?;
        self.enter(caller, moment, salt, event)?;
        Ok(())
    }

    /// Adds the entry of the next load. The segment so far is written first if it is full, and the new entry then
    /// begins the next one.
    ///
    /// # Errors
    /// As for `step`.
    pub fn load<F: Sink>(
        &mut self,
        caller: u32,
        moment: u64,
        loaded: Loaded,
        file: &mut F,
    ) -> Result<(), SegmentRefused>
        requires moment { moment ≤ 2 ^ 62 }
        requires free { IsFree F.allowed }
        ensures entered { (done : List Item) → IsSegmentedFor done self.old → OnOk result (IsEntered (load_given caller moment loaded) done self.old self.new) }
        ensures wrote { (done : List Item) → IsSegmentedFor done self.old → Writes F.held (due_text done self.old) self.old self.new file.old file.new result }
        ensures full { IsFullExactly self.old result }
        ensures faults { FileFaults F.held F.faults file.old file.new result }
        ensures same { F.path file.new ≡ F.path file.old }
    {
        if self.is_full() {
            let entries = self.desk.as_ref().counts().entries;
            return Err(SegmentRefused::Full { entries });
        }
        self.write_due(file)?;
        self.enter_load(caller, moment, loaded)?;
        Ok(())
    }
}
