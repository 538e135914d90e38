// A scenario is run line by line, and told as far as it is told.
ghost use Rattle.std.specs.Prelude.{◌≡◌, ◌≤◌, ℕ, [], IfOk, OnOk};
ghost use Rattle.authority_model.specs.Entering.{AreAllowed};
ghost use Rattle.authority_model.specs.Items.{sent};
ghost use Rattle.authority_model.specs.Legal.{Legal};
ghost use Rattle.replay_run.specs.Faults.{InputFaults, OutputFaults, LineWrites};
ghost use Rattle.replay_run.specs.Lines.{LastTold, LineDone};
ghost use Rattle.replay_run.specs.Promises.{MayTellLast, MayTellOn};
ghost use Rattle.replay_run.specs.Replay.{Plays, IsRun};
ghost use Rattle.replay_run.specs.Telling.{HasCounted, tells};
ghost use Rattle.scenario_run.specs.Room.{whole};
ghost use Rattle.scenario_run.specs.Scene.{start};

use crate::ends::{ReplayEnd, Stopped};
use crate::telling::Telling;
use crate::written::WriteRefused;
use authority_core::Authority;
use authority_model::{Limits, Loaded};
use pk_outside::{Sink, Source};
use pk_types::NoMemory;
use scenario_run::{Journal, LineEffect, NoFile, ScenarioRun};
use scenario_text::{LineKind, MAX_LINE};
use source_buffer::{LineRead, LineReader};
use std::alloc::Global;

/// Tells the answers of the last entry.
fn tell_last<F: Sink, O: Sink>(
    alloc: Global,
    scenario: &ScenarioRun<F>,
    telling: &mut Telling,
    output: &mut O,
) -> Result<(), Stopped>
    requires may { Legal scenario.now.past → MayTellLast telling.old O.allowed (O.held output.old) scenario.now.past }
    ensures same { tells telling.new ≡ tells telling.old }
    ensures told { (counts : ℕ → ℕ) → HasCounted telling.old counts →
        LastTold (tells telling.old) (HasCounted telling.new) scenario.now.past counts (O.held output.old) (O.held output.new) result }
    ensures legal { Legal scenario.now.past }
    ensures faults { LineWrites O.held O.faults output.old output.new result }
    ensures later { O.faults output.old ≤ O.faults output.new }
{
    match telling.tell(alloc, scenario.journal(), output) {
        Ok(()) => Ok(()),
        Err(WriteRefused::Failed) => Err(Stopped::WriteFault),
        Err(WriteRefused::NoMemory) => Err(Stopped::NoMemory),
    }
}

/// Does what a line says, and tells its answers.
fn answer<F: Sink, O: Sink>(
    alloc: Global,
    scenario: &mut ScenarioRun<F>,
    telling: &mut Telling,
    line: &[u8],
    number: u64,
    output: &mut O,
) -> Result<(), Stopped>
    requires counted { HasCounted telling.old (sent scenario.old.past) }
    requires legal { Legal scenario.old.past }
    requires may { MayTellOn (tells telling.old) O.allowed (O.held output.old) scenario.old.past }
    ensures same { tells telling.new ≡ tells telling.old }
    ensures counted { OnOk result (HasCounted telling.new (sent scenario.new.past)) }
    ensures kept { scenario.new.keeping ≡ scenario.old.keeping }
    ensures done { LineDone (tells telling.old) scenario.old line.now scenario.new (O.held output.old) (O.held output.new) result }
    ensures faults { LineWrites O.held O.faults output.old output.new result }
    ensures later { O.faults output.old ≤ O.faults output.new }
{
    match scenario.take_line(alloc, line, number) {
        Ok(LineEffect::Draft) => Ok(()),
        Ok(LineEffect::Entry) => tell_last(alloc, scenario, telling, output),
        Err(stop) => Err(Stopped::of(stop)),
    }
}

/// A run of a scenario under way.
#[derive(Drop)]
pub struct Playback<F: Sink> {
    alloc: Global,
    reader: LineReader,
    scenario: ScenarioRun<F>,
    telling: Telling,
    line: Vec<u8>,
    /// The number of the next line, counted from 1.
    number: u64,
}

impl Playback<NoFile> {
    /// A run that has read nothing, begins with this draft and an empty journal that is kept whole, and
    /// tells what it is given to.
    pub fn start(
        alloc: Global,
        limits: Limits,
        draft: Loaded,
        telling: Telling,
    ) -> Result<Playback<NoFile>, NoMemory>
        requires limits { AreAllowed limits }
        ensures reader { IfOk result (λ playback. playback.reader ≡ []) }
        ensures number { IfOk result (λ playback. playback.number ≡ 1) }
        ensures scenario { IfOk result (λ playback. playback.scenario ≡ start (whole limits) draft) }
        ensures telling { IfOk result (λ playback. playback.telling ≡ telling) }
    {
        let reader = LineReader::new(alloc)?;
        let journal = Journal::whole(Authority::start(alloc, limits)?);
        Ok(Playback::over(alloc, reader, journal, draft, telling))
    }
}

impl<F: Sink> Playback<F> {
    /// A run that has read nothing, begins with this draft and a journal without an item, and tells what it
    /// is given to.
    pub fn over(
        alloc: Global,
        reader: LineReader,
        journal: Journal<F>,
        draft: Loaded,
        telling: Telling,
    ) -> Playback<F>
        requires none { journal.past ≡ [] }
        ensures reader { result.reader ≡ reader }
        ensures number { result.number ≡ 1 }
        ensures scenario { result.scenario ≡ start journal.keeping draft }
        ensures telling { result.telling ≡ telling }
    {
        Playback {
            alloc,
            reader,
            scenario: ScenarioRun::start(journal, draft),
            telling,
            line: Vec::new(alloc),
            number: 1,
        }
    }

    /// Runs the lines of the input, until it ends or the first fault comes.
    pub fn run<I: Source, O: Sink>(&mut self, input: &mut I, output: &mut O) -> ReplayEnd
        requires reader { self.old.reader ≡ [] }
        requires number { self.old.number ≡ 1 }
        requires none { self.old.scenario.past ≡ [] }
        requires counted { HasCounted self.old.telling (sent []) }
        requires may { MayTellOn (tells self.old.telling) O.allowed (O.held output.old) self.old.scenario.past }
        ensures run { Plays (tells self.old.telling) [] self.old.scenario (I.left input.old) (I.left input.new) (I.ended input.new) (O.held output.old) (O.held output.new) result }
        ensures whole { result ≡ ReplayEnd.Done →
            IsRun self.old.scenario (I.left input.old) (I.left input.new) (I.ended input.new) self.new.scenario.past }
        ensures kept { self.new.scenario.keeping ≡ self.old.scenario.keeping }
        ensures read { InputFaults I.left I.faults input.old input.new result }
        ensures write { OutputFaults O.held O.faults output.old output.new result }
    {
        'lines: loop {
            let number = self.number;
            match self.reader.next_line(input, &mut self.line, MAX_LINE) {
                LineRead::Line => match answer(
                    self.alloc,
                    &mut self.scenario,
                    &mut self.telling,
                    &self.line,
                    number,
                    output,
                ) {
                    Ok(()) => self.number = number + 1,
                    Err(stopped) => return stopped.end(number),
                },
                LineRead::Last => match answer(
                    self.alloc,
                    &mut self.scenario,
                    &mut self.telling,
                    &self.line,
                    number,
                    output,
                ) {
                    Ok(()) => return ReplayEnd::Done,
                    Err(stopped) => return stopped.end(number),
                },
                LineRead::End => return ReplayEnd::Done,
                LineRead::TooLong => return Stopped::Fault(LineKind::TooLong).end(number),
                LineRead::ReadFault => return ReplayEnd::ReadFault,
                LineRead::NoMemory => return ReplayEnd::NoMemory,
            }
        }
    }

    /// The journal so far.
    pub fn journal(&self) -> &Journal<F>
        ensures past { result.now.past ≡ self.now.scenario.past }
        ensures kept { result.now.keeping ≡ self.now.scenario.keeping }
    {
        self.scenario.journal()
    }

    /// The journal, once the run has ended.
    pub fn into_journal(self) -> Journal<F>
        ensures past { result.past ≡ self.scenario.past }
        ensures kept { result.keeping ≡ self.scenario.keeping }
    {
        self.scenario.into_journal()
    }
}
