// A run of scenario lines: the draft, and the journal that they are entered into.
ghost use Rattle.std.specs.Prelude.{◌≡◌, ◌≤◌, ◌∷◌, [], Ok, IfOk, OnOk, IfErr};
ghost use Rattle.authority_model.specs.Given.{IsStepped, event_given};
ghost use Rattle.authority_model.specs.Items.{sent};
ghost use Rattle.scenario_run.specs.Text.{IsEntered, text_of};
ghost use Rattle.scenario_text.specs.Faults.{IsFaultOf};
ghost use Rattle.scenario_text.specs.Runs.{IsRunnable};

use crate::draft::change;
use crate::journal::{Journal, Refused};
use authority_core::Fullness;
use authority_model::{Event, Loaded};
use pk_outside::Sink;
use pk_types::TryCopy;
use scenario_text::{LineFault, LineKind, Step, read_line};
use std::alloc::Global;
use std::marker::Model;

/// What a line did.
#[derive(Clone, Copy, Debug, PartialEq, Eq)]
pub enum LineEffect {
    /// It changed the draft or the moment, or it was blank.
    Draft,
    /// It made an entry, which is the journal's last.
    Entry,
}

/// What stopped a run at a line.
#[derive(Clone, Copy, Debug, PartialEq, Eq)]
pub enum LineStop {
    /// The line has this fault, or memory was refused.
    Fault(LineFault),
    /// A further entry was due, and the journal had reached a limit. It is this full.
    Full(Fullness),
    /// The file of the segments failed, and counted it.
    SegmentFault,
}

impl Refused {
    ghost use Rattle.scenario_run.specs.ScenarioRuns.{stop_at};

    /// How this stops the run at a line.
    fn at(self, line: u64) -> LineStop
        ensures stop { result ≡ stop_at line self }
    {
        match self {
            Refused::Full(full) => LineStop::Full(full),
            Refused::SegmentFault => LineStop::SegmentFault,
            Refused::NoMemory => LineStop::Fault(LineFault {
                line,
                kind: LineKind::NoMemory,
            }),
        }
    }
}

/// Where a scenario stands: the draft of the next load, the moment of the next event, and the journal.
/// Contracts see it as a scene.
#[derive(Drop)]
pub struct ScenarioRun<F: Sink> {
    draft: Loaded,
    moment: u64,
    journal: Journal<F>,
}

impl<F: Sink> Model for ScenarioRun<F> {
    ghost use Rattle.std.specs.Prelude.{◌≤◌, ◌^◌};
    ghost use Rattle.authority_model.specs.Legal.{Legal};
    ghost use Rattle.scenario_run.specs.Scene.{Scene};

    ghost Value = { Scene };

    ghost view = { λ s. record { keeping = s.journal.keeping; draft = s.draft; moment = s.moment; past = s.journal.past } };

    ghost invariant = { λ s. (s.moment ≤ 2 ^ 62) × Legal s.journal.past };
}

impl<F: Sink> ScenarioRun<F> {
    ghost use Rattle.authority_model.specs.Legal.{Legal};
    ghost use Rattle.scenario_run.specs.Scene.{start, reached, handed_in, load_of, first_load, given_for, run_step, run_line};
    ghost use Rattle.scenario_run.specs.ScenarioRuns.{EffectIs, IsAt, IsRefused, IsStop};

    /// A run that begins with this draft, at moment 0, over a journal without an item.
    pub fn start(journal: Journal<F>, draft: Loaded) -> ScenarioRun<F>
        requires none { journal.past ≡ [] }
        ensures start { result ≡ start journal.keeping draft }
    {
        ScenarioRun {
            draft,
            moment: 0,
            journal,
        }
    }

    /// The journal, whose items are legal.
    pub fn journal(&self) -> &Journal<F>
        ensures past { result.now.past ≡ self.now.past }
        ensures kept { result.now.keeping ≡ self.now.keeping }
        ensures legal { Legal self.now.past }
    {
        &self.journal
    }

    /// The journal, once the run has ended.
    pub fn into_journal(self) -> Journal<F>
        ensures past { result.past ≡ self.past }
        ensures kept { result.keeping ≡ self.keeping }
    {
        self.journal
    }

    /// Loads the draft.
    fn load_draft(&mut self) -> Result<(), Refused>
        ensures kept { self.new.keeping ≡ self.old.keeping }
        ensures ok { OnOk result (handed_in self.old (load_of self.old ∷ []) ≡ reached self.new) }
        ensures entered { OnOk result (IsEntered self.old.past self.new.past) }
        ensures refused { IfErr result (IsRefused self.old self.new (handed_in self.old (load_of self.old ∷ []))) }
    {
        let draft = self.draft.try_copy()?;
        self.journal.enter_load(self.moment, draft)
    }

    /// Loads the draft, unless an event came before.
    fn begin(&mut self) -> Result<(), Refused>
        ensures kept { self.new.keeping ≡ self.old.keeping }
        ensures ok { OnOk result (handed_in self.old (first_load self.old self.old.past) ≡ reached self.new) }
        ensures text { OnOk result (text_of self.new.past ≡ text_of self.old.past) }
        ensures counts { OnOk result (sent self.new.past ≡ sent self.old.past) }
        ensures refused { IfErr result (IsRefused self.old self.new (handed_in self.old (first_load self.old self.old.past))) }
    {
        if !self.journal.is_empty() {
            return Ok(());
        }
        self.load_draft()
    }

    /// Submits an event.
    fn step(&mut self, caller: u32, event: Event) -> Result<(), Refused>
        requires { IsStepped event }
        ensures kept { self.new.keeping ≡ self.old.keeping }
        ensures ok { OnOk result (handed_in self.old (event_given caller self.old.moment 0 event ∷ []) ≡ reached self.new) }
        ensures entered { OnOk result (IsEntered self.old.past self.new.past) }
        ensures refused { IfErr result (IsRefused self.old self.new (handed_in self.old (event_given caller self.old.moment 0 event ∷ []))) }
    {
        self.journal.enter(caller, self.moment, event)
    }

    /// Submits an event. The draft is loaded first, if no event came before.
    fn act(&mut self, caller: u32, event: Event) -> Result<(), Refused>
        requires { IsStepped event }
        ensures kept { self.new.keeping ≡ self.old.keeping }
        ensures ok { OnOk result (handed_in self.old (given_for self.old caller event) ≡ reached self.new) }
        ensures entered { OnOk result (IsEntered self.old.past self.new.past) }
        ensures refused { IfErr result (IsRefused self.old self.new (handed_in self.old (given_for self.old caller event))) }
    {
        self.begin()?;
        self.step(caller, event)
    }

    /// Does what the step of a line says.
    fn take_step(&mut self, alloc: Global, step: Step, line: u64) -> Result<LineEffect, LineStop>
        requires { IsRunnable step }
        ensures kept { self.new.keeping ≡ self.old.keeping }
        ensures ok { OnOk result (run_step self.old step ≡ Ok (reached self.new)) }
        ensures taken { IfOk result (λ taken. EffectIs taken self.old.past self.new.past) }
        ensures stop { IfErr result (IsStop self.old self.new (run_step self.old step)) }
        ensures line { IfErr result (IsAt line) }
    {
        match step {
            Step::Blank => Ok(LineEffect::Draft),
            Step::At { t } => {
                self.moment = t;
                Ok(LineEffect::Draft)
            }
            Step::Reload => match self.load_draft() {
                Ok(()) => Ok(LineEffect::Entry),
                Err(refused) => Err(refused.at(line)),
            },
            Step::Act { caller, event } => match self.act(caller, event) {
                Ok(()) => Ok(LineEffect::Entry),
                Err(refused) => Err(refused.at(line)),
            },
            change_of_draft => match change(alloc, &mut self.draft, change_of_draft) {
                Ok(()) => Ok(LineEffect::Draft),
                Err(kind) => Err(LineStop::Fault(LineFault { line, kind })),
            },
        }
    }

    /// Does what the line with this number says.
    ///
    /// # Errors
    /// `Fault` with the first fault of the line, or `NoMemory`; `Full` exactly where the line is in the
    /// grammar and the journal has reached a limit before an entry that the line makes; `SegmentFault`
    /// only where the file of its segments failed.
    pub fn take_line(
        &mut self,
        alloc: Global,
        line: &[u8],
        number: u64,
    ) -> Result<LineEffect, LineStop>
        ensures kept { self.new.keeping ≡ self.old.keeping }
        ensures ok { OnOk result (run_line self.old line.now ≡ Ok (reached self.new)) }
        ensures taken { IfOk result (λ taken. EffectIs taken self.old.past self.new.past) }
        ensures stop { IfErr result (IsStop self.old self.new (run_line self.old line.now)) }
        ensures line { IfErr result (IsAt number) }
    {
        match read_line(alloc, line, number) {
            Ok(step) => self.take_step(alloc, step, number),
            Err(fault) => Err(LineStop::Fault(fault)),
        }
    }
}
