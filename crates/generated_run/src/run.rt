// The run: a setup, and checks, each with its dialogue.
ghost use Rattle.std.specs.Prelude.{◌≡◌, ◌<◌, ◌≤◌, ◌^◌, [], IfErr, IfOk, OnOk, List};
ghost use Rattle.authority_model.specs.declared.journal.Item.{Item};
ghost use Rattle.authority_model.specs.Given.{IsStepped, event_given, load_given};
ghost use Rattle.authority_model.specs.Legal.{Legal};
ghost use Rattle.authority_model.specs.Licensed.{AllLicensed};
ghost use Rattle.generated_run.specs.Kept.{Has};
ghost use Rattle.generated_run.specs.Run.{entered, each_entered, connects, registers, set_up, asked_last, dismissed, authenticated, answered, checked, generated};
ghost use Rattle.generated_run.specs.Setup.{setup};
ghost use Rattle.generated_run.specs.Stops.{StopsIn};
ghost use Rattle.generated_run.specs.Summaries.{summary_of};

use crate::asked::{Asked, after, asked_in};
use crate::events::{cancelled, check, registration, response};
use crate::setup::setup;
use crate::summary::Summary;
use authority_core::{Authority, Halt, Limits};
use authority_model::{Event, Loaded};
use pk_types::NoMemory;
use std::alloc::Global;

/// The number of root's connection.
const ROOT: u32 = 9;

/// A run so far. After a refusal it must not be used.
#[derive(Drop)]
pub struct Run {
    alloc: Global,
    authority: Authority,
    /// The totals so far, so that no step walks the journal.
    summary: Summary,
}

impl Run {
    /// A run without an entry.
    fn start(alloc: Global) -> Result<Run, NoMemory>
        ensures empty { IfOk result (Has []) }
    {
        let authority = Authority::start(alloc, Limits::GREATEST)?;
        Ok(Run {
            alloc,
            authority,
            summary: Summary::start(),
        })
    }

    /// Adds the entry of a load by connection 0 at moment 0.
    fn load(&mut self, loaded: Loaded) -> Result<(), Halt>
        ensures ok { (past : List Item) → Has past self.old → OnOk result (Has (entered past (load_given 0 0 loaded)) self.new) }
        ensures stop { (past : List Item) → Has past self.old → IfErr result (StopsIn (entered past (load_given 0 0 loaded))) }
    {
        match self.authority.load(0, 0, loaded) {
            Ok(place) => {
                let Some(entry) = self.authority.entry(place) else {
                    unreachable!();
                };
                self.summary.add(entry)?;
                Ok(())
            }
            Err(refused) => {
                let (halt, loaded) = refused.into_parts();
                drop(loaded);
                Err(halt)
            }
        }
    }

    /// Adds the entry of an event, and answers what it asks of its caller.
    fn enter(&mut self, caller: u32, moment: u64, event: Event) -> Result<Option<Asked>, Halt>
        requires event { IsStepped event }
        requires moment { moment ≤ 2 ^ 62 }
        ensures ok { (past : List Item) → Has past self.old → OnOk result (Has (entered past (event_given caller moment 0 event)) self.new) }
        ensures asked { (past : List Item) → Has past self.old → IfOk result (λ asked. asked ≡ asked_last (entered past (event_given caller moment 0 event))) }
        ensures stop { (past : List Item) → Has past self.old → IfErr result (StopsIn (entered past (event_given caller moment 0 event))) }
    {
        let serial = after(self.authority.sent_count(caller))?;
        match self.authority.step(caller, moment, 0, event) {
            Ok(place) => {
                let Some(entry) = self.authority.entry(place) else {
                    unreachable!();
                };
                let asked = asked_in(caller, serial, entry.outputs.as_slice())?;
                self.summary.add(entry)?;
                Ok(asked)
            }
            Err(refused) => {
                let (halt, event) = refused.into_parts();
                drop(event);
                Err(halt)
            }
        }
    }

    /// The users connect.
    #[tactic(auto, using(crate::proofs::Entering::none_entered, crate::proofs::Entering::one_more_entered))]
    fn connect_users(&mut self) -> Result<(), Halt>
        ensures ok { (past : List Item) → Has past self.old → OnOk result (Has (each_entered connects 8 past) self.new) }
        ensures stop { (past : List Item) → Has past self.old → IfErr result (StopsIn (each_entered connects 8 past)) }
    {
        for i in 0..8 {
            self.enter(i + 1, 0, Event::Connect { uid: 1000 + i })?;
        }
        Ok(())
    }

    /// Each user registers an agent.
    #[tactic(auto, using(crate::proofs::Entering::none_entered, crate::proofs::Entering::one_more_entered))]
    fn register_agents(&mut self) -> Result<(), Halt>
        ensures ok { (past : List Item) → Has past self.old → OnOk result (Has (each_entered registers 8 past) self.new) }
        ensures stop { (past : List Item) → Has past self.old → IfErr result (StopsIn (each_entered registers 8 past)) }
    {
        for i in 0..8 {
            let event = registration(self.alloc, i)?;
            self.enter(i + 1, 0, event)?;
        }
        Ok(())
    }

    /// Sets up a run that is empty.
    #[tactic(auto, using(crate::proofs::Entering::is_set_up))]
    fn set_up(&mut self) -> Result<(), Halt>
        ensures ok { Has [] self.old → OnOk result (Has set_up self.new) }
        ensures stop { Has [] self.old → IfErr result (StopsIn set_up) }
    {
        let setup = setup(self.alloc)?;
        self.load(setup)?;
        self.connect_users()?;
        self.enter(ROOT, 0, Event::Connect { uid: 0 })?;
        self.register_agents()
    }

    /// The user dismisses the dialogue of the k-th check.
    fn dismiss(&mut self, k: u32, asked: Asked) -> Result<(), Halt>
        requires { k < 100000 }
        ensures ok { (past : List Item) → Has past self.old → OnOk result (Has (dismissed k past asked) self.new) }
        ensures stop { (past : List Item) → Has past self.old → IfErr result (StopsIn (dismissed k past asked)) }
    {
        let name = cancelled(self.alloc)?;
        let event = Event::AgentError {
            serial: asked.serial,
            name,
        };
        self.enter(1 + k % 8, u64::from(k), event)?;
        Ok(())
    }

    /// The user is authenticated in the dialogue of the k-th check, and the agent returns.
    fn authenticate(&mut self, k: u32, asked: Asked) -> Result<(), Halt>
        requires { k < 100000 }
        ensures ok { (past : List Item) → Has past self.old → OnOk result (Has (authenticated k past asked) self.new) }
        ensures stop { (past : List Item) → Has past self.old → IfErr result (StopsIn (authenticated k past asked)) }
    {
        let event = response(self.alloc, k, asked)?;
        self.enter(ROOT, u64::from(k), event)?;
        let event = Event::Returned {
            serial: asked.serial,
        };
        self.enter(1 + k % 8, u64::from(k), event)?;
        Ok(())
    }

    /// What follows where the k-th check asks.
    fn answer(&mut self, k: u32, asked: Asked) -> Result<(), Halt>
        requires { k < 100000 }
        ensures ok { (past : List Item) → Has past self.old → OnOk result (Has (answered k past asked) self.new) }
        ensures stop { (past : List Item) → Has past self.old → IfErr result (StopsIn (answered k past asked)) }
    {
        if k % 5 == 4 {
            self.dismiss(k, asked)
        } else {
            self.authenticate(k, asked)
        }
    }

    /// The k-th check with its dialogue.
    fn check(&mut self, k: u32) -> Result<(), Halt>
        requires { k < 100000 }
        ensures ok { (past : List Item) → Has past self.old → OnOk result (Has (checked k past) self.new) }
        ensures stop { (past : List Item) → Has past self.old → IfErr result (StopsIn (checked k past)) }
    {
        let event = check(self.alloc, k)?;
        match self.enter(1 + k % 8, u64::from(k), event)? {
            Some(asked) => self.answer(k, asked),
            None => Ok(()),
        }
    }

    /// Sets up a run that is empty, and runs so many checks.
    #[tactic(auto, using(crate::proofs::Entering::none_generated, crate::proofs::Entering::one_more_generated))]
    fn generate(&mut self, n: u32) -> Result<(), Halt>
        requires { n ≤ 100000 }
        ensures ok { Has [] self.old → OnOk result (Has (generated n) self.new) }
        ensures stop { Has [] self.old → IfErr result (StopsIn (generated n)) }
    {
        self.set_up()?;
        for k in 0..n {
            self.check(k)?;
        }
        Ok(())
    }

    /// The totals of the run. Its items are legal, and each yes in them is licensed.
    fn summary(&self) -> Summary
        ensures summary { (past : List Item) → Has past self.now → result ≡ summary_of past }
        ensures legal { (past : List Item) → Has past self.now → Legal past }
        ensures licensed { (past : List Item) → Has past self.now → AllLicensed past }
    {
        // It is the journal that is legal.
        let _journal = self.authority.history();
        self.summary
    }
}

/// The summary of a run of this many checks, each with its dialogue, after a setup.
///
/// The run is a legal history, in which each yes is licensed.
///
/// # Errors
/// 1 `Full` only where a journal of the greatest limits is full after entries of this run,
/// and a further one is due; 2 `NoMemory`.
pub fn generate(alloc: Global, n: u32) -> Result<Summary, Halt>
    requires { n ≤ 100000 }
    ensures summary { IfOk result (λ summary. summary ≡ summary_of (generated n)) }
    ensures legal { OnOk result (Legal (generated n)) }
    ensures licensed { OnOk result (AllLicensed (generated n)) }
    ensures stop { IfErr result (StopsIn (generated n)) }
{
    let mut run = Run::start(alloc)?;
    run.generate(n)?;
    Ok(run.summary())
}
