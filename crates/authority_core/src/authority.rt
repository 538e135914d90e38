// The authority: its journal, and the calls that add to it.
ghost use Rattle.std.specs.Prelude.{◌≡◌, ◌≤◌, ◌^◌, ◌++◌, ◌∷◌, [], false, true, max, length, slice_get, IfOk, IfErr, OnOk, OnErr};
ghost use Rattle.std.specs.Option.{option_copied, option_map};
ghost use Rattle.authority_laws.specs.Batches.{IsBatch, collect_given};
ghost use Rattle.authority_model.specs.Items.{items_of, loaded_of, policy_of, sent};
ghost use Rattle.authority_model.specs.Legal.{IsLegal, last_moment};
ghost use Rattle.authority_model.specs.Licensed.{AllLicensed};
ghost use Rattle.authority_model.specs.Deciding.{decision as decision_on, told_decision};
ghost use Rattle.authority_model.specs.Grants.{kept};
ghost use Rattle.authority_model.specs.Given.{IsStepped, event_given, load_given, next, Grows};
ghost use Rattle.authority_model.specs.Sent.{is_ready};
ghost use Rattle.authority_desk.specs.Seen.{IsDeskFor};
ghost use Rattle.authority_core.specs.Collecting.{numbered_output};
ghost use Rattle.authority_core.specs.Unlisting.{lists_process, unlisted};

use crate::collecting::{Batch, CollectStepRefused, batch_of, output_to};
use crate::entering::{enter, enter_collect, enter_load};
use crate::halt::{Fullness, Halt};
use crate::unlisting::without_process;
use authority_desk::Desk;
use authority_model::{Decision, Entry, Event, History, Limits, Loaded, Output};
use journal_costs::cost_of_load;
use journal_view::{JournalView, facts};
use pk_types::{List, NoMemory, Subject, Text};
use std::alloc::Global;
use std::marker::Model;
use view_decision::decision;

/// Why an event was refused. It comes back, and nothing has changed.
#[derive(Drop)]
pub enum StepRefused {
    /// The journal has reached its limit of entries or of bytes. It has this many.
    JournalFull {
        entries: u64,
        bytes: u64,
        event: Event,
    },
    NoMemory {
        event: Event,
    },
}

impl StepRefused {
    ghost use Rattle.authority_core.specs.Refusals.{event_back, halt_of_step};

    /// Why nothing was added, and the event that comes back.
    pub fn into_parts(self) -> (Halt, Event)
        ensures halt { result.0 ≡ halt_of_step self }
        ensures event { result.1 ≡ event_back self }
    {
        match self {
            StepRefused::JournalFull {
                entries,
                bytes,
                event,
            } => (Halt::Full(Fullness { entries, bytes }), event),
            StepRefused::NoMemory { event } => (Halt::NoMemory, event),
        }
    }
}

/// Why a load was refused. It comes back, and nothing has changed.
#[derive(Drop)]
pub enum LoadStepRefused {
    /// The journal has reached its limit of entries or of bytes. It has this many.
    JournalFull {
        entries: u64,
        bytes: u64,
        loaded: Loaded,
    },
    NoMemory {
        loaded: Loaded,
    },
}

impl LoadStepRefused {
    ghost use Rattle.authority_core.specs.Refusals.{halt_of_load, loaded_back};

    /// Why nothing was added, and the load that comes back.
    pub fn into_parts(self) -> (Halt, Loaded)
        ensures halt { result.0 ≡ halt_of_load self }
        ensures loaded { result.1 ≡ loaded_back self }
    {
        match self {
            LoadStepRefused::JournalFull {
                entries,
                bytes,
                loaded,
            } => (Halt::Full(Fullness { entries, bytes }), loaded),
            LoadStepRefused::NoMemory { loaded } => (Halt::NoMemory, loaded),
        }
    }
}

/// Why no load without a process was added. Nothing has changed.
#[derive(Clone, Copy, Debug, PartialEq, Eq)]
pub enum UnlistRefused {
    /// The last load does not list the process.
    NotListed,
    /// The journal has reached its limit of entries or of bytes. It has this many.
    JournalFull { entries: u64, bytes: u64 },
    NoMemory,
}

impl UnlistRefused {
    ghost use Rattle.authority_core.specs.Refusals.{halt_of_unlist};

    /// Why the load was not added, and `None` exactly where the last one does not list the process.
    pub fn halt(self) -> Option<Halt>
        ensures halt { result ≡ halt_of_unlist self }
    {
        match self {
            UnlistRefused::NotListed => None,
            UnlistRefused::JournalFull { entries, bytes } => Some(Halt::Full(Fullness {
                entries,
                bytes,
            })),
            UnlistRefused::NoMemory => Some(Halt::NoMemory),
        }
    }
}

/// The authority on one thread. It is seen as its journal, which is legal, and its limits.
#[derive(Drop)]
pub struct Authority {
    alloc: Global,
    limits: Limits,
    history: History,
    /// The counted bytes of the journal.
    bytes: u64,
    /// The desk stands for the journal: it answers each event, and nothing else is kept of it. It has a
    /// box of its own, so that what drops an authority is proved to drop its tables once, and apart.
    desk: Box<Desk>,
}

impl Model for Authority {
    ghost use Rattle.authority_core.specs.Journal.{Journal};
    ghost use Rattle.authority_core.specs.Kept.{IsKept};

    ghost Value = { Journal };

    ghost view = { λ a. record { history = a.history; limits = a.limits } };

    ghost invariant = { λ a. IsKept a.history a.limits a.bytes a.desk.value };
}

impl Authority {
    ghost use Rattle.authority_model.specs.Entering.{AreAllowed, is_full};
    ghost use Rattle.authority_core.specs.Refusals.{IsStepRefused, IsLoadRefused, IsCollectRefused, IsUnlistRefused};

    /// An authority whose journal is empty.
    pub fn start(alloc: Global, limits: Limits) -> Result<Authority, NoMemory>
        requires limits { AreAllowed limits }
        ensures empty { IfOk result (λ authority. authority ≡ record { history = record { entries = []; loads = [] }; limits = limits }) }
    {
        Ok(Authority {
            alloc,
            limits,
            history: History {
                entries: List::new(alloc),
                loads: List::new(alloc),
            },
            bytes: 0,
            desk: Box::new(alloc, Desk::start(alloc)?)?,
        })
    }

    /// The journal. It is legal: each event was answered as the definitions say. And each yes in it
    /// is licensed at its place, by something for which polkit allows a yes.
    pub fn history(&self) -> &History
        ensures same { result.now ≡ self.now.history }
        ensures legal { IsLegal self.now.history }
        ensures licensed { AllLicensed (items_of self.now.history) }
    {
        &self.history
    }

    /// The entry at a place counted from 0, and `None` exactly past the end.
    pub fn entry(&self, place: u64) -> Option<&Entry>
        ensures entry { option_copied result ≡ slice_get self.now.history.entries place }
    {
        self.history.entries.get(place as usize)
    }

    /// Whether the journal takes no further entry: it has as many entries, or as many counted bytes,
    /// as its limits say.
    pub fn is_full(&self) -> bool
        ensures full { result ≡ is_full self.now.limits (items_of self.now.history) }
    {
        self.limits.entries <= self.history.entries.len() as u64 || self.limits.bytes <= self.bytes
    }

    /// Adds the entry of an event, and answers its place, counted from 0.
    ///
    /// The entry has the greatest moment handed in so far. Its outputs are the answers to the event
    /// after the journal so far.
    ///
    /// # Errors
    /// 1 `JournalFull` exactly where the journal has its limit of entries, or its counted bytes are at
    /// or above the limit of bytes; 2 `NoMemory`. Both leave the authority as it was.
    pub fn step(
        &mut self,
        caller: u32,
        moment: u64,
        salt: u128,
        event: Event,
    ) -> Result<u64, StepRefused>
        requires event { IsStepped event }
        requires moment { moment ≤ 2 ^ 62 }
        ensures place { IfOk result (λ place. place ≡ length self.old.history.entries) }
        ensures grows { OnOk result (Grows self.old.history self.new.history (event_given caller moment salt event)) }
        ensures entry { OnOk result (self.new.history.entries ≡ self.old.history.entries ++ (next (items_of self.old.history) (event_given caller moment salt event)).entry ∷ []) }
        ensures loads { OnOk result (self.new.history.loads ≡ self.old.history.loads) }

        ensures limits { self.new.limits ≡ self.old.limits }
        ensures err { OnErr result (self.new ≡ self.old) }
        ensures legal { IsLegal self.new.history }
        ensures within { OnOk result (is_full self.old.limits (items_of self.old.history) ≡ false) }
        ensures refused { IfErr result (IsStepRefused self.old event) }
    {
        if self.is_full() {
            return Err(StepRefused::JournalFull {
                entries: self.history.entries.len() as u64,
                bytes: self.bytes,
                event,
            });
        }
        let place = self.history.entries.len() as u64;
        match enter(
            self.alloc,
            &mut self.history.entries,
            self.desk.as_mut(),
            caller,
            moment,
            salt,
            event,
        ) {
            Ok(cost) => {
                self.bytes += cost;
                Ok(place)
            }
            Err(event) => Err(StepRefused::NoMemory { event }),
        }
    }

    /// How many outputs the journal has to a connection.
    pub fn sent_count(&self, caller: u32) -> u32
        ensures count { result ≡ sent (items_of self.now.history) caller }
    {
        self.desk.as_ref().peers().sent_count(caller)
    }

    /// The output that has this number among those to a connection, counted from 1. `None` exactly
    /// where the number is 0 or above `sent_count`.
    pub fn output_to(&self, caller: u32, number: u32) -> Option<&Output>
        ensures output { option_copied result ≡ numbered_output (items_of self.now.history) caller number }
    {
        output_to(&self.history, self.desk.as_ref().peers(), caller, number)
    }

    /// Whether a caller may collect the outputs to a connection: there is one that it has not collected,
    /// or the connection has departed. What one caller collects takes nothing from another.
    pub fn ready(&self, caller: u32, of: u32) -> bool
        ensures ready { result ≡ is_ready (items_of self.now.history) caller of }
    {
        let peers = self.desk.as_ref().peers();
        peers.collected(caller, of) < peers.sent_count(of) || peers.departed(of)
    }

    /// Adds the entry of a Collect, and answers the outputs to a connection that the caller has not
    /// collected, with the loads that they name. None are left exactly where the connection has
    /// departed and the caller has collected all.
    ///
    /// The entry has the greatest moment handed in so far and the salt 0. The time that it takes grows
    /// with what is answered, and not with the journal.
    ///
    /// # Errors
    /// 1 `JournalFull` as for `step`; 2 `NoMemory`. Both leave the authority as it was.
    pub fn collect(&mut self, caller: u32, of: u32) -> Result<Batch, CollectStepRefused>
        requires ready { is_ready (items_of self.old.history) caller of ≡ true }
        ensures batch { IfOk result (λ b. IsBatch (items_of self.old.history) caller of b.from b.outputs b.loads) }
        ensures grows { OnOk result (Grows self.old.history self.new.history (collect_given caller of)) }

        ensures limits { self.new.limits ≡ self.old.limits }
        ensures err { OnErr result (self.new ≡ self.old) }
        ensures legal { IsLegal self.new.history }
        ensures within { OnOk result (is_full self.old.limits (items_of self.old.history) ≡ false) }
        ensures refused { IfErr result (IsCollectRefused self.old) }
    {
        if self.is_full() {
            return Err(CollectStepRefused::JournalFull {
                entries: self.history.entries.len() as u64,
                bytes: self.bytes,
            });
        }
        let Ok(batch) = batch_of(
            self.alloc,
            &self.history,
            self.desk.as_ref().peers(),
            caller,
            of,
        ) else {
            return Err(CollectStepRefused::NoMemory);
        };
        match enter_collect(
            self.alloc,
            &mut self.history.entries,
            self.desk.as_mut(),
            caller,
            of,
        ) {
            Ok(cost) => {
                self.bytes += cost;
                Ok(batch)
            }
            Err(NoMemory) => Err(CollectStepRefused::NoMemory),
        }
    }

    /// Adds the entry of the next load, and answers its place, counted from 0.
    ///
    /// The entry has the greatest moment handed in so far and the salt 0.
    ///
    /// # Errors
    /// As for `step`.
    pub fn load(&mut self, caller: u32, moment: u64, loaded: Loaded) -> Result<u64, LoadStepRefused>
        requires moment { moment ≤ 2 ^ 62 }
        ensures place { IfOk result (λ place. place ≡ length self.old.history.entries) }
        ensures grows { OnOk result (Grows self.old.history self.new.history (load_given caller moment loaded)) }
        ensures entry { OnOk result (self.new.history.entries ≡ self.old.history.entries ++ (next (items_of self.old.history) (load_given caller moment loaded)).entry ∷ []) }
        ensures loads { OnOk result (self.new.history.loads ≡ self.old.history.loads ++ loaded ∷ []) }

        ensures limits { self.new.limits ≡ self.old.limits }
        ensures err { OnErr result (self.new ≡ self.old) }
        ensures legal { IsLegal self.new.history }
        ensures within { OnOk result (is_full self.old.limits (items_of self.old.history) ≡ false) }
        ensures refused { IfErr result (IsLoadRefused self.old loaded) }
    {
        if self.is_full() {
            return Err(LoadStepRefused::JournalFull {
                entries: self.history.entries.len() as u64,
                bytes: self.bytes,
                loaded,
            });
        }
        let place = self.history.entries.len() as u64;
        let cost_of_loaded = cost_of_load(&loaded);
        match enter_load(
            self.alloc,
            &mut self.history,
            self.desk.as_mut(),
            caller,
            moment,
            loaded,
        ) {
            Ok(cost) => {
                self.bytes += cost + cost_of_loaded;
                Ok(place)
            }
            Err(loaded) => Err(LoadStepRefused::NoMemory { loaded }),
        }
    }

    /// Adds the entry of a load that is the last one without a process, and answers its place, counted
    /// from 0. So what rests on the process ends, as where the root no longer lists it.
    ///
    /// No row of the new load has this pid and this start, and it has no faults. Its entry has the
    /// greatest moment handed in so far and the salt 0.
    ///
    /// # Errors
    /// 1 `NotListed` exactly where the last load has no such row; 2 `JournalFull` as for `step`; 3
    /// `NoMemory`. All leave the authority as it was.
    pub fn unlist(
        &mut self,
        caller: u32,
        moment: u64,
        pid: u32,
        start: u64,
    ) -> Result<u64, UnlistRefused>
        requires moment { moment ≤ 2 ^ 62 }
        ensures place { IfOk result (λ place. place ≡ length self.old.history.entries) }
        ensures grows { OnOk result (Grows self.old.history self.new.history (load_given caller moment (unlisted (loaded_of (items_of self.old.history)) pid start))) }
        ensures entry { OnOk result (self.new.history.entries ≡ self.old.history.entries ++ (next (items_of self.old.history) (load_given caller moment (unlisted (loaded_of (items_of self.old.history)) pid start))).entry ∷ []) }
        ensures loads { OnOk result (self.new.history.loads ≡ self.old.history.loads ++ unlisted (loaded_of (items_of self.old.history)) pid start ∷ []) }
        ensures listed { OnOk result (lists_process (loaded_of (items_of self.old.history)) pid start ≡ true) }

        ensures limits { self.new.limits ≡ self.old.limits }
        ensures err { OnErr result (self.new ≡ self.old) }
        ensures legal { IsLegal self.new.history }
        ensures within { OnOk result (is_full self.old.limits (items_of self.old.history) ≡ false) }
        ensures refused { IfErr result (IsUnlistRefused self.old pid start) }
    {
        let loaded = self.desk.as_ref().loaded();
        if loaded.world.process(pid, start).is_none() {
            return Err(UnlistRefused::NotListed);
        }
        let Ok(rest) = without_process(self.alloc, loaded, pid, start) else {
            return Err(UnlistRefused::NoMemory);
        };
        match self.load(caller, moment, rest) {
            Ok(place) => Ok(place),
            Err(
                LoadStepRefused::JournalFull {
                    entries,
                    bytes,
                    loaded: _,
                },
            ) => Err(UnlistRefused::JournalFull { entries, bytes }),
            Err(LoadStepRefused::NoMemory { loaded: _ }) => Err(UnlistRefused::NoMemory),
        }
    }

    /// What a check of a subject would be told without a challenge, at the later of this moment and
    /// the journal's greatest. `None` exactly where the action is unknown or nothing is known of
    /// the subject.
    pub fn decide(&self, moment: u64, subject: &Subject, id: &Text) -> Option<Decision>
        ensures decision { result ≡ option_map (told_decision (policy_of (items_of self.now.history))) (decision_on (items_of self.now.history) (kept (items_of self.now.history)) (max (last_moment (items_of self.now.history)) moment) subject.now id.now) }
    {
        let view = self.desk.as_ref().view();
        let facts = facts(view, subject)?;
        let latest = self.desk.as_ref().numbers().moment_at(moment);
        let decision = decision(view, &facts, latest, id)?;
        Some(decision.told(&view.loaded().policy))
    }

    /// The desk that stands for the journal. It takes no memory.
    pub fn desk(&self) -> &Desk
        ensures desk { IsDeskFor (items_of self.now.history) result.now }
    {
        self.desk.as_ref()
    }
}
