// The desk: the tables of some legal history.
ghost use Rattle.std.specs.Prelude.{◌≡◌, ◌+◌, ◌<◌, ◌≤◌, ◌^◌, [], IfErr, IfOk, IfSome, OnErr, OnOk, List, None, Some, length};
ghost use Rattle.authority_model.specs.declared.journal.Item.{Item};
ghost use Rattle.authority_laws.specs.Batches.{collect_given};
ghost use Rattle.authority_model.specs.Given.{IsProperEvent, IsStepped, event_given, load_given};
ghost use Rattle.authority_model.specs.Small.{IsShort};
ghost use Rattle.journal_view.specs.Seen.{IsSeenOf};
ghost use Rattle.authority_desk.specs.declared.desk.DeskLoadRefused.TheVariants as load_refused;
ghost use Rattle.authority_desk.specs.declared.desk.DeskRefused.TheVariants as refused;
ghost use Rattle.authority_desk.specs.Counts.{counts_of, counts_seen};
ghost use Rattle.authority_desk.specs.Seen.{CarriesOn, IsAnswered, IsDeskFor, IsNext, StandsNext, desk_seen, seen_of};

use crate::counts::DeskCounts;
use crate::numbers::DeskNumbers;
use crate::view::DeskView;
use agent_registry::AgentRegistry;
use authority_model::{Entry, Event, Loaded};
use challenge_book::ChallengeBook;
use entry_changes::EntryChange;
use event_answers::{Answered, Occasion, answer, answer_load};
use grant_store::GrantStore;
use peer_book::PeerBook;
use pk_types::NoMemory;
use rulebook::Rulebook;
use std::alloc::Global;
use std::marker::Model;

/// Why a desk makes no entry of an event. Nothing has changed.
#[derive(Drop)]
pub enum DeskRefused {
    /// There is no memory for the entry, or a count is at its greatest. The event comes back.
    NoMemory { event: Event },
}

/// Why a desk makes no entry of a load. Nothing has changed, and the load is not in force.
#[derive(Drop)]
pub enum DeskLoadRefused {
    /// There is no memory for the entry, or a count is at its greatest. The load comes back.
    NoMemory { loaded: Loaded },
}

/// The authority without its journal. It always stands for some legal history of entries.
#[derive(Drop)]
pub struct Desk {
    alloc: Global,
    lookups: DeskView,
}

impl Model for Desk {
    ghost use Rattle.authority_desk.specs.Seen.{DeskSeen, StandsForOne, desk_seen};
    ghost use Rattle.authority_desk.specs.Stored.{AreIdle};

    ghost Value = { DeskSeen };

    ghost view = { λ d. desk_seen d.lookups };

    ghost invariant = { λ d. AreIdle d.lookups.tables × StandsForOne (desk_seen d.lookups) };
}

impl Desk {
    /// The desk of the empty history.
    pub fn start(alloc: Global) -> Result<Desk, NoMemory>
        ensures empty { IfOk result (IsDeskFor []) }
    {
        Ok(Desk {
            alloc,
            lookups: DeskView::start(alloc)?,
        })
    }

    /// What answering looks things up in. It is a view of each history that the desk stands for. It
    /// takes no memory.
    pub fn view(&self) -> &DeskView
        ensures same { desk_seen result.now ≡ self.now }
        ensures view { (past : List Item) → IsDeskFor past self.now → IsSeenOf past (seen_of (desk_seen result.now)) }
        ensures actions { IsShort result.now.loaded.policy.actions }
        ensures rules { IsShort result.now.loaded.policy.entries }
    {
        &self.lookups
    }

    /// The load in force: the last one, or load 0. It takes no memory.
    pub fn loaded(&self) -> &Loaded
        ensures loaded { result.now ≡ self.now.loaded }
    {
        self.lookups.loaded.loaded()
    }

    /// What is counted.
    pub fn numbers(&self) -> DeskNumbers
        ensures numbers { result ≡ self.now.numbers }
    {
        self.lookups.numbers
    }

    /// How many of each kind there are, and how many entries and outputs were made. It takes no memory.
    ///
    /// A number that 32 bits do not hold is told as their greatest; none is that great before there are
    /// 2^32 entries.
    pub fn counts(&self) -> DeskCounts
        ensures seen { result ≡ counts_seen self.now }
        ensures counts { (past : List Item) → IsDeskFor past self.now → length past < 2 ^ 32 → result ≡ counts_of past }
    {
        self.lookups.desk_counts()
    }

    /// The connections and the outputs to each. It takes no memory.
    pub fn peers(&self) -> &PeerBook
        ensures peers { result.now ≡ self.now.peers }
    {
        &self.lookups.tables.peers
    }

    /// The authentication agents in force. It takes no memory.
    pub fn agents(&self) -> &AgentRegistry
        ensures agents { result.now ≡ record { items = self.now.agents; staged = None } }
    {
        &self.lookups.tables.agents
    }

    /// The temporary authorizations that nothing ended. It takes no memory.
    pub fn grants(&self) -> &GrantStore
        ensures grants { result.now ≡ record { items = self.now.grants; staged = None } }
    {
        &self.lookups.tables.grants
    }

    /// The pending challenges. It takes no memory.
    pub fn challenges(&self) -> &ChallengeBook
        ensures challenges { result.now ≡ record { items = self.now.challenges; staged = None } }
    {
        &self.lookups.tables.challenges
    }

    /// Carries the desk on by an entry with this change that is not a load.
    fn append(&mut self, entry: Entry, change: EntryChange) -> Result<Entry, DeskRefused>
        requires next { IsNext entry None change self.old }
        ensures entry { IfOk result (λ e. e ≡ entry) }
        ensures stands { StandsNext entry None change self.old self.new result }
        ensures err { OnErr result (self.new ≡ self.old) }
        ensures back { IfErr result (λ r. r ≡ refused.NoMemory entry.event) }
    {
        match self.lookups.enter(&entry, change) {
            Ok(()) => Ok(entry),
            Err(NoMemory) => Err(DeskRefused::NoMemory { event: entry.event }),
        }
    }

    /// Carries the desk on by the entry of a load with this change.
    fn append_load(
        &mut self,
        entry: Entry,
        change: EntryChange,
        loaded: Rulebook,
    ) -> Result<Entry, DeskLoadRefused>
        requires actions { IsShort loaded.policy.actions }
        requires rules { IsShort loaded.policy.entries }
        requires next { IsNext entry (Some loaded) change self.old }
        ensures entry { IfOk result (λ e. e ≡ entry) }
        ensures stands { StandsNext entry (Some loaded) change self.old self.new result }
        ensures err { OnErr result (self.new ≡ self.old) }
        ensures back { IfErr result (λ r. r ≡ load_refused.NoMemory loaded) }
    {
        match self.lookups.enter_load(&entry, change, loaded) {
            Ok(()) => Ok(entry),
            Err(loaded) => Err(DeskLoadRefused::NoMemory {
                loaded: loaded.into_loaded(),
            }),
        }
    }

    /// Answers an event that is not a load, and carries the desk on by its entry, which has the later of
    /// this moment and the desk's.
    fn answer_event(
        &mut self,
        caller: u32,
        moment: u64,
        salt: u128,
        event: Event,
    ) -> Result<Entry, DeskRefused>
        requires event { IsProperEvent (event_given caller moment salt event) event }
        requires moment { moment ≤ 2 ^ 62 }
        ensures entry { IsAnswered (event_given caller moment salt event) self.old result }
        ensures stands { CarriesOn (event_given caller moment salt event) self.old self.new result }
        ensures err { OnErr result (self.new ≡ self.old) }
        ensures back { IfErr result (λ r. r ≡ refused.NoMemory event) }
    {
        let moment = self.lookups.numbers.moment_at(moment);
        let answered = answer(
            self.alloc,
            &self.lookups,
            caller,
            Occasion { moment, salt },
            &event,
        );
        let Answered { outputs, change } = match answered {
            Ok(answered) => answered,
            Err(NoMemory) => return Err(DeskRefused::NoMemory { event }),
        };
        let entry = Entry {
            caller,
            moment,
            salt,
            event,
            outputs,
        };
        self.append(entry, change)
    }

    /// Answers an event, and carries the desk on by its entry.
    ///
    /// The entry has the greatest moment handed in so far, in seconds. Its outputs are the answers to
    /// the event after each history that the desk stands for, and the desk then stands for that
    /// history with the entry.
    ///
    /// # Errors
    /// `DeskRefused::NoMemory`, also where a count is at its greatest: the desk is as it was.
    pub fn step(
        &mut self,
        caller: u32,
        moment: u64,
        salt: u128,
        event: Event,
    ) -> Result<Entry, DeskRefused>
        requires event { IsStepped event }
        requires moment { moment ≤ 2 ^ 62 }
        ensures entry { IsAnswered (event_given caller moment salt event) self.old result }
        ensures stands { CarriesOn (event_given caller moment salt event) self.old self.new result }
        ensures err { OnErr result (self.new ≡ self.old) }
        ensures back { IfErr result (λ r. r ≡ refused.NoMemory event) }
    {
        self.answer_event(caller, moment, salt, event)
    }

    /// Carries the desk on by the entry of a Collect, by which a caller takes the outputs to a
    /// connection. The entry has the moment of the one before it and the salt 0.
    ///
    /// # Errors
    /// `NoMemory`, also where a count is at its greatest: the desk is as it was.
    pub fn collect(&mut self, caller: u32, of: u32) -> Result<Entry, NoMemory>
        ensures entry { IsAnswered (collect_given caller of) self.old result }
        ensures stands { CarriesOn (collect_given caller of) self.old self.new result }
        ensures err { OnErr result (self.new ≡ self.old) }
    {
        match self.answer_event(caller, 0, 0, Event::Collect { of }) {
            Ok(entry) => Ok(entry),
            Err(DeskRefused::NoMemory { .. }) => Err(NoMemory),
        }
    }

    /// The number of the next load, where it and the places in its policy fit in 32 bits, as they do
    /// in any memory.
    fn next_load(&self, loaded: &Loaded) -> Option<u32>
        ensures number { IfSome result (λ n. n ≡ self.now.numbers.loads + 1) }
        ensures actions { IfSome result (λ _. IsShort loaded.now.policy.actions) }
        ensures rules { IfSome result (λ _. IsShort loaded.now.policy.entries) }
    {
        let _actions = u32::try_from(loaded.policy.actions.len()).ok()?;
        let _rules = u32::try_from(loaded.policy.entries.len()).ok()?;
        self.lookups.numbers.loads.checked_add(1)
    }

    /// Answers a load, puts it in force, and carries the desk on by its entry. The entry has the
    /// greatest moment handed in so far, the number of the next load, and the salt 0.
    ///
    /// # Errors
    /// `DeskLoadRefused::NoMemory`, also where a count is at its greatest: the desk is as it was.
    pub fn load(
        &mut self,
        caller: u32,
        moment: u64,
        loaded: Loaded,
    ) -> Result<Entry, DeskLoadRefused>
        requires moment { moment ≤ 2 ^ 62 }
        ensures entry { IsAnswered (load_given caller moment loaded) self.old result }
        ensures stands { CarriesOn (load_given caller moment loaded) self.old self.new result }
        ensures err { OnErr result (self.new ≡ self.old) }
        ensures back { IfErr result (λ r. r ≡ load_refused.NoMemory loaded) }
    {
        let Some(load) = self.next_load(&loaded) else {
            return Err(DeskLoadRefused::NoMemory { loaded });
        };
        let indexed = match Rulebook::of(self.alloc, loaded) {
            Ok(indexed) => indexed,
            Err((NoMemory, loaded)) => return Err(DeskLoadRefused::NoMemory { loaded }),
        };
        let moment = self.lookups.numbers.moment_at(moment);
        let world = &indexed.loaded().world;
        let Answered { outputs, change } = match answer_load(self.alloc, &self.lookups, world) {
            Ok(answered) => answered,
            Err(NoMemory) => {
                return Err(DeskLoadRefused::NoMemory {
                    loaded: indexed.into_loaded(),
                });
            }
        };
        let entry = Entry {
            caller,
            moment,
            salt: 0,
            event: Event::Load { load },
            outputs,
        };
        self.append_load(entry, change, indexed)
    }
}
