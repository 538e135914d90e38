// What answering looks things up in.
ghost use Rattle.std.specs.Prelude.{◌≡◌, ◌<◌, ◌^◌, [], None, Some, IfOk, IfErr, IfSome, OnErr, OnOk};
ghost use Rattle.authority_desk.specs.Counts.{counts_seen};
ghost use Rattle.authority_desk.specs.Numbers.{numbers_after};
ghost use Rattle.authority_desk.specs.Seen.{IsDeskFor, IsNext, StandsNext, desk_seen};
ghost use Rattle.authority_desk.specs.Stored.{AreIdle};
ghost use Rattle.authority_model.specs.Items.{empty_loaded};

use crate::counts::{DeskCounts, in_word};
use crate::numbers::DeskNumbers;
use crate::tables::Tables;
use authority_model::{
    Action, Agent, Entry, GrantRow, KeyRef, Loaded, Pending, Process, RuleSource, Session,
};
use entry_changes::{EntryChange, Peer};
use journal_view::{JournalView, ViewCounts};
use pk_types::{Category, Implicit, NoMemory, Text};
use rulebook::Rulebook;
use std::alloc::Global;

/// How many entries a desk counts at most: 2^62.
pub const MAX_DESK_ENTRIES: u64 = 4_611_686_018_427_387_904;

/// What answering looks things up in: the tables, the load in force with its indexes, and what is
/// counted.
#[derive(Drop)]
pub struct DeskView {
    pub tables: Tables,
    pub loaded: Rulebook,
    pub numbers: DeskNumbers,
}

impl DeskView {
    /// What the empty history has: empty tables, load 0, and nothing counted.
    pub fn start(alloc: Global) -> Result<DeskView, NoMemory>
        ensures empty { IfOk result (λ v. IsDeskFor [] (desk_seen v)) }
        ensures idle { IfOk result (λ v. AreIdle v.tables) }
        ensures loaded { IfOk result (λ v. v.loaded ≡ empty_loaded) }
    {
        Ok(DeskView {
            tables: Tables::new(alloc)?,
            loaded: Rulebook::empty(alloc),
            numbers: DeskNumbers::start(),
        })
    }

    /// How many of each kind there are.
    pub(crate) fn desk_counts(&self) -> DeskCounts
        ensures seen { result ≡ counts_seen (desk_seen self.now) }
    {
        let grants = self.tables.grants.live_count(self.numbers.last_moment);
        DeskCounts {
            live: in_word(self.tables.peers.live_len()),
            agents: self.tables.agents.count(),
            pending: in_word(self.tables.challenges.len()),
            grants: in_word(grants),
            entries: self.tables.peers.entries(),
            outputs: self.numbers.outputs,
        }
    }

    /// What is counted with an entry more that changes this. `None` where there are `MAX_DESK_ENTRIES`
    /// entries, and where a number is too great.
    fn counted(&self, entry: &Entry, change: &EntryChange) -> Option<DeskNumbers>
        ensures numbers { IfSome result (λ n. n ≡ numbers_after entry.now change.now self.now.numbers) }
        ensures short { IfSome result (λ _. self.now.tables.peers.entries < 2 ^ 62) }
    {
        if self.tables.peers.entries() >= MAX_DESK_ENTRIES {
            return None;
        }
        self.numbers.after(entry, change)
    }

    /// Carries everything on by an entry with this change that is not a load.
    ///
    /// # Errors
    /// `NoMemory`, also where a count is at its greatest: all is as it was.
    pub fn enter(&mut self, entry: &Entry, change: EntryChange) -> Result<(), NoMemory>
        requires idle { AreIdle self.old.tables }
        requires next { IsNext entry.now None change (desk_seen self.old) }
        ensures stands { StandsNext entry.now None change (desk_seen self.old) (desk_seen self.new) result }
        ensures loaded { self.new.loaded ≡ self.old.loaded }
        ensures err { OnErr result (desk_seen self.new ≡ desk_seen self.old) }
        ensures idle { AreIdle self.new.tables }
    {
        let Some(numbers) = self.counted(entry, &change) else {
            return Err(NoMemory);
        };
        self.tables.stage(entry, change)?;
        self.tables.apply_entry(entry, &self.loaded.loaded().world);
        self.numbers = numbers;
        Ok(())
    }

    /// Carries everything on by the entry of a load with this change. A refusal gives the load back.
    ///
    /// # Errors
    /// The load, where there is no memory or a count is at its greatest: all is as it was.
    pub fn enter_load(
        &mut self,
        entry: &Entry,
        change: EntryChange,
        loaded: Rulebook,
    ) -> Result<(), Rulebook>
        requires idle { AreIdle self.old.tables }
        requires next { IsNext entry.now (Some loaded) change (desk_seen self.old) }
        ensures stands { StandsNext entry.now (Some loaded) change (desk_seen self.old) (desk_seen self.new) result }
        ensures loaded { OnOk result (self.new.loaded ≡ loaded) }
        ensures err { OnErr result (desk_seen self.new ≡ desk_seen self.old) }
        ensures back { IfErr result (λ back. back ≡ loaded) }
        ensures idle { AreIdle self.new.tables }
    {
        let Some(numbers) = self.counted(entry, &change) else {
            return Err(loaded);
        };
        match self.tables.stage(entry, change) {
            Ok(()) => {}
            Err(NoMemory) => return Err(loaded),
        }
        self.tables.apply_entry(entry, &loaded.loaded().world);
        self.loaded = loaded;
        self.numbers = numbers;
        Ok(())
    }
}

impl JournalView for DeskView {
    ghost use Rattle.authority_desk.specs.Seen.{desk_seen, seen_of};

    ghost seen = { λ v. seen_of (desk_seen v) };

    fn peer(&self, caller: u32) -> Option<Peer> {
        self.tables.peers.peer(caller)
    }

    fn live(&self, i: usize) -> Option<u32> {
        self.tables.peers.live(i)
    }

    fn live_len(&self) -> usize {
        self.tables.peers.live_len()
    }

    fn sent_count(&self, caller: u32) -> u32 {
        self.tables.peers.sent_count(caller)
    }

    fn agent_of(&self, key: KeyRef) -> Option<&Agent> {
        self.tables.agents.of_key(key)
    }

    fn grant(&self, key: KeyRef, action: &Text, moment: u64) -> Option<&GrantRow> {
        self.tables.grants.live_row(key, action, moment)
    }

    fn grant_named(&self, id: &Text) -> Option<&GrantRow> {
        self.tables.grants.of_text(id)
    }

    fn grants_len(&self) -> usize {
        self.tables.grants.len()
    }

    fn nth_grant(&self, i: usize) -> Option<&GrantRow> {
        self.tables.grants.nth(i)
    }

    fn of_cookie(&self, cookie: &Text) -> Option<&Pending> {
        self.tables.challenges.of_cookie(cookie)
    }

    fn of_cancel(&self, caller: u32, id: &Text) -> Option<&Pending> {
        self.tables.challenges.of_cancel(caller, id)
    }

    fn of_serial(&self, agent: u32, serial: u32) -> Option<&Pending> {
        self.tables.challenges.of_serial(agent, serial)
    }

    fn pending_len(&self) -> usize {
        self.tables.challenges.len()
    }

    fn nth(&self, i: usize) -> Option<&Pending> {
        self.tables.challenges.nth(i)
    }

    fn count_of_uid(&self, uid: u32) -> u32 {
        self.tables.challenges.count_of_uid(uid)
    }

    fn loaded(&self) -> &Loaded {
        self.loaded.loaded()
    }

    fn process(&self, pid: u32, start: u64) -> Option<&Process> {
        self.loaded.process(pid, start)
    }

    fn session(&self, id: &Text) -> Option<&Session> {
        self.loaded.session(id)
    }

    fn action(&self, id: &Text) -> Option<&Action> {
        self.loaded.action(id)
    }

    fn implicit(
        &self,
        uid: u32,
        category: Category,
        action: &Text,
    ) -> Option<(Implicit, RuleSource)> {
        let found = self.loaded.implicit(uid, category, action)?;
        Some((found.value, found.source))
    }

    fn counts(&self) -> ViewCounts {
        ViewCounts {
            entries: self.tables.peers.entries(),
            loads: self.numbers.loads,
            opened: self.numbers.opened,
            made: self.numbers.made,
            last_moment: self.numbers.last_moment,
        }
    }
}
