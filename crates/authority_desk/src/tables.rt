// The four tables, carried on together or not at all.
ghost use Rattle.std.specs.Prelude.{◌≡◌, [], IfOk, OnErr, OnOk};
ghost use Rattle.authority_desk.specs.Stored.{AreIdle, AreReady, AreStaged, AreTablesOf, TablesStandNext, told};

use agent_registry::AgentRegistry;
use authority_model::{Entry, World};
use challenge_book::ChallengeBook;
use entry_changes::EntryChange;
use grant_store::GrantStore;
use peer_book::PeerBook;
use pk_types::NoMemory;
use std::alloc::Global;

/// Who is connected, which agents are in force, which temporary authorizations are kept, and which
/// challenges are pending.
#[derive(Drop)]
pub struct Tables {
    pub peers: PeerBook,
    pub agents: AgentRegistry,
    pub grants: GrantStore,
    pub challenges: ChallengeBook,
}

impl Tables {
    /// The tables of the empty history, with nothing staged.
    pub fn new(alloc: Global) -> Result<Tables, NoMemory>
        ensures empty { IfOk result (λ t. AreTablesOf [] (told t)) }
        ensures idle { IfOk result AreIdle }
    {
        Ok(Tables {
            peers: PeerBook::new(alloc)?,
            agents: AgentRegistry::new(alloc)?,
            grants: GrantStore::new(alloc)?,
            challenges: ChallengeBook::new(alloc)?,
        })
    }

    /// Drops what is staged. It takes no memory.
    pub fn unstage(&mut self)
        ensures same { told self.new ≡ told self.old }
        ensures idle { AreIdle self.new }
    {
        self.peers.unstage();
        self.agents.unstage();
        self.grants.unstage();
        self.challenges.unstage();
    }

    /// Stages an entry with its change table by table, up to the first that refuses.
    fn stage_each(&mut self, entry: &Entry, change: EntryChange) -> Result<(), NoMemory>
        ensures same { told self.new ≡ told self.old }
        ensures ok { OnOk result (AreStaged entry.now change self.new) }
    {
        let EntryChange {
            agent,
            grant,
            challenge,
        } = change;
        self.peers.stage(entry)?;
        self.agents.stage(entry, agent)?;
        self.grants.stage(entry, grant)?;
        self.challenges.stage(entry, challenge)
    }

    /// Takes all memory that an entry with this change needs, in each of the tables. What they tell
    /// stays. After a refusal nothing is staged in any.
    pub fn stage(&mut self, entry: &Entry, change: EntryChange) -> Result<(), NoMemory>
        ensures same { told self.new ≡ told self.old }
        ensures ok { OnOk result (AreStaged entry.now change self.new) }
        ensures err { OnErr result (AreIdle self.new) }
    {
        match self.stage_each(entry, change) {
            Ok(()) => Ok(()),
            Err(NoMemory) => {
                self.unstage();
                Err(NoMemory)
            }
        }
    }

    /// Carries the tables on by the entry that is staged, in the world in force after it. It takes no
    /// memory.
    pub fn apply_entry(&mut self, entry: &Entry, world: &World)
        requires ready { AreReady entry.now world.now self.old }
        ensures stands { TablesStandNext entry.now world.now self.old self.new }
        ensures idle { AreIdle self.new }
    {
        self.peers.apply_entry(entry, world);
        self.agents.apply_entry(entry, world);
        self.grants.apply_entry(entry, world);
        self.challenges.apply_entry(entry, world);
    }
}
