// The plain lists of a history.
ghost use Rattle.std.specs.Prelude.{◌≡◌, List, [], ◌∷◌, OnOk, IfOk};
ghost use Rattle.authority_model.specs.declared.journal.Item.{Item};
ghost use Rattle.plain_view.specs.Plain.{plain_seen};
ghost use Rattle.plain_lists.specs.Lists.{AreListsOf, AreNext, AreNextOf, lists_seen};

use crate::agents::carry_agents;
use crate::challenges::carry_challenges;
use crate::counts::carry_counts;
use crate::grants::carry_grants;
use crate::peers::carry_peers;
use crate::sent::carry_sent;
use authority_model::{Agent, Entry, GrantRow, Loaded, Pending, World};
use entry_changes::EntryChange;
use journal_view::ViewCounts;
use pk_types::NoMemory;
use plain_view::{PeerRow, PlainView, SentRow};
use std::alloc::Global;

/// What stands after the entries of a history, by plain lists.
#[derive(Drop)]
pub struct PlainLists {
    /// Each connection that ever connected.
    peers: Vec<PeerRow>,
    /// The live connections by rising number.
    live: Vec<u32>,
    /// How many outputs went to each connection.
    sent: Vec<SentRow>,
    /// The agents in force, the oldest first.
    agents: Vec<Agent>,
    /// The temporary authorizations that nothing ended, by rising number.
    grants: Vec<GrantRow>,
    /// The pending challenges in the order of opening.
    challenges: Vec<Pending>,
    counts: ViewCounts,
}

impl PlainLists {
    /// The lists of the empty history. It takes no memory.
    pub fn start(alloc: Global) -> PlainLists
        ensures empty { AreListsOf [] result }
    {
        PlainLists {
            peers: Vec::new(alloc),
            live: Vec::new(alloc),
            sent: Vec::new(alloc),
            agents: Vec::new(alloc),
            grants: Vec::new(alloc),
            challenges: Vec::new(alloc),
            counts: ViewCounts {
                entries: 0,
                loads: 0,
                opened: 0,
                made: 0,
                last_moment: 0,
            },
        }
    }

    /// What is counted.
    pub fn counts(&self) -> ViewCounts
        ensures counts { result ≡ self.now.counts }
    {
        self.counts
    }

    /// The lists as a view, with this load in force.
    ///
    /// # Errors
    /// `NoMemory`, where 32 bits do not count the challenges.
    pub fn view<'a>(&'a self, loaded: &'a Loaded) -> Result<PlainView<'a>, NoMemory>
        ensures seen { IfOk result (λ view. plain_seen view ≡ lists_seen self.now loaded.now) }
    {
        if self.challenges.len() > u32::MAX as usize {
            return Err(NoMemory);
        }
        Ok(PlainView {
            peers: self.peers.as_slice(),
            live: self.live.as_slice(),
            sent: self.sent.as_slice(),
            agents: self.agents.as_slice(),
            grants: self.grants.as_slice(),
            challenges: self.challenges.as_slice(),
            loaded,
            counts: self.counts,
        })
    }

    /// Carries the lists on by an entry with this change, in the world in force after it.
    ///
    /// # Errors
    /// `NoMemory`, also where a count is at its greatest: the lists are of no history then.
    pub fn carry(
        &mut self,
        entry: &Entry,
        world: &World,
        change: EntryChange,
    ) -> Result<(), NoMemory>
        requires next { AreNext entry.now world.now change self.old }
        ensures stands { (past : List Item) (i : Item) → AreNextOf entry.now world.now change self.old past i → OnOk result (AreListsOf (i ∷ past) self.new) }
    {
        carry_counts(&mut self.counts, entry, &change)?;
        carry_peers(&mut self.peers, &mut self.live, entry, world)?;
        carry_sent(&mut self.sent, entry.outputs.as_slice())?;
        let EntryChange {
            agent,
            grant,
            challenge,
        } = change;
        carry_agents(&mut self.agents, entry, world, agent)?;
        carry_grants(&mut self.grants, entry, world, grant)?;
        carry_challenges(&mut self.challenges, challenge)
    }
}
