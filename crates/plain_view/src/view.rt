// The view by plain lists.
ghost use Rattle.std.specs.Prelude.{◌<◌, ◌^◌, length};

use crate::among::{agent_of, count_of_user, grant_named, named, sent_to, serving, with_cookie};
use crate::rows::{PeerRow, SentRow, peer_of, sent_count};
use authority_model::{
    Action, Agent, GrantRow, KeyRef, Loaded, Pending, Process, RuleSource, Session,
};
use entry_changes::Peer;
use journal_view::{JournalView, ViewCounts};
use pk_types::{Category, Implicit, Text};
use policy_decide::implicit;

/// A history by plain lists. There are fewer than 2^32 challenges.
#[derive(Clone, Copy)]
pub struct PlainView<'a> {
    /// Each connection that ever connected.
    pub peers: &'a [PeerRow],
    /// The live connections by rising number.
    pub live: &'a [u32],
    /// How many outputs went to each connection; one without a row got none.
    pub sent: &'a [SentRow],
    /// The agents in force, the oldest first.
    pub agents: &'a [Agent],
    /// The temporary authorizations that nothing ended, by rising number.
    pub grants: &'a [GrantRow],
    /// The pending challenges in the order of opening.
    pub challenges: &'a [Pending],
    /// The load in force.
    pub loaded: &'a Loaded,
    pub counts: ViewCounts,
    ghost few: { length challenges.now < 2 ^ 32 },
}

impl JournalView for PlainView<'_> {
    ghost use Rattle.plain_view.specs.Plain.{plain_seen};

    ghost seen = { plain_seen };

    fn peer(&self, caller: u32) -> Option<Peer> {
        peer_of(self.peers, caller)
    }

    fn live(&self, i: usize) -> Option<u32> {
        self.live.get(i).copied()
    }

    fn live_len(&self) -> usize {
        self.live.len()
    }

    fn sent_count(&self, caller: u32) -> u32 {
        sent_count(self.sent, caller)
    }

    fn agent_of(&self, key: KeyRef) -> Option<&Agent> {
        agent_of(self.agents, key)
    }

    fn grant(&self, key: KeyRef, action: &Text, moment: u64) -> Option<&GrantRow> {
        serving(self.grants, key, action, moment)
    }

    fn grant_named(&self, id: &Text) -> Option<&GrantRow> {
        grant_named(self.grants, id)
    }

    fn grants_len(&self) -> usize {
        self.grants.len()
    }

    fn nth_grant(&self, i: usize) -> Option<&GrantRow> {
        self.grants.get(i)
    }

    fn of_cookie(&self, cookie: &Text) -> Option<&Pending> {
        with_cookie(self.challenges, cookie)
    }

    fn of_cancel(&self, caller: u32, id: &Text) -> Option<&Pending> {
        named(self.challenges, caller, id)
    }

    fn of_serial(&self, agent: u32, serial: u32) -> Option<&Pending> {
        sent_to(self.challenges, agent, serial)
    }

    fn pending_len(&self) -> usize {
        self.challenges.len()
    }

    fn nth(&self, i: usize) -> Option<&Pending> {
        self.challenges.get(i)
    }

    fn count_of_uid(&self, uid: u32) -> u32 {
        count_of_user(self.challenges, uid) as u32
    }

    fn loaded(&self) -> &Loaded {
        self.loaded
    }

    fn process(&self, pid: u32, start: u64) -> Option<&Process> {
        self.loaded.world.process(pid, start)
    }

    fn session(&self, id: &Text) -> Option<&Session> {
        self.loaded.world.session(id)
    }

    fn action(&self, id: &Text) -> Option<&Action> {
        self.loaded.policy.action(id)
    }

    fn implicit(
        &self,
        uid: u32,
        category: Category,
        action: &Text,
    ) -> Option<(Implicit, RuleSource)> {
        implicit(
            &self.loaded.policy,
            &self.loaded.world,
            uid,
            category,
            action,
        )
    }

    fn counts(&self) -> ViewCounts {
        self.counts
    }
}
