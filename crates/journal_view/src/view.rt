// What is looked up of a history.
use crate::counts::ViewCounts;
use authority_model::{
    Action, Agent, GrantRow, KeyRef, Loaded, Pending, Process, RuleSource, Session,
};
use entry_changes::Peer;
use pk_types::{Category, Implicit, Text};

/// What is looked up of a history. No look-up takes memory.
///
/// A connection is named by its number.
pub trait JournalView {
    ghost use Rattle.std.specs.Prelude.{◌≡◌, filter, find, length, slice_get};
    ghost use Rattle.std.specs.Option.{option_copied};
    ghost use Rattle.authority_model.specs.Agents.{agent_of as agent_among};
    ghost use Rattle.entry_changes.specs.Finding.{is_of_user, is_sent, named};
    ghost use Rattle.entry_changes.specs.Changes.{grant_named as grant_among};
    ghost use Rattle.entry_changes.specs.Finding.{with_cookie};
    ghost use Rattle.authority_model.specs.Deciding.{serves};
    ghost use Rattle.authority_model.specs.Keys.{key_seen};
    ghost use Rattle.authority_model.specs.Rules.{action_of, implicit as implicit_by};
    ghost use Rattle.authority_model.specs.Small.{IsShort};
    ghost use Rattle.authority_model.specs.Worlds.{process_row, session_row};
    ghost use Rattle.journal_view.specs.Seen.{Seen};

    // What it tells. Whose history this is, a caller says by IsSeenOf.
    ghost seen: { Self → Seen };

    /// What is known of a connection; `None` exactly where it never connected.
    fn peer(&self, caller: u32) -> Option<Peer>
        ensures row { result ≡ (seen self.now).peer caller };

    /// The live connection at a place, counted from 0, among them by rising number.
    fn live(&self, i: usize) -> Option<u32>
        ensures number { result ≡ slice_get (seen self.now).live i };

    /// How many connections are live.
    fn live_len(&self) -> usize
        ensures length { result ≡ length (seen self.now).live };

    /// How many outputs went to a connection.
    fn sent_count(&self, caller: u32) -> u32
        ensures count { result ≡ (seen self.now).sent caller };

    /// The registration of a key that is in force.
    fn agent_of(&self, key: KeyRef) -> Option<&Agent>
        ensures row { option_copied result ≡ agent_among (key_seen key.entry) (seen self.now).agents };

    /// The least temporary authorization that is live for a key and an action at a moment.
    fn grant(&self, key: KeyRef, action: &Text, moment: u64) -> Option<&GrantRow>
        ensures least { option_copied result ≡ find (serves (key_seen key.entry) action.now moment) (seen self.now).grants };

    /// The temporary authorization with this text of its number that nothing ended; it may have
    /// expired.
    fn grant_named(&self, id: &Text) -> Option<&GrantRow>
        ensures row { option_copied result ≡ grant_among id.now (seen self.now).grants };

    /// How many temporary authorizations nothing ended; some of them may have expired.
    fn grants_len(&self) -> usize
        ensures length { result ≡ length (seen self.now).grants };

    /// The one of these at a place, counted from 0, by rising number.
    fn nth_grant(&self, i: usize) -> Option<&GrantRow>
        ensures row { option_copied result ≡ slice_get (seen self.now).grants i };

    /// The pending challenge with this text of its cookie.
    fn of_cookie(&self, cookie: &Text) -> Option<&Pending>
        ensures row { option_copied result ≡ with_cookie cookie.now (seen self.now).challenges };

    /// The pending check of a connection with this cancellation id; `None` for an empty id.
    fn of_cancel(&self, caller: u32, id: &Text) -> Option<&Pending>
        ensures row { option_copied result ≡ named caller id.now (seen self.now).challenges };

    /// The pending challenge that was sent to this connection with this serial.
    fn of_serial(&self, agent: u32, serial: u32) -> Option<&Pending>
        ensures row { option_copied result ≡ find (is_sent agent serial) (seen self.now).challenges };

    /// How many challenges are pending.
    fn pending_len(&self) -> usize
        ensures length { result ≡ length (seen self.now).challenges };

    /// The pending challenge at a place, counted from 0, in the order of opening.
    fn nth(&self, i: usize) -> Option<&Pending>
        ensures row { option_copied result ≡ slice_get (seen self.now).challenges i };

    /// How many pending challenges are of checks of a user.
    fn count_of_uid(&self, uid: u32) -> u32
        ensures count { result ≡ length (filter (is_of_user uid) (seen self.now).challenges) };

    /// The load in force.
    fn loaded(&self) -> &Loaded
        ensures same { result.now ≡ (seen self.now).loaded };

    /// The process with this pid and start in the world in force: its first row.
    fn process(&self, pid: u32, start: u64) -> Option<&Process>
        ensures first { option_copied result ≡ process_row (seen self.now).loaded.world pid start };

    /// The session with this id in the world in force: its first row.
    fn session(&self, id: &Text) -> Option<&Session>
        ensures first { option_copied result ≡ session_row (seen self.now).loaded.world id.now };

    /// The action of an id in the policy in force: the first that has it.
    fn action(&self, id: &Text) -> Option<&Action>
        ensures first { option_copied result ≡ action_of (seen self.now).loaded.policy id.now };

    /// The implicit value of an action for a user in a category, and what gave it. The answer is
    /// `None` exactly where the policy in force has no action of this id.
    fn implicit(
        &self,
        uid: u32,
        category: Category,
        action: &Text,
    ) -> Option<(Implicit, RuleSource)>
        requires rules { IsShort (seen self.now).loaded.policy.entries }
        ensures value { result ≡ implicit_by (seen self.now).loaded.policy (seen self.now).loaded.world uid category action.now };

    /// What is counted.
    fn counts(&self) -> ViewCounts
        ensures counts { result ≡ (seen self.now).counts };
}
