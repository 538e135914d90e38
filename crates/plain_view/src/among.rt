// Look-ups among the rows of a list.
ghost use Rattle.std.specs.Prelude.{◌≡◌, ◌≤◌, find, filter, length};
ghost use Rattle.std.specs.Option.{option_copied};
ghost use Rattle.authority_model.specs.Agents.{agent_of as agent_among};
ghost use Rattle.entry_changes.specs.Finding.{has_id, is_of_user, is_sent, named as named_among};
ghost use Rattle.entry_changes.specs.Changes.{grant_named as grant_among};
ghost use Rattle.entry_changes.specs.Finding.{with_cookie as cookie_among};
ghost use Rattle.authority_model.specs.Deciding as deciding;
ghost use Rattle.authority_model.specs.Keys.{key_seen};

use authority_model::{Agent, GrantRow, KeyRef, Pending};
use pk_types::Text;

/// The registration of a key.
pub fn agent_of<'a>(agents: &'a [Agent], key: KeyRef) -> Option<&'a Agent>
    ensures first { option_copied result ≡ agent_among (key_seen key.entry) agents.now }
{
    agents.iter().find(|agent| agent.key.is_same(key))
}

/// The first temporary authorization that is live for a key and an action at a moment.
pub fn serving<'a>(
    grants: &'a [GrantRow],
    key: KeyRef,
    action: &Text,
    moment: u64,
) -> Option<&'a GrantRow>
    ensures first { option_copied result ≡ find (deciding.serves (key_seen key.entry) action.now moment) grants.now }
{
    grants
        .iter()
        .find(|grant| grant.serves(key, action, moment))
}

/// The temporary authorization with this text of its number.
pub fn grant_named<'a>(grants: &'a [GrantRow], id: &Text) -> Option<&'a GrantRow>
    ensures first { option_copied result ≡ grant_among id.now grants.now }
{
    grants.iter().find(|grant| grant.is_named(id))
}

/// The challenge with this text of its cookie.
pub fn with_cookie<'a>(challenges: &'a [Pending], cookie: &Text) -> Option<&'a Pending>
    ensures first { option_copied result ≡ cookie_among cookie.now challenges.now }
{
    challenges.iter().find(|row| row.cookie.has_text(cookie))
}

/// The challenge of a connection's check with this cancellation id.
fn asked<'a>(challenges: &'a [Pending], caller: u32, id: &Text) -> Option<&'a Pending>
    ensures first { option_copied result ≡ find (has_id caller id.now) challenges.now }
{
    challenges
        .iter()
        .find(|row| row.asker == caller && row.cancel.is_same(id))
}

/// The challenge of a connection's check with this cancellation id, where an empty one names
/// nothing.
pub fn named<'a>(challenges: &'a [Pending], caller: u32, id: &Text) -> Option<&'a Pending>
    ensures first { option_copied result ≡ named_among caller id.now challenges.now }
{
    match id.bytes() {
        [] => None,
        _ => asked(challenges, caller, id),
    }
}

/// The challenge that was sent to this connection with this serial.
pub fn sent_to(challenges: &[Pending], agent: u32, serial: u32) -> Option<&Pending>
    ensures first { option_copied result ≡ find (is_sent agent serial) challenges.now }
{
    challenges
        .iter()
        .find(|row| row.agent == agent && row.agent_serial == serial)
}

/// How many challenges are of checks of a user.
pub fn count_of_user(challenges: &[Pending], uid: u32) -> usize
    ensures count { result ≡ length (filter (is_of_user uid) challenges.now) }
    ensures within { result ≤ length challenges.now }
{
    challenges.iter().filter(|row| row.asker_uid == uid).count()
}
