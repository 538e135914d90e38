// The agent for a subject.
ghost use Rattle.std.specs.Prelude.{◌≡◌, List};
ghost use Rattle.std.specs.Option.{option_copied, option_and_then};
ghost use Rattle.authority_model.specs.declared.journal.Item.{Item};
ghost use Rattle.authority_model.specs.declared.key.Key.{Key};
ghost use Rattle.authority_model.specs.Agents.{agent_of, agent_for as agent_after};
ghost use Rattle.authority_model.specs.Facts.{facts_seen};
ghost use Rattle.authority_model.specs.Worlds.{session_row};
ghost use Rattle.journal_view.specs.Seen.{IsSeenOf};

use crate::view::JournalView;
use authority_model::{Agent, Facts, KeyRef};
use pk_types::Text;

/// The registration of the key of a session.
fn agent_of_session<'a, V: JournalView>(view: &'a V, id: Option<&Text>) -> Option<&'a Agent>
    ensures agent { option_copied result ≡ option_and_then (λ s. agent_of (Key.Session s.id s.uid) (V.seen view.now).agents) (option_and_then (session_row (V.seen view.now).loaded.world) (option_copied id.entry)) }
{
    let row = view.session(id?)?;
    view.agent_of(KeyRef::Session {
        id: &row.id,
        uid: row.uid,
    })
}

/// The agent for a subject of these facts: the registration of its key, or else of the key of its
/// session.
pub fn agent_for<'a, V: JournalView>(view: &'a V, facts: Facts) -> Option<&'a Agent>
    ensures agent { (past : List Item) → IsSeenOf past (V.seen view.now) → option_copied result ≡ agent_after past (facts_seen facts.entry) }
{
    match view.agent_of(facts.key) {
        Some(agent) => Some(agent),
        None => agent_of_session(view, facts.session),
    }
}
