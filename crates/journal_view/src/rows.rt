// What is known of a process or of a session by its row.
ghost use Rattle.std.specs.Prelude.{◌≡◌};
ghost use Rattle.std.specs.Option.{option_copied};
ghost use Rattle.authority_model.specs.declared.world.World.{World as TheWorld};
ghost use Rattle.authority_model.specs.Facts.{category_of, facts_of_process, facts_of_session, facts_seen, session_of};

use authority_model::{Facts, KeyRef, Process, Session};
use pk_types::Category;

/// The category of a session.
fn category(session: Option<&Session>) -> Category
    ensures category { result ≡ category_of (option_copied session.entry) }
{
    match session {
        None => Category::Any,
        Some(row) => {
            if !row.local {
                Category::Any
            } else if row.active {
                Category::Active
            } else {
                Category::Inactive
            }
        }
    }
}

/// What is known of a process with this row, where the session that it names has this row in the
/// world, if it is listed.
pub fn process_facts<'a>(row: &'a Process, session: Option<&'a Session>) -> Facts<'a>
    ensures facts { (world : TheWorld) → option_copied session.entry ≡ session_of world row.now → facts_seen result ≡ facts_of_process world row.now }
{
    Facts {
        uid: row.uid,
        category: category(session),
        key: KeyRef::Process {
            pid: row.pid,
            start: row.start,
            uid: row.uid,
        },
        session: session.map(|row| &row.id),
    }
}

/// What is known of a session with this row.
pub fn session_facts(row: &Session) -> Facts<'_>
    ensures facts { facts_seen result ≡ facts_of_session row.now }
{
    Facts {
        uid: row.uid,
        category: category(Some(row)),
        key: KeyRef::Session {
            id: &row.id,
            uid: row.uid,
        },
        session: Some(&row.id),
    }
}
