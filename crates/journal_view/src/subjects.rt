// What is known of a subject after a history.
ghost use Rattle.std.specs.Prelude.{◌≡◌, List, option_and_then};
ghost use Rattle.std.specs.Option.{option_copied, option_map};
ghost use Rattle.authority_model.specs.declared.journal.Item.{Item};
ghost use Rattle.authority_model.specs.Facts.{facts_seen, session_of as session_of_row};
ghost use Rattle.authority_model.specs.Peers.{announced as announced_after};
ghost use Rattle.authority_model.specs.Subjects.{caller_named, facts as facts_after, facts_of_row};
ghost use Rattle.journal_view.specs.Seen.{IsSeenOf};

use crate::names::caller_of;
use crate::rows::{process_facts, session_facts};
use crate::view::JournalView;
use authority_model::{Facts, Process, ProcessId, Session};
use pk_types::{Subject, Text};

/// The process that the live connection of this bus name announced.
fn announced<V: JournalView>(view: &V, name: &Text) -> Option<ProcessId>
    ensures process { (past : List Item) → IsSeenOf past (V.seen view.now) → result ≡ option_and_then (announced_after past) (caller_named name.now) }
{
    let peer = view.peer(caller_of(name)?)?;
    peer.live_announced()
}

/// The session that a process names, where it is listed.
fn session_of<'a, V: JournalView>(view: &'a V, row: &Process) -> Option<&'a Session>
    ensures session { option_copied result ≡ session_of_row (V.seen view.now).loaded.world row.now }
{
    match &row.session {
        None => None,
        Some(id) => view.session(id),
    }
}

/// What is known of the process with this pid and start.
fn facts_of_pid<V: JournalView>(view: &V, pid: u32, start: u64) -> Option<Facts<'_>>
    ensures facts { option_map facts_seen result ≡ facts_of_row (V.seen view.now).loaded.world pid start }
{
    let row = view.process(pid, start)?;
    Some(process_facts(row, session_of(view, row)))
}

/// What is known of a subject: by its row in the world in force, and for a bus name by the process
/// that its live connection announced. `None` exactly where nothing is known.
pub fn facts<'a, V: JournalView>(view: &'a V, subject: &Subject) -> Option<Facts<'a>>
    ensures facts { (past : List Item) → IsSeenOf past (V.seen view.now) → option_map facts_seen result ≡ facts_after past subject.now }
{
    match subject {
        Subject::Process { pid, start } => facts_of_pid(view, *pid, *start),
        Subject::Session { id } => Some(session_facts(view.session(id)?)),
        Subject::BusName { name } => {
            let process = announced(view, name)?;
            facts_of_pid(view, process.pid, process.start)
        }
    }
}
