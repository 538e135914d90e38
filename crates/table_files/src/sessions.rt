// The sessions of a table.
ghost use Rattle.std.specs.Prelude.{◌≡◌, ◌++◌, ◌∷◌, [], false, IfErr, IfOk, map};
ghost use Rattle.table_files.specs.Faults.{IsDueFault, Reads};
ghost use Rattle.table_files.specs.Sessions.{local_of, active_of, session_of_row, session_of_fields, is_listed, with_session, sessions_of};
ghost use Rattle.table_files.specs.Kept.{IsName, session_at};

use crate::fault::TableFault;
use crate::fields::{is_name, number_32};
use crate::kept::SessionTable;
use crate::limits::MAX_ROWS;
use crate::table::{Table, read_lines};
use authority_model::{Session, SessionList};
use indexmap::IndexSet;
use pk_types::{NoMemory, Text, pieces};
use std::alloc::Global;

/// What a row has of a session.
#[derive(Clone, Copy)]
pub struct SessionRow<'a> {
    id: &'a [u8],
    uid: u32,
    local: bool,
    active: bool,
}

/// Whether a session is local, by its word.
fn local(word: &[u8]) -> Option<bool>
    ensures local { result ≡ local_of word.now }
{
    if word == b"local".as_slice() {
        Some(true)
    } else if word == b"remote".as_slice() {
        Some(false)
    } else {
        None
    }
}

/// Whether a session is active, by its word.
fn active(word: &[u8]) -> Option<bool>
    ensures active { result ≡ active_of word.now }
{
    if word == b"active".as_slice() {
        Some(true)
    } else if word == b"idle".as_slice() {
        Some(false)
    } else {
        None
    }
}

/// The row of its fields.
fn row<'a>(
    line: usize,
    id: &'a [u8],
    uid: &[u8],
    place: &[u8],
    state: &[u8],
) -> Result<SessionRow<'a>, TableFault>
    ensures row { Reads session_at result (session_of_row line id.now uid.now place.now state.now) }
    ensures name { IfOk result (λ row. IsName row.id.now) }
{
    if !is_name(id) {
        return Err(TableFault::Fields { line });
    }
    let Some(local) = local(place) else {
        return Err(TableFault::Fields { line });
    };
    let Some(active) = active(state) else {
        return Err(TableFault::Fields { line });
    };
    let uid = number_32(line, uid)?;
    Ok(SessionRow {
        id,
        uid,
        local,
        active,
    })
}

/// The row of all its fields.
fn row_of_fields<'a>(line: usize, fields: &[&'a [u8]]) -> Result<SessionRow<'a>, TableFault>
    ensures row { Reads session_at result (session_of_fields line (map (λ field. field.now) fields.now)) }
    ensures name { IfOk result (λ row. IsName row.id.now) }
{
    match fields {
        [id, uid, place, state] => row(line, id, uid, place, state),
        _ => Err(TableFault::Fields { line }),
    }
}

/// The session of a row.
fn session(alloc: Global, row: &SessionRow<'_>) -> Result<Session, NoMemory>
    requires { IsName row.now.id.now }
    ensures session { IfOk result (λ session. session ≡ session_at row.now) }
{
    let id = Text::of_known(alloc, row.id)?;
    Ok(Session {
        id,
        uid: row.uid,
        local: row.local,
        active: row.active,
    })
}

impl<'a> SessionTable<'a> {
    /// No sessions.
    fn new(alloc: Global) -> Self
        ensures empty { result.sessions ≡ [] }
    {
        SessionTable {
            sessions: SessionList::new(alloc),
            ids: IndexSet::new(alloc),
        }
    }

    /// Whether an id stands already.
    fn has(&self, id: &'a [u8]) -> bool
        ensures has { result ≡ is_listed self.now.sessions id.now }
    {
        self.ids.contains(&id)
    }

    /// A session is added whose id is new.
    fn with_new(self, alloc: Global, row: &SessionRow<'a>) -> Result<Self, NoMemory>
        requires name { IsName row.now.id.now }
        requires new { is_listed self.sessions row.now.id.now ≡ false }
        ensures sessions { IfOk result (λ table. table.sessions ≡ self.entry.sessions ++ session_at row.now ∷ []) }
    {
        let mut sessions = self.sessions;
        let mut ids = self.ids;
        sessions.try_push(session(alloc, row)?)?;
        ids.insert(row.id)?;
        Ok(SessionTable { sessions, ids })
    }

    /// The session of a row is added.
    fn with_row(self, alloc: Global, line: usize, row: &SessionRow<'a>) -> Result<Self, TableFault>
        requires { IsName row.now.id.now }
        ensures sessions { Reads (λ table. table.sessions) result (with_session line (session_at row.now) self.entry.sessions) }
    {
        if self.has(row.id) {
            return Err(TableFault::Repeated { line });
        }
        if self.sessions.len() >= MAX_ROWS {
            return Err(TableFault::TooMany { rows: MAX_ROWS + 1 });
        }
        let table = self.with_new(alloc, row)?;
        Ok(table)
    }
}

impl<'a> Table<'a> for SessionTable<'a> {
    ghost use Rattle.std.specs.Prelude as prelude;
    ghost use Rattle.authority_model.specs.declared.world.Session.{Session as SessionRecord};
    ghost use Rattle.table_files.specs.Sessions.{with_session_line};

    ghost Rows = { prelude.List SessionRecord };

    ghost rows = { λ table. table.sessions };

    ghost with_line = { λ _. with_session_line };

    fn add_line(self, alloc: Global, number: usize, line: &'a [u8]) -> Result<Self, TableFault> {
        let fields = pieces(alloc, line, b' ')?;
        let row = row_of_fields(number, fields.as_slice())?;
        self.with_row(alloc, number, &row)
    }
}

/// The sessions of a file: rows `ID UID local|remote active|idle` with one space between the fields.
///
/// Empty lines and lines that begin with `#` are passed over.
///
/// # Errors
/// `TooLong` over 16 MiB; else the first fault of the first faulty line: `Fields` where there are
/// not four, the id is not UTF-8, holds byte 0 or has more than 4,096 bytes, or another word stands
/// in the last two, `Number` where the uid is not a decimal number of 32 bits without sign and
/// leading zeros, `Repeated` where the id stands already, `TooMany` at the 65,537th row; `NoMemory`.
pub fn read_sessions(alloc: Global, bytes: &[u8]) -> Result<SessionList, TableFault>
    ensures sessions { IfOk result (λ sessions. sessions_of bytes.now ≡ Ok sessions) }
    ensures fault { IfErr result (λ fault. IsDueFault fault (sessions_of bytes.now)) }
{
    let table = read_lines(alloc, SessionTable::new(alloc), bytes)?;
    Ok(table.sessions)
}
