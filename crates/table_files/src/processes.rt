// The processes of a table.
ghost use Rattle.std.specs.Prelude.{◌≡◌, ◌==◌, ◌++◌, ◌∷◌, [], ℕ, List, false, codes, bytes_eq, IfErr, IfOk, map};
ghost use Rattle.authority_model.specs.Lists.{any_of};
ghost use Rattle.table_files.specs.Faults.{IsDueFault, Reads};
ghost use Rattle.table_files.specs.Sessions.{is_listed};
ghost use Rattle.table_files.specs.Processes.{session_in, process_of_row, process_of_fields, dangles, with_process, processes_of};
ghost use Rattle.table_files.specs.Sets.{has_name};
ghost use Rattle.table_files.specs.Kept.{IsName, process_at};

use crate::fault::TableFault;
use crate::fields::{is_name, number_32, number_64};
use crate::kept::ProcessTable;
use crate::limits::MAX_ROWS;
use crate::names::names_of;
use crate::table::{Table, read_lines};
use authority_model::{Process, ProcessList, SessionList};
use indexmap::IndexSet;
use pk_types::{NoMemory, Text, pieces};
use std::alloc::Global;

/// What a row has of a process.
#[derive(Clone, Copy)]
pub struct ProcessRow<'a> {
    pid: u32,
    start: u64,
    uid: u32,
    session: &'a [u8],
}

/// The row of its fields.
fn row<'a>(
    line: usize,
    pid: &[u8],
    start: &[u8],
    uid: &[u8],
    session: &'a [u8],
) -> Result<ProcessRow<'a>, TableFault>
    ensures row { Reads process_at result (process_of_row line pid.now start.now uid.now session.now) }
    ensures name { IfOk result (λ row. IsName row.session.now) }
{
    if !is_name(session) {
        return Err(TableFault::Fields { line });
    }
    let pid = number_32(line, pid)?;
    let start = number_64(line, start)?;
    let uid = number_32(line, uid)?;
    Ok(ProcessRow {
        pid,
        start,
        uid,
        session,
    })
}

/// The row of all its fields.
fn row_of_fields<'a>(line: usize, fields: &[&'a [u8]]) -> Result<ProcessRow<'a>, TableFault>
    ensures row { Reads process_at result (process_of_fields line (map (λ field. field.now) fields.now)) }
    ensures name { IfOk result (λ row. IsName row.session.now) }
{
    match fields {
        [pid, start, uid, session] => row(line, pid, start, uid, session),
        _ => Err(TableFault::Fields { line }),
    }
}

/// Whether a field names no session.
fn is_none(field: &[u8]) -> bool
    ensures none { result ≡ bytes_eq field.now (codes "-") }
{
    field == b"-".as_slice()
}

/// The session that a field names.
fn session(alloc: Global, field: &[u8]) -> Result<Option<Text>, NoMemory>
    requires { IsName field.now }
    ensures session { IfOk result (λ session. session ≡ session_in field.now) }
{
    if is_none(field) {
        return Ok(None);
    }
    let id = Text::of_known(alloc, field)?;
    Ok(Some(id))
}

/// The process of a row.
fn process(alloc: Global, row: &ProcessRow<'_>) -> Result<Process, NoMemory>
    requires { IsName row.now.session.now }
    ensures process { IfOk result (λ process. process ≡ process_at row.now) }
{
    let session = session(alloc, row.session)?;
    Ok(Process {
        pid: row.pid,
        start: row.start,
        uid: row.uid,
        session,
    })
}

impl<'a> ProcessTable<'a> {
    /// No processes, where these sessions are listed.
    fn new(alloc: Global, listed: IndexSet<&'a [u8]>) -> Self
        ensures empty { result.processes ≡ [] }
        ensures listed { result.listed ≡ listed.entry }
    {
        ProcessTable {
            processes: ProcessList::new(alloc),
            pids: IndexSet::new(alloc),
            listed,
        }
    }

    /// Whether a pid stands already.
    fn has(&self, pid: u32) -> bool
        ensures has { result ≡ any_of (λ p. pid == p.pid) self.now.processes }
    {
        self.pids.contains(&pid)
    }

    /// Whether a field names a session that is not listed.
    fn dangles(&self, field: &'a [u8]) -> bool
        ensures dangles { result ≡ dangles (has_name self.now.listed) (session_in field.now) }
    {
        if is_none(field) {
            return false;
        }
        !self.listed.contains(&field)
    }

    /// A process is added whose pid is new.
    fn with_new(self, alloc: Global, row: &ProcessRow<'a>) -> Result<Self, NoMemory>
        requires name { IsName row.now.session.now }
        requires new { any_of (λ p. row.now.pid == p.pid) self.processes ≡ false }
        ensures processes { IfOk result (λ table. table.processes ≡ self.entry.processes ++ process_at row.now ∷ []) }
        ensures listed { IfOk result (λ table. table.listed ≡ self.entry.listed) }
    {
        let mut processes = self.processes;
        let mut pids = self.pids;
        processes.try_push(process(alloc, row)?)?;
        pids.insert(row.pid)?;
        Ok(ProcessTable {
            processes,
            pids,
            listed: self.listed,
        })
    }

    /// The process of a row is added.
    fn with_row(self, alloc: Global, line: usize, row: &ProcessRow<'a>) -> Result<Self, TableFault>
        requires { IsName row.now.session.now }
        ensures processes { Reads (λ table. table.processes) result
            (with_process (has_name self.entry.listed) line (process_at row.now) self.entry.processes) }
        ensures listed { IfOk result (λ table. table.listed ≡ self.entry.listed) }
    {
        if self.has(row.pid) {
            return Err(TableFault::Repeated { line });
        }
        if self.dangles(row.session) {
            return Err(TableFault::Dangling { line });
        }
        if self.processes.len() >= MAX_ROWS {
            return Err(TableFault::TooMany { rows: MAX_ROWS + 1 });
        }
        let table = self.with_new(alloc, row)?;
        Ok(table)
    }
}

impl<'a> Table<'a> for ProcessTable<'a> {
    ghost use Rattle.std.specs.Prelude as prelude;
    ghost use Rattle.authority_model.specs.declared.world.Process.{Process as ProcessRecord};
    ghost use Rattle.table_files.specs.Processes.{with_process_line};

    ghost Rows = { prelude.List ProcessRecord };

    ghost rows = { λ table. table.processes };

    ghost with_line = { λ table. with_process_line (has_name table.listed) };

    fn add_line(self, alloc: Global, number: usize, line: &'a [u8]) -> Result<Self, TableFault> {
        let fields = pieces(alloc, line, b' ')?;
        let row = row_of_fields(number, fields.as_slice())?;
        self.with_row(alloc, number, &row)
    }
}

/// The processes of a file: rows `PID START UID SESSION` with one space between the fields, where
/// `-` names no session.
///
/// Empty lines and lines that begin with `#` are passed over.
///
/// # Errors
/// `TooLong` over 16 MiB; else the first fault of the first faulty line: `Fields` where there are
/// not four or the session is not UTF-8, holds byte 0 or has more than 4,096 bytes, `Number` where
/// the pid or the uid is not a decimal number of 32 bits or the start not one of 64, without sign
/// and leading zeros, `Repeated` where the pid stands already, `Dangling` where the session is not
/// among the sessions, `TooMany` at the 65,537th row; `NoMemory`.
pub fn read_processes(
    alloc: Global,
    bytes: &[u8],
    sessions: &SessionList,
) -> Result<ProcessList, TableFault>
    ensures processes { IfOk result (λ processes. processes_of bytes.now sessions.now ≡ Ok processes) }
    ensures fault { IfErr result (λ fault. IsDueFault fault (processes_of bytes.now sessions.now)) }
{
    let listed = names_of(alloc, sessions.as_slice())?;
    let table = read_lines(alloc, ProcessTable::new(alloc, listed), bytes)?;
    Ok(table.processes)
}
