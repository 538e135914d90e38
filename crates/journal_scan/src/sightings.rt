// Whether a load is the one before it without one process.
ghost use Rattle.std.specs.Prelude.{◌≡◌, IfSome, IsTrue, Some, is_some, slice_get, true};
ghost use Rattle.authority_model.specs.declared.world.World.{World as TheWorld};
ghost use Rattle.authority_model.specs.Worlds.{process_row};
ghost use Rattle.journal_scan.specs.Sightings.{LacksOne, is_process, other_rows};

use crate::same::Same;
use authority_model::{Loaded, Process};

/// Whether a row is of this process.
fn is_process(row: &Process, pid: u32, start: u64) -> bool
    ensures is { result ≡ is_process pid start row.now }
{
    row.pid == pid && row.start == start
}

/// Whether a row stands in this place.
fn stands_at(row: &Process, rows: &[Process], at: usize) -> bool
    ensures stands { IsTrue result → slice_get rows.now at ≡ Some row.now }
{
    match rows.get(at) {
        Some(other) => other.is_same(row),
        None => false,
    }
}

/// The first row that does not stand in its place among the others.
fn first_missing<'a>(rows: &'a [Process], others: &[Process]) -> Option<&'a Process>
    ensures row { IfSome result (λ row. (world : TheWorld) → world.processes ≡ rows.now → is_some (process_row world row.now.pid row.now.start) ≡ true) }
{
    let mut at = 0;
    while at < rows.len() {
        if !stands_at(&rows[at], others, at) {
            return Some(&rows[at]);
        }
        at += 1;
    }
    None
}

/// Whether the others are the rows without each one of this process.
fn are_other_rows(rows: &[Process], others: &[Process], pid: u32, start: u64) -> bool
    ensures others { IsTrue result → others.now ≡ other_rows pid start rows.now }
{
    let mut at = 0;
    for row in rows {
        if !is_process(row, pid, start) {
            if !stands_at(row, others, at) {
                return false;
            }
            at += 1;
        }
    }
    at == others.len()
}

/// Whether the second load is the first one without a process that this one lists, and without
/// faults.
pub(crate) fn lacks_one(before: &Loaded, after: &Loaded) -> bool
    ensures lacks { IsTrue result → LacksOne before.now after.now }
{
    let rows = before.world.processes.as_slice();
    let others = after.world.processes.as_slice();
    match first_missing(rows, others) {
        Some(row) => {
            are_other_rows(rows, others, row.pid, row.start)
                && after.policy.is_same(&before.policy)
                && after.world.users.is_same(&before.world.users)
                && after.world.groups.is_same(&before.world.groups)
                && after.world.sessions.is_same(&before.world.sessions)
                && after.faults.is_empty()
        }
        None => false,
    }
}
