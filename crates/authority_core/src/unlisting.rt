// A copy of a load without one process.
ghost use Rattle.std.specs.Prelude.{◌≡◌, IfOk, filter, not};
ghost use Rattle.authority_core.specs.Unlisting as unlisting;

use authority_model::{Loaded, Process, ProcessList, World};
use pk_types::{List, NoMemory, TryCopy};
use std::alloc::Global;

/// Whether a row is of this process.
fn is_process(row: &Process, pid: u32, start: u64) -> bool
    ensures is { result ≡ unlisting.is_process pid start row.now }
{
    row.pid == pid && row.start == start
}

/// Copies of the rows of other processes.
fn other_rows(
    alloc: Global,
    rows: &[Process],
    pid: u32,
    start: u64,
) -> Result<ProcessList, NoMemory>
    ensures others { IfOk result (λ others. others ≡ filter (λ row. not (unlisting.is_process pid start row)) rows.now) }
{
    let mut others = List::new(alloc);
    for row in rows {
        if !is_process(row, pid, start) {
            others.try_push(row.try_copy()?)?;
        }
    }
    Ok(others)
}

/// A copy of a load without the rows of a process, and without its faults.
pub fn without_process(
    alloc: Global,
    loaded: &Loaded,
    pid: u32,
    start: u64,
) -> Result<Loaded, NoMemory>
    ensures rest { IfOk result (λ rest. rest ≡ unlisting.unlisted loaded.now pid start) }
{
    let world = &loaded.world;
    Ok(Loaded {
        policy: loaded.policy.try_copy()?,
        world: World {
            users: world.users.try_copy()?,
            groups: world.groups.try_copy()?,
            sessions: world.sessions.try_copy()?,
            processes: other_rows(alloc, world.processes.as_slice(), pid, start)?,
        },
        faults: List::new(alloc),
    })
}
