//! Has threads submit events to one shared authority, or one thread collect from it, and tells how
//! long that took. `bench/shared` runs it.
#![tactic(auto)]

ghost use Rattle.std.specs.Prelude.{◌≡◌};
ghost use Rattle.authority_model.specs.Entering.{AreAllowed};

mod collects;
mod passes;
mod submits;

use crate::collects::time_collects;
use crate::submits::time_submits;
use authority_model::Limits;
use history_lock::{Opened, TableName, open_table};
use shared_authority::{Kept, LimitsName, Shared};
use std::marker::Brand;
use std::rt::{Clock, Env};
use std::sync::Wait;
use std::thread::Threads;
use std::{env, io};

/// What is timed.
#[derive(Clone, Copy)]
enum Task {
    /// So many threads submit.
    Submits(u32),
    /// One thread collects.
    Collects,
}

/// Times a task at a new authority, and tells of it.
fn time<
    L: LimitsName + Send + Sync,
    T: TableName + Send + Sync,
    R: Threads + Wait + Sync + Clock + Print + AllocGlobal,
>(rt: &R, task: Task, limits: Limits, opened: Opened<Kept<L>>) -> io::Result<()>
    requires allowed { AreAllowed limits }
    requires limits { limits ≡ L.limits }
    requires table { opened ≡ T.table }
{
    let Ok((shared, mut zero)) = Shared::<L, T>::start(rt.alloc(), limits, opened) else {
        return println!(rt; "no memory");
    };
    match task {
        Task::Submits(threads) => time_submits(rt, &shared, &mut zero, threads),
        Task::Collects => time_collects(rt, &shared, &mut zero),
    }
}

/// Opens a table, and times a task with it.
fn open<L: LimitsName + Send + Sync, R: Threads + Wait + Sync + Clock + Print + AllocGlobal>(
    rt: &R,
    task: Task,
    limits: Limits,
) -> io::Result<()>
    requires allowed { AreAllowed limits }
    requires limits { limits ≡ L.limits }
{
    match open_table::<Kept<L>>(rt.alloc()) {
        Ok(opened) => time::<L, Brand, R>(rt, task, limits, opened),
        Err(_) => println!(rt; "no memory"),
    }
}

/// The task that the words name.
fn task_named<R: Env + AllocGlobal>(rt: &R) -> io::Result<Option<Task>> {
    let mut words = env::args(rt)?.skip(1);
    let Some(first) = words.next() else {
        return Ok(None);
    };
    if first.as_str() == "collects" {
        return Ok(Some(Task::Collects));
    }
    Ok(match first.as_str().parse::<u32>() {
        Ok(threads) => Some(Task::Submits(threads)),
        Err(_) => None,
    })
}

fn main(rt: HostRuntime) -> io::Result<()> {
    match task_named(&rt)? {
        Some(task) => open::<Brand, _>(&rt, task, Limits::GREATEST),
        None => Ok(()),
    }
}
