// Threads that submit beside each other.
ghost use denote.Param.Send.{IsSync, IsSend};

use crate::passes::{Worker, admit_all, announce, connect_all};
use history_lock::{Pass, TableName};
use shared_authority::{Kept, LimitsName, Shared};
use std::io;
use std::rt::Clock;
use std::sync::Wait;
use std::thread::{Threads, for_each_mut};
use std::time::Instant;

/// How many events all threads submit together.
const SUBMITS: u32 = 100_000;

/// Announces so often through one pass, until that is refused.
fn announce_often<L: LimitsName, T: TableName, R: Wait>(
    rt: &R,
    shared: &Shared<L, T>,
    worker: &mut Worker<L, T>,
    times: u32,
) {
    for k in 0..times {
        if !announce(rt, shared, &mut worker.pass) {
            return;
        }
        worker.done = k + 1;
    }
}

/// The same for each pass, beside each other.
fn announce_beside<
    'a,
    L: LimitsName + Send + Sync,
    T: TableName + Send + Sync,
    R: Threads + Wait + Sync,
>(rt: &'a R, shared: &'a Shared<L, T>, workers: &mut [Worker<L, T>], times: u32) {
    let threads = workers.len();
    if threads > 0 {
        for_each_mut(
            rt,
            workers,
            threads,
            &|_index: usize, worker: &mut Worker<L, T>|
                requires { IsSync R.row × IsSync L.row × IsSync T.row × IsSend L.row × IsSend T.row }
            { announce_often(rt, shared, worker, times) },
        );
    }
}

/// How many events were submitted through all passes.
fn done<L: LimitsName, T: TableName>(workers: &[Worker<L, T>]) -> u32 {
    let mut done: u32 = 0;
    for worker in workers {
        done = done.saturating_add(worker.done);
    }
    done
}

/// Times the submits of so many threads, each with a connection of its own, and tells how many there
/// were, and the time in nanoseconds.
pub fn time_submits<
    L: LimitsName + Send + Sync,
    T: TableName + Send + Sync,
    R: Threads + Wait + Sync + Clock + Print + AllocGlobal,
>(rt: &R, shared: &Shared<L, T>, zero: &mut Pass<Kept<L>, T>, threads: u32) -> io::Result<()> {
    let Ok(mut workers) = admit_all(rt, rt.alloc(), shared, zero, threads) else {
        return println!(rt; "no memory");
    };
    let connected = connect_all(rt, shared, workers.as_mut_slice());
    let start = Instant::now(rt)?;
    announce_beside(rt, shared, workers.as_mut_slice(), SUBMITS / threads.max(1));
    let time = start.elapsed(rt)?.as_nanos();
    let done = done(workers.as_slice());
    println!(rt; "{done} {time} {connected}")
}
