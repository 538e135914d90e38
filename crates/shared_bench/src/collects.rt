// One thread that collects.
use crate::passes::{Worker, admit_all, announce, collect, connect_all};
use history_lock::{Pass, TableName};
use shared_authority::{Kept, LimitsName, Shared};
use std::io;
use std::rt::Clock;
use std::sync::Wait;
use std::time::Instant;

/// How many connections are each sent one output.
const CONNECTIONS: u32 = 1_000;

/// How many collectors take each of these outputs.
const COLLECTORS: u32 = 100;

/// Has each connection be sent one output.
fn announce_all<L: LimitsName, T: TableName, R: Wait>(
    rt: &R,
    shared: &Shared<L, T>,
    workers: &mut [Worker<L, T>],
) -> bool {
    for worker in workers {
        if !announce(rt, shared, &mut worker.pass) {
            return false;
        }
    }
    true
}

/// Collects of each connection through one pass, until that is refused. Answers how often.
fn collect_each<L: LimitsName, T: TableName, R: Wait>(
    rt: &R,
    shared: &Shared<L, T>,
    collector: &mut Pass<Kept<L>, T>,
    connections: &[Worker<L, T>],
) -> u32 {
    let mut collected: u32 = 0;
    for connection in connections {
        if !collect(rt, shared, collector, connection.pass.number()) {
            return collected;
        }
        collected = collected.saturating_add(1);
    }
    collected
}

/// Collects of each connection through each of these passes. Answers how often.
fn collect_all<L: LimitsName, T: TableName, R: Wait>(
    rt: &R,
    shared: &Shared<L, T>,
    collectors: &mut [Worker<L, T>],
    connections: &[Worker<L, T>],
) -> u32 {
    let mut collected: u32 = 0;
    for collector in collectors {
        let more = collect_each(rt, shared, &mut collector.pass, connections);
        collected = collected.saturating_add(more);
    }
    collected
}

/// Times the collects, and tells how many there were, and the time in nanoseconds.
pub fn time_collects<L: LimitsName, T: TableName, R: Wait + Clock + Print + AllocGlobal>(
    rt: &R,
    shared: &Shared<L, T>,
    zero: &mut Pass<Kept<L>, T>,
) -> io::Result<()> {
    let (Ok(mut connections), Ok(mut collectors)) = (
        admit_all(rt, rt.alloc(), shared, zero, CONNECTIONS),
        admit_all(rt, rt.alloc(), shared, zero, COLLECTORS),
    ) else {
        return println!(rt; "no memory");
    };
    let connected = connect_all(rt, shared, connections.as_mut_slice());
    let announced = announce_all(rt, shared, connections.as_mut_slice());
    let start = Instant::now(rt)?;
    let done = collect_all(
        rt,
        shared,
        collectors.as_mut_slice(),
        connections.as_slice(),
    );
    let time = start.elapsed(rt)?.as_nanos();
    println!(rt; "{done} {time} {}", connected && announced)
}
