// Passes of the shared authority, and single calls through them.
use authority_model::{Call, Event};
use history_lock::{Pass, TableName};
use pk_types::NoMemory;
use shared_authority::{Collected, Kept, LimitsName, Shared};
use std::alloc::Global;
use std::sync::Wait;

/// The pass of one thread or connection, and how much was done through it.
#[derive(Drop)]
pub struct Worker<L: LimitsName, T: TableName> {
    pub pass: Pass<Kept<L>, T>,
    pub done: u32,
}

/// A new pass.
fn admit<L: LimitsName, T: TableName, R: Wait>(
    rt: &R,
    shared: &Shared<L, T>,
    zero: &mut Pass<Kept<L>, T>,
) -> Result<Worker<L, T>, NoMemory> {
    match shared.admit(rt, zero) {
        Ok(pass) => Ok(Worker { pass, done: 0 }),
        Err(_) => Err(NoMemory),
    }
}

/// So many new passes.
pub fn admit_all<L: LimitsName, T: TableName, R: Wait>(
    rt: &R,
    alloc: Global,
    shared: &Shared<L, T>,
    zero: &mut Pass<Kept<L>, T>,
    count: u32,
) -> Result<Vec<Worker<L, T>>, NoMemory> {
    let mut workers = Vec::new(alloc);
    for _ in 0..count {
        workers.push(admit(rt, shared, zero)?)?;
    }
    Ok(workers)
}

/// Submits an event, and answers whether it was entered.
fn submit<L: LimitsName, T: TableName, R: Wait>(
    rt: &R,
    shared: &Shared<L, T>,
    pass: &mut Pass<Kept<L>, T>,
    event: Event,
) -> bool {
    event.is_stepped() && shared.submit(rt, pass, 0, 0, event).is_ok()
}

/// Connects the pass's connection.
fn connect<L: LimitsName, T: TableName, R: Wait>(
    rt: &R,
    shared: &Shared<L, T>,
    pass: &mut Pass<Kept<L>, T>,
) -> bool {
    submit(rt, shared, pass, Event::Connect { uid: 1000 })
}

/// Connects the connection of each pass.
pub fn connect_all<L: LimitsName, T: TableName, R: Wait>(
    rt: &R,
    shared: &Shared<L, T>,
    workers: &mut [Worker<L, T>],
) -> bool {
    for worker in workers {
        if !connect(rt, shared, &mut worker.pass) {
            return false;
        }
    }
    true
}

/// Announces a process that no world lists, which is refused by one reply.
pub fn announce<L: LimitsName, T: TableName, R: Wait>(
    rt: &R,
    shared: &Shared<L, T>,
    pass: &mut Pass<Kept<L>, T>,
) -> bool {
    let announce = Event::Call {
        serial: 1,
        quiet: false,
        call: Call::Announce { pid: 5, start: 5 },
    };
    submit(rt, shared, pass, announce)
}

/// Collects what a connection is sent, and answers whether that is one output.
pub fn collect<L: LimitsName, T: TableName, R: Wait>(
    rt: &R,
    shared: &Shared<L, T>,
    pass: &mut Pass<Kept<L>, T>,
    of: u32,
) -> bool {
    match shared.collect(rt, pass, of) {
        Ok(Collected::Batch(batch)) => batch.outputs.len() == 1,
        Ok(Collected::Gone) => false,
        Err(_) => false,
    }
}
