ghost use Rattle.std.specs.Prelude.{◌≡◌};
ghost use Rattle.authority_model.specs.Entering.{AreAllowed};
ghost use Rattle.authority_model.specs.Given.{IsStepped};
ghost use denote.Param.Send.{IsSync, IsSend};

use crate::passes::{admit, close, load, start};
use crate::turns::{TURNS, event_at, is_same_output, one_load, turn_at, turn_of};
use authority_core::Authority;
use authority_model::{Entry, Event, Limits, OutputList};
use history_lock::{Opened, Pass, TableName, open_table};
use pk_types::NoMemory;
use shared_authority::{Kept, LimitsName, Shared};
use std::alloc::Global;
use std::marker::Brand;
use std::sync::Wait;
use std::test::*;
use std::thread::{Threads, for_each_mut};

/// How many threads there are.
const THREADS: u32 = 10;

/// What a thread has: the pass of its connection.
#[derive(Drop)]
struct Worker<L: LimitsName, T: TableName> {
    pass: Pass<Kept<L>, T>,
}

/// How many entries a journal has, the first connection whose turns are not in order there, and
/// whether one thread is answered the same.
type Looks = (usize, Option<u32>, bool);

#[test]
fn ten_threads_submit_as_one_history(rt: HostRuntime) -> Result<(), Fail> {
    let (entries, out_of_order, is_same) = name_limits::<Brand, _>(
        &rt,
        rt.alloc(),
        Limits::GREATEST,
    )?;
    assert_eq!(rt; entries, (THREADS * TURNS + 1) as usize);
    assert_eq!(rt; out_of_order, None);
    assert!(rt; is_same);
    Ok(())
}

fn name_limits<L: LimitsName + Send + Sync, R: Threads + Wait + Sync>(
    rt: &R,
    alloc: Global,
    limits: Limits,
) -> Result<Looks, Fail>
    requires allowed { AreAllowed limits }
    requires limits { limits ≡ L.limits }
{
    let opened = open_table::<Kept<L>>(alloc)?;
    let authority = ten_beside::<L, Brand, R>(rt, alloc, limits, opened)?;
    looks(alloc, &authority)
}

/// What the journal of an authority looks like.
fn looks(alloc: Global, authority: &Authority) -> Result<Looks, Fail> {
    let is_same = is_answered_again(alloc, authority)?;
    let entries = authority.history().entries.len();
    Ok((entries, out_of_order(authority), is_same))
}

/// The first connection whose turns the journal does not have in their order.
fn out_of_order(authority: &Authority) -> Option<u32> {
    for caller in 1..THREADS + 1 {
        if !is_in_order(authority, caller) {
            return Some(caller);
        }
    }
    None
}

/// The authority that ten threads leave, each with a connection of its own.
fn ten_beside<L: LimitsName + Send + Sync, T: TableName + Send + Sync, R: Threads + Wait + Sync>(
    rt: &R,
    alloc: Global,
    limits: Limits,
    opened: Opened<Kept<L>>,
) -> Result<Authority, Fail>
    requires allowed { AreAllowed limits }
    requires limits { limits ≡ L.limits }
    requires table { opened ≡ T.table }
{
    let (shared, mut zero) = start::<L, T>(alloc, limits, opened)?;
    let mut workers = loaded_and_admitted(rt, alloc, &shared, &mut zero)?;
    run_beside(rt, alloc, &shared, workers.as_mut_slice());
    meet_all(&shared, &mut zero, workers.as_mut_slice());
    Ok(close(shared, zero))
}

/// Submits the one load, and then makes the passes of all threads.
fn loaded_and_admitted<L: LimitsName, T: TableName, R: Wait>(
    rt: &R,
    alloc: Global,
    shared: &Shared<L, T>,
    zero: &mut Pass<Kept<L>, T>,
) -> Result<Vec<Worker<L, T>>, Fail> {
    load_once(rt, alloc, shared, zero)?;
    admitted(rt, alloc, shared, zero)
}

/// Submits the one load.
fn load_once<L: LimitsName, T: TableName, R: Wait>(
    rt: &R,
    alloc: Global,
    shared: &Shared<L, T>,
    zero: &mut Pass<Kept<L>, T>,
) -> Result<(), Fail> {
    let loaded = one_load(alloc)?;
    match load(rt, shared, zero, loaded) {
        Some(_) => Ok(()),
        None => Err("loads")?,
    }
}

/// Adds a thread with a new pass.
fn admit_one<L: LimitsName, T: TableName, R: Wait>(
    rt: &R,
    shared: &Shared<L, T>,
    zero: &mut Pass<Kept<L>, T>,
    workers: &mut Vec<Worker<L, T>>,
) -> Result<(), Fail> {
    let pass = admit(rt, shared, zero)?;
    Ok(workers.push(Worker { pass })?)
}

/// The passes of all threads.
fn admitted<L: LimitsName, T: TableName, R: Wait>(
    rt: &R,
    alloc: Global,
    shared: &Shared<L, T>,
    zero: &mut Pass<Kept<L>, T>,
) -> Result<Vec<Worker<L, T>>, Fail> {
    let mut workers = Vec::new(alloc);
    for _ in 0..THREADS {
        admit_one(rt, shared, zero, &mut workers)?;
    }
    Ok(workers)
}

/// Has all threads take their turns, beside each other.
fn run_beside<
    'a,
    L: LimitsName + Send + Sync,
    T: TableName + Send + Sync,
    R: Threads + Wait + Sync,
>(rt: &'a R, alloc: Global, shared: &'a Shared<L, T>, workers: &mut [Worker<L, T>]) {
    for_each_mut(
        rt,
        workers,
        THREADS as usize,
        &|_index: usize, worker: &mut Worker<L, T>|
            requires { IsSync R.row × IsSync L.row × IsSync T.row × IsSend L.row × IsSend T.row }
        { take_turns(rt, alloc, shared, worker) },
    );
}

/// Submits what a thread hands in, turn by turn, until something is refused.
fn take_turns<L: LimitsName, T: TableName, R: Wait>(
    rt: &R,
    alloc: Global,
    shared: &Shared<L, T>,
    worker: &mut Worker<L, T>,
) {
    for number in 0..TURNS {
        if !take_turn(rt, alloc, shared, &mut worker.pass, number) {
            return;
        }
    }
}

/// Submits what a thread hands in at a turn. Its salt is the number of the turn, and its moment
/// rises with that.
fn take_turn<L: LimitsName, T: TableName, R: Wait>(
    rt: &R,
    alloc: Global,
    shared: &Shared<L, T>,
    pass: &mut Pass<Kept<L>, T>,
    number: u32,
) -> bool {
    match event_at(alloc, pass.number(), number) {
        Ok(event) => submit_one(rt, shared, pass, number, event).is_some(),
        Err(_) => false,
    }
}

/// Submits an event, and answers its place if it is entered.
fn submit_one<L: LimitsName, T: TableName, R: Wait>(
    rt: &R,
    shared: &Shared<L, T>,
    pass: &mut Pass<Kept<L>, T>,
    number: u32,
    event: Event,
) -> Option<u64>
    requires { IsStepped event }
{
    let moment = u64::from(number / 8);
    shared
        .submit(rt, pass, moment, u128::from(number), event)
        .ok()
}

/// Has each thread's pass tell the first pass what it knows.
fn meet_all<L: LimitsName, T: TableName>(
    shared: &Shared<L, T>,
    zero: &mut Pass<Kept<L>, T>,
    workers: &mut [Worker<L, T>],
) {
    for worker in workers {
        shared.meet(zero, &mut worker.pass);
    }
}

/// Whether an entry is a connection's turn with this number.
fn is_turn(entry: &Entry, number: u32) -> bool {
    entry.salt == u128::from(number) && turn_of(&entry.event) == Some(turn_at(entry.caller, number))
}

/// Whether the journal has all turns of a connection, each once and in their order.
fn is_in_order(authority: &Authority, caller: u32) -> bool {
    let mut entries = authority
        .history()
        .entries
        .as_slice()
        .iter()
        .filter(|entry| entry.caller == caller);
    let in_order = (0..TURNS).all(|number| entries
        .next()
        .is_some_and(|entry| is_turn(entry, number)));
    in_order && entries.next().is_none()
}

/// An authority with an empty journal.
fn empty(alloc: Global) -> Result<Authority, NoMemory> {
    Authority::start(alloc, Limits::GREATEST)
}

/// Whether one thread that is handed the same in the order of the journal answers the same.
fn is_answered_again(alloc: Global, authority: &Authority) -> Result<bool, NoMemory> {
    let mut again = empty(alloc)?;
    are_same_steps(alloc, &mut again, authority.history().entries.as_slice())
}

/// Whether what made some entries, handed in again, makes the same entries.
fn are_same_steps(
    alloc: Global,
    again: &mut Authority,
    entries: &[Entry],
) -> Result<bool, NoMemory> {
    for entry in entries {
        if !is_same_step(alloc, again, entry)? {
            return Ok(false);
        }
    }
    Ok(true)
}

/// Whether what made an entry, handed in again, makes the same entry.
fn is_same_step(alloc: Global, again: &mut Authority, entry: &Entry) -> Result<bool, NoMemory> {
    let place = hand_in_again(alloc, again, entry)?;
    Ok(match place.and_then(|place| again.entry(place)) {
        Some(other) => is_same_entry(entry, other),
        None => false,
    })
}

/// Hands in what made an entry, and answers the place of the new entry.
fn hand_in_again(
    alloc: Global,
    again: &mut Authority,
    entry: &Entry,
) -> Result<Option<u64>, NoMemory> {
    if matches!(&entry.event, Event::Load { .. }) {
        load_again(alloc, again)
    } else {
        step_again(alloc, again, entry)
    }
}

/// Loads the one load, and answers the place of its entry.
fn load_again(alloc: Global, again: &mut Authority) -> Result<Option<u64>, NoMemory> {
    let loaded = one_load(alloc)?;
    Ok(again.load(0, 0, loaded).ok())
}

/// Hands in the turn that an entry is, and answers the place of the new entry.
fn step_again(
    alloc: Global,
    again: &mut Authority,
    entry: &Entry,
) -> Result<Option<u64>, NoMemory> {
    let number = u32::try_from(entry.salt).unwrap_or(0);
    let event = event_at(alloc, entry.caller, number)?;
    Ok(step_like(again, entry, event))
}

/// Hands in an event with the caller, moment and salt of an entry, and answers the place of the new
/// entry.
fn step_like(again: &mut Authority, entry: &Entry, event: Event) -> Option<u64>
    requires { IsStepped event }
{
    let moment = entry.moment.min(1 << 62);
    again.step(entry.caller, moment, entry.salt, event).ok()
}

/// Whether two entries have the same caller, moment and salt, and tell the same.
fn is_same_entry(one: &Entry, other: &Entry) -> bool {
    one.caller == other.caller
        && one.moment == other.moment
        && one.salt == other.salt
        && are_same_outputs(&one.outputs, &other.outputs)
}

/// Whether two lists of outputs tell the same.
fn are_same_outputs(ones: &OutputList, others: &OutputList) -> bool {
    ones.len() == others.len()
        && ones
            .as_slice()
            .iter()
            .zip(others.as_slice())
            .all(|(one, other)| is_same_output(one, other))
}
