ghost use Rattle.std.specs.Prelude.{◌≡◌};
ghost use Rattle.authority_model.specs.Entering.{AreAllowed};

use crate::passes::{admit, announce, collect, enter, start};
use authority_model::{Answer, ErrorCause, Event, Limits, Message};
use history_lock::{Opened, Pass, TableName, open_table};
use shared_authority::{Collected, Kept, LimitsName, Shared};
use std::alloc::Global;
use std::marker::Brand;
use std::process::Abort;
use std::sync::Wait;
use std::test::*;
use std::thread::{Threads, join_mut};

/// How many events come before the one that is answered.
const SILENT: u32 = 200;

#[test]
fn a_waiting_collector_is_woken(rt: HostRuntime) -> Result<(), Fail> {
    name_limits::<Brand, _>(&rt, rt.alloc(), Limits::GREATEST)
}

fn name_limits<L: LimitsName + Send + Sync, R: Threads + Wait + Abort + Sync>(
    rt: &R,
    alloc: Global,
    limits: Limits,
) -> Result<(), Fail>
    requires allowed { AreAllowed limits }
    requires limits { limits ≡ L.limits }
{
    let opened = open_table::<Kept<L>>(alloc)?;
    let told = wait_beside::<L, Brand, R>(rt, alloc, limits, opened)?;
    assert_eq!(rt; told, Some((1, ErrorCause::BadAnnounce)));
    Ok(())
}

/// What a collector is told that waits for what connection 0 is sent, while that submits some events
/// that send nothing, and then an Announce, which is refused.
fn wait_beside<L: LimitsName + Send + Sync, T: TableName + Send + Sync, R: Threads + Wait + Sync>(
    rt: &R,
    alloc: Global,
    limits: Limits,
    opened: Opened<Kept<L>>,
) -> Result<Option<(u32, ErrorCause)>, Fail>
    requires allowed { AreAllowed limits }
    requires limits { limits ≡ L.limits }
    requires table { opened ≡ T.table }
{
    let (shared, mut zero) = start::<L, T>(alloc, limits, opened)?;
    let mut one = admit(rt, &shared, &mut zero)?;
    Ok(told_beside(rt, &shared, &mut zero, &mut one))
}

/// What the second pass is told while the first submits, if all that was entered.
fn told_beside<
    'a,
    L: LimitsName + Send + Sync,
    T: TableName + Send + Sync,
    R: Threads + Wait + Sync,
>(
    rt: &'a R,
    shared: &'a Shared<L, T>,
    zero: &mut Pass<Kept<L>, T>,
    one: &mut Pass<Kept<L>, T>,
) -> Option<(u32, ErrorCause)> {
    let (told, all) = join_mut(
        rt,
        &mut || collect_one(rt, shared, one),
        &mut || submit_all(rt, shared, zero),
    );
    if all { told } else { None }
}

/// Waits for what connection 0 is sent, and answers what the one output tells.
fn collect_one<L: LimitsName, T: TableName, R: Wait>(
    rt: &R,
    shared: &Shared<L, T>,
    pass: &mut Pass<Kept<L>, T>,
) -> Option<(u32, ErrorCause)> {
    match collect(rt, shared, pass, 0) {
        Some(collected) => refusal_in(&collected),
        None => None,
    }
}

/// The serial and the cause of the refusal that a batch has alone, as the connection's first output.
fn refusal_in(collected: &Collected) -> Option<(u32, ErrorCause)> {
    let Collected::Batch(batch) = collected else {
        return None;
    };
    if batch.from != 1 || batch.outputs.len() != 1 {
        return None;
    }
    match &batch.outputs.get(0)?.message {
        Message::Reply {
            serial,
            answer: Answer::Refused(cause),
        } => Some((*serial, *cause)),
        _ => None,
    }
}

/// Connects, passes so often, and announces a process that no world lists. Answers whether all was
/// entered.
fn submit_all<L: LimitsName, T: TableName, R: Wait>(
    rt: &R,
    shared: &Shared<L, T>,
    pass: &mut Pass<Kept<L>, T>,
) -> bool {
    let connects = enter(rt, shared, pass, Event::Connect { uid: 1000 }).is_some();
    let passes = pass_often(rt, shared, pass);
    connects && passes && announce(rt, shared, pass).is_some()
}

fn pass_often<L: LimitsName, T: TableName, R: Wait>(
    rt: &R,
    shared: &Shared<L, T>,
    pass: &mut Pass<Kept<L>, T>,
) -> bool {
    for _ in 0..SILENT {
        if enter(rt, shared, pass, Event::Passed).is_none() {
            return false;
        }
    }
    true
}
