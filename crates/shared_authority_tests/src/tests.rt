ghost use Rattle.std.specs.Prelude.{◌≡◌};
ghost use Rattle.authority_model.specs.Entering.{AreAllowed};
ghost use Rattle.authority_model.specs.Given.{IsStepped};

use crate::passes::{admit, announce, close, collect, enter, load, start};
use authority_core::Authority;
use authority_model::{Answer, ErrorCause, Event, Limits, Loaded, MAX_BYTES, Message};
use history_lock::{EndCause, Opened, Pass, TableName, open_table};
use shared_authority::{Collected, Kept, LimitsName, Shared};
use std::alloc::Global;
use std::marker::Brand;
use std::sync::Wait;
use std::test::*;
use std::thread::{Threads, join_mut};

/// Room for two entries.
const TWO_ENTRIES: Limits = Limits {
    entries: 2,
    bytes: MAX_BYTES,
};

/// What a journal of two entries without texts refuses a third one by.
const FULL: EndCause = EndCause::JournalFull {
    entries: 2,
    bytes: 128,
};

/// How many entries the journal has.
fn entries_in(authority: &Authority) -> usize {
    authority.history().entries.len()
}

/// The places of a load and of a Connect, and the causes by which their two connections then find
/// the lock ended.
type Filled = ([Option<u64>; 2], [Option<EndCause>; 2]);

#[test]
fn a_full_journal_ends_the_lock(rt: HostRuntime) -> Result<(), Fail> {
    let ((places, causes), entries) = name_two_entries::<Brand, _>(&rt, rt.alloc(), TWO_ENTRIES)?;
    assert_eq!(rt; places, [Some(0), Some(1)]);
    assert_eq!(rt; causes, [Some(FULL), Some(FULL)]);
    assert_eq!(rt; entries, 2);
    Ok(())
}

fn name_two_entries<L: LimitsName, R: Wait>(
    rt: &R,
    alloc: Global,
    limits: Limits,
) -> Result<(Filled, usize), Fail>
    requires allowed { AreAllowed limits }
    requires limits { limits ≡ L.limits }
{
    let opened = open_table::<Kept<L>>(alloc)?;
    fill_two_entries::<L, Brand, R>(rt, alloc, limits, opened)
}

/// What is answered by a journal of two entries, and how many it has in the end.
fn fill_two_entries<L: LimitsName, T: TableName, R: Wait>(
    rt: &R,
    alloc: Global,
    limits: Limits,
    opened: Opened<Kept<L>>,
) -> Result<(Filled, usize), Fail>
    requires allowed { AreAllowed limits }
    requires limits { limits ≡ L.limits }
    requires table { opened ≡ T.table }
{
    let (shared, mut zero) = start::<L, T>(alloc, limits, opened)?;
    let mut one = admit(rt, &shared, &mut zero)?;
    let filled = fill(rt, alloc, &shared, &mut zero, &mut one);
    Ok((filled, entries_in(&close(shared, one))))
}

/// Loads by the first pass, connects by the second, and then departs by either, which is refused.
fn fill<L: LimitsName, T: TableName, R: Wait>(
    rt: &R,
    alloc: Global,
    shared: &Shared<L, T>,
    zero: &mut Pass<Kept<L>, T>,
    one: &mut Pass<Kept<L>, T>,
) -> Filled {
    let loaded = load(rt, shared, zero, Loaded::empty(alloc));
    let connected = enter(rt, shared, one, Event::Connect { uid: 1000 });
    let first = end_by_refusal(rt, shared, one, Event::Depart);
    let second = end_by_refusal(rt, shared, zero, Event::Depart);
    ([loaded, connected], [first, second])
}

/// Submits an event. Where it is refused it comes back, and the lock ends by this cause; the answer
/// is the kept one.
fn end_by_refusal<L: LimitsName, T: TableName, R: Wait>(
    rt: &R,
    shared: &Shared<L, T>,
    pass: &mut Pass<Kept<L>, T>,
    event: Event,
) -> Option<EndCause>
    requires { IsStepped event }
{
    match shared.submit(rt, pass, 0, 0, event) {
        Ok(_) => None,
        Err(refused) => Some(shared.end(rt, pass, refused.cause())),
    }
}

/// The places of a load, a Connect, an Announce and a Depart; and whether another connection
/// collects the refusal of the Announce, and finds the first one gone behind the Depart.
type Departed = ([Option<u64>; 4], [bool; 2]);

#[test]
fn one_connection_collects_what_is_sent_to_another(rt: HostRuntime) -> Result<(), Fail> {
    let ((places, collected), entries) = name_collected::<Brand, _>(
        &rt,
        rt.alloc(),
        Limits::GREATEST,
    )?;
    assert_eq!(rt; places, [Some(0), Some(1), Some(2), Some(4)]);
    assert_eq!(rt; collected, [true, true]);
    assert_eq!(rt; entries, 6);
    Ok(())
}

fn name_collected<L: LimitsName, R: Wait>(
    rt: &R,
    alloc: Global,
    limits: Limits,
) -> Result<(Departed, usize), Fail>
    requires allowed { AreAllowed limits }
    requires limits { limits ≡ L.limits }
{
    let opened = open_table::<Kept<L>>(alloc)?;
    collect_until_gone::<L, Brand, R>(rt, alloc, limits, opened)
}

/// What is answered until a connection has departed, and how many entries the journal has then.
fn collect_until_gone<L: LimitsName, T: TableName, R: Wait>(
    rt: &R,
    alloc: Global,
    limits: Limits,
    opened: Opened<Kept<L>>,
) -> Result<(Departed, usize), Fail>
    requires allowed { AreAllowed limits }
    requires limits { limits ≡ L.limits }
    requires table { opened ≡ T.table }
{
    let (shared, mut zero) = start::<L, T>(alloc, limits, opened)?;
    let (mut one, mut two) = admit_two(rt, &shared, &mut zero)?;
    let departed = depart_collected(rt, alloc, &shared, &mut zero, &mut one, &mut two);
    Ok((departed, entries_in(&close(shared, two))))
}

/// Two new passes, of which the first admits the second.
fn admit_two<L: LimitsName, T: TableName, R: Wait>(
    rt: &R,
    shared: &Shared<L, T>,
    zero: &mut Pass<Kept<L>, T>,
) -> Result<(Pass<Kept<L>, T>, Pass<Kept<L>, T>), Fail> {
    let mut one = admit(rt, shared, zero)?;
    let two = admit(rt, shared, &mut one)?;
    Ok((one, two))
}

/// Loads by the first pass, and connects, announces and departs by the second. The third collects
/// what the second is sent, where there is something to wait for.
fn depart_collected<L: LimitsName, T: TableName, R: Wait>(
    rt: &R,
    alloc: Global,
    shared: &Shared<L, T>,
    zero: &mut Pass<Kept<L>, T>,
    one: &mut Pass<Kept<L>, T>,
    two: &mut Pass<Kept<L>, T>,
) -> Departed {
    let loaded = load(rt, shared, zero, Loaded::empty(alloc));
    let connected = enter(rt, shared, one, Event::Connect { uid: 1000 });
    let announced = announce(rt, shared, one);
    let is_refused = announced.is_some() && collects_bad_announce(rt, shared, two, 1);
    let departed = enter(rt, shared, one, Event::Depart);
    let is_gone = departed.is_some() && is_gone(rt, shared, two, 1);
    (
        [loaded, connected, announced, departed],
        [is_refused, is_gone],
    )
}

/// Whether a Collect takes the connection's first output alone, which refuses an Announce.
fn collects_bad_announce<L: LimitsName, T: TableName, R: Wait>(
    rt: &R,
    shared: &Shared<L, T>,
    pass: &mut Pass<Kept<L>, T>,
    of: u32,
) -> bool {
    match collect(rt, shared, pass, of) {
        Some(collected) => is_bad_announce(&collected),
        None => false,
    }
}

/// Whether a Collect finds the connection gone.
fn is_gone<L: LimitsName, T: TableName, R: Wait>(
    rt: &R,
    shared: &Shared<L, T>,
    pass: &mut Pass<Kept<L>, T>,
    of: u32,
) -> bool {
    match collect(rt, shared, pass, of) {
        Some(collected) => matches!(collected, Collected::Gone),
        None => false,
    }
}

/// Whether a batch has the connection's first output alone, which refuses an Announce.
fn is_bad_announce(collected: &Collected) -> bool {
    let Collected::Batch(batch) = collected else {
        return false;
    };
    batch.from == 1
        && batch.outputs.len() == 1
        && batch.outputs.get(0).is_some_and(|output| matches!(
            &output.message,
            Message::Reply {
                serial: 1,
                answer: Answer::Refused(ErrorCause::BadAnnounce)
            }
        ))
}

/// How many entries a journal has, and whether it has each of two callers' hundred events in order.
type Hundreds = (usize, [bool; 2]);

#[test]
fn two_threads_submit_a_hundred_each(rt: HostRuntime) -> Result<(), Fail> {
    let (counts, (entries, are_in_order)) = name_ample::<Brand, _>(
        &rt,
        rt.alloc(),
        Limits::GREATEST,
    )?;
    assert_eq!(rt; counts, (100, 100));
    assert_eq!(rt; entries, 200);
    assert_eq!(rt; are_in_order, [true, true]);
    Ok(())
}

fn name_ample<L: LimitsName + Send + Sync, R: Threads + Wait + Sync>(
    rt: &R,
    alloc: Global,
    limits: Limits,
) -> Result<((u32, u32), Hundreds), Fail>
    requires allowed { AreAllowed limits }
    requires limits { limits ≡ L.limits }
{
    let opened = open_table::<Kept<L>>(alloc)?;
    submit_beside::<L, Brand, R>(rt, alloc, limits, opened)
}

/// How many events each of two threads entered, and what the journal has of them.
fn submit_beside<L: LimitsName + Send + Sync, T: TableName + Send + Sync, R: Threads + Wait + Sync>(
    rt: &R,
    alloc: Global,
    limits: Limits,
    opened: Opened<Kept<L>>,
) -> Result<((u32, u32), Hundreds), Fail>
    requires allowed { AreAllowed limits }
    requires limits { limits ≡ L.limits }
    requires table { opened ≡ T.table }
{
    let (shared, mut one) = start::<L, T>(alloc, limits, opened)?;
    let mut two = admit(rt, &shared, &mut one)?;
    let counts = submit_hundreds(rt, &shared, &mut one, &mut two);
    let callers = [one.number(), two.number()];
    Ok((counts, hundreds_in(&close(shared, two), callers)))
}

/// Two threads submit a hundred events each at once, through passes of their own, which then meet.
/// Answers how many each entered.
fn submit_hundreds<
    'a,
    L: LimitsName + Send + Sync,
    T: TableName + Send + Sync,
    R: Threads + Wait + Sync,
>(
    rt: &'a R,
    shared: &'a Shared<L, T>,
    one: &mut Pass<Kept<L>, T>,
    two: &mut Pass<Kept<L>, T>,
) -> (u32, u32) {
    let counts = join_mut(
        rt,
        &mut || submit_hundred(rt, shared, one),
        &mut || submit_hundred(rt, shared, two),
    );
    shared.meet(one, two);
    counts
}

/// What the journal has of two callers.
fn hundreds_in(authority: &Authority, callers: [u32; 2]) -> Hundreds {
    let [first, second] = callers;
    (
        entries_in(authority),
        [
            are_in_order(authority, first),
            are_in_order(authority, second),
        ],
    )
}

/// Submits a hundred events, numbered from 1, and answers how many were entered.
fn submit_hundred<L: LimitsName, T: TableName, R: Wait>(
    rt: &R,
    shared: &Shared<L, T>,
    pass: &mut Pass<Kept<L>, T>,
) -> u32 {
    for serial in 1..101 {
        if enter(rt, shared, pass, Event::Returned { serial }).is_none() {
            return serial - 1;
        }
    }
    100
}

/// Whether the journal has the caller's hundred events, each once and in their order.
fn are_in_order(authority: &Authority, caller: u32) -> bool {
    let mut entries = authority
        .history()
        .entries
        .as_slice()
        .iter()
        .filter(|entry| entry.caller == caller);
    let in_order = (1..101).all(|number| entries.next().is_some_and(
        |entry| matches!(&entry.event, Event::Returned { serial } if *serial == number),
    ));
    in_order && entries.next().is_none()
}
