ghost use Rattle.std.specs.Prelude.{◌≡◌, ◌≤◌, length};

use super::*;
use history_lock::{
    AdmitRefused, CallRefused, EndCause, HistoryLock, Opened, Pass, TableName, open_table,
};
use std::alloc::Global;
use std::marker::Brand;
use std::sync::Wait;
use std::test::*;
use std::thread::{Threads, join_mut};

/// How many passes a lock has.
const MOST_PASSES: u32 = 1_048_576;

/// A new pass.
fn admit<T: TableName, R: Wait>(
    rt: &R,
    lock: &HistoryLock<Tally, T>,
    pass: &mut Pass<Tally, T>,
) -> Result<Pass<Tally, T>, Fail> {
    match lock.admit(rt, pass) {
        Ok(new) => Ok(new),
        Err(_) => Err("admits")?,
    }
}

/// Whether a tally has these callers and amounts, and no others.
fn has_entries(tally: &Tally, amounts: &[(u32, u32)]) -> bool {
    tally.entries().len() == amounts.len()
        && tally
            .entries()
            .iter()
            .zip(amounts)
            .all(|(entry, amount)| (entry.caller, entry.amount) == *amount)
}

#[test]
fn two_threads_add_a_hundred_each(rt: HostRuntime) -> Result<(), Fail> {
    let opened = open_table::<Tally>(rt.alloc())?;
    let (entries, is_first_in_order, is_second_in_order) = add_hundred::<Brand, _>(
        &rt,
        rt.alloc(),
        opened,
    )?;
    assert_eq!(rt; entries, 200);
    assert!(rt; is_first_in_order && is_second_in_order);
    Ok(())
}

/// How many entries there are where two threads add a hundred amounts each, and whether those of
/// either are in order.
fn add_hundred<T: TableName + Send + Sync, R: Threads + Wait + Sync>(
    rt: &R,
    alloc: Global,
    opened: Opened<Tally>,
) -> Result<(usize, bool, bool), Fail>
    requires { opened ≡ T.table }
{
    let mut first = [0; 100];
    let mut second = [0; 100];
    for k in 0..100 {
        first[k] = k as u32 + 1;
        second[k] = k as u32 + 1001;
    }
    let (tally, one, two) = added_by_two::<T, R>(rt, alloc, opened, &first, &second).ok_or(
        "all are added",
    )?;
    Ok((
        tally.entries().len(),
        added_in_order(&tally, one, 1),
        added_in_order(&tally, two, 1001),
    ))
}

/// Whether the caller's amounts are a hundred, and go up by one from the first.
fn added_in_order(tally: &Tally, caller: u32, first: u32) -> bool {
    let mut amounts = tally.entries().iter().filter(|e| e.caller == caller);
    let in_order = (first..first.saturating_add(100)).all(|amount| amounts
        .next()
        .is_some_and(|e| e.amount == amount));
    in_order && amounts.next().is_none()
}

/// What a call is answered.
type Answer = Result<u64, CallRefused<Op, Refusal>>;

/// The place of what waited, and those of what was added meanwhile.
type Waited = (Option<u64>, (Option<u64>, Option<u64>));

#[test]
fn waits_for_what_another_appends(rt: HostRuntime) -> Result<(), Fail> {
    let opened = open_table::<Tally>(rt.alloc())?;
    let ((waited, added), has_entries) = wait_for_another::<Brand, _>(&rt, rt.alloc(), opened)?;
    assert_eq!(rt; waited, Some(2));
    assert_eq!(rt; added, (Some(0), Some(1)));
    assert!(rt; has_entries);
    Ok(())
}

/// What is answered, and whether the tally has it in the end.
fn wait_for_another<T: TableName + Send + Sync, R: Threads + Wait + Sync>(
    rt: &R,
    alloc: Global,
    opened: Opened<Tally>,
) -> Result<(Waited, bool), Fail>
    requires { opened ≡ T.table }
{
    let (lock, mut one) = HistoryLock::<Tally, T>::start(Tally::new(alloc), opened)?;
    let mut two = admit(rt, &lock, &mut one)?;
    let waited = wait_beside(rt, &lock, &mut one, &mut two);
    let tally = lock.close(two);
    Ok((waited, has_entries(&tally, &[(1, 5), (1, 6), (0, 7)])))
}

/// The first pass adds seven behind two entries, which the second adds beside it.
fn wait_beside<'a, T: TableName + Send + Sync, R: Threads + Wait + Sync>(
    rt: &'a R,
    lock: &'a HistoryLock<Tally, T>,
    one: &mut Pass<Tally, T>,
    two: &mut Pass<Tally, T>,
) -> Waited {
    join_mut(
        rt,
        &mut || lock.call_when_ready(rt, one, seven_after(2)).ok(),
        &mut || (add(rt, lock, two, 5), add(rt, lock, two, 6)),
    )
}

/// Adds an amount, and answers its place if it is added.
fn add<T: TableName, R: Wait>(
    rt: &R,
    lock: &HistoryLock<Tally, T>,
    pass: &mut Pass<Tally, T>,
    amount: u32,
) -> Option<u64> {
    lock.call(rt, pass, Op::Add(amount)).ok()
}

/// The place of a call, if it was made and not refused.
type Place = Option<Option<u64>>;

/// The places of calls, and of those behind them.
type Places = [Option<(u64, Place)>; 3];

#[test]
fn calls_what_is_ready_alone(rt: HostRuntime) -> Result<(), Fail> {
    let opened = open_table::<Tally>(rt.alloc())?;
    let ((early, places), late, has_entries) = call_what_is_ready::<Brand, _>(
        &rt,
        rt.alloc(),
        opened,
    )?;
    assert_eq!(rt; early, None);
    assert_eq!(rt; places, [Some((0, None)), Some((1, Some(Some(2)))), None]);
    assert_eq!(rt; late, Some(Some(3)));
    assert!(rt; has_entries);
    Ok(())
}

/// What is not ready is not called, neither alone nor behind another call; once it is, it is.
/// Answers the places of all calls, and whether the tally has them in the end.
fn call_what_is_ready<T: TableName, R: Wait>(
    rt: &R,
    alloc: Global,
    opened: Opened<Tally>,
) -> Result<((Place, Places), Place, bool), Fail>
    requires { opened ≡ T.table }
{
    let (lock, mut one) = HistoryLock::<Tally, T>::start(Tally::new(alloc), opened)?;
    let mut two = admit(rt, &lock, &mut one)?;
    let called = call_if_ready(rt, &lock, &mut one, &mut two);
    let late = call_late(rt, &lock, &mut one, called.1);
    let tally = lock.close(one);
    let amounts = [(0, 5), (0, 6), (1, 7), (0, 7)];
    Ok((called, late, has_entries(&tally, &amounts)))
}

/// Calls one that is not ready, and then others behind calls: one that is not ready, one that is,
/// and one behind a call that is refused.
fn call_if_ready<T: TableName, R: Wait>(
    rt: &R,
    lock: &HistoryLock<Tally, T>,
    one: &mut Pass<Tally, T>,
    two: &mut Pass<Tally, T>,
) -> (Place, Places) {
    let early = place_in(lock.call_if_ready(rt, one, seven_after(1)));
    let alone = add_then(rt, lock, one, two, 5);
    let both = add_then(rt, lock, one, two, 6);
    let neither = add_then(rt, lock, one, two, 0);
    (early, [alone, both, neither])
}

/// Adds an amount by the first pass, and behind it seven by the second, where there are two entries.
fn add_then<T: TableName, R: Wait>(
    rt: &R,
    lock: &HistoryLock<Tally, T>,
    one: &mut Pass<Tally, T>,
    two: &mut Pass<Tally, T>,
    amount: u32,
) -> Option<(u64, Place)> {
    places_in(lock.call_then(rt, one, Op::Add(amount), two, seven_after(2)))
}

/// The places of a call that was not refused, and of the one behind it.
fn places_in(
    answers: Result<(u64, Option<Answer>), CallRefused<Op, Refusal>>,
) -> Option<(u64, Place)> {
    match answers {
        Ok((place, then)) => Some((place, place_in(then))),
        Err(_) => None,
    }
}

/// The place of a call, if it was made and not refused.
fn place_in(answer: Option<Answer>) -> Place {
    match answer {
        Some(answer) => Some(answer.ok()),
        None => None,
    }
}

/// Waits for three entries where the calls before added so many, and then adds seven.
fn call_late<T: TableName, R: Wait>(
    rt: &R,
    lock: &HistoryLock<Tally, T>,
    pass: &mut Pass<Tally, T>,
    places: Places,
) -> Place {
    if places[1] != Some((1, Some(Some(2)))) {
        return None;
    }
    lock.wait_until_ready(rt, pass.number(), &seven_after(3));
    place_in(lock.call_if_ready(rt, pass, seven_after(3)))
}

/// Seven, which waits for so many entries.
fn seven_after(entries: u64) -> Op {
    Op::AddAfter { amount: 7, entries }
}

/// By which cause a tally of one entry ends.
const FULL: EndCause = EndCause::JournalFull {
    entries: 1,
    bytes: 64,
};

/// What is refused as nothing; the place of an entry, whether a call that waits is refused by the
/// end, and the cause of that; then the cause of another end, and what is refused by it.
type Ended = (
    Option<Op>,
    Option<(u64, bool, EndCause)>,
    EndCause,
    Option<Op>,
);

#[test]
fn refuses_and_ends(rt: HostRuntime) -> Result<(), Fail> {
    let opened = open_table::<Tally>(rt.alloc())?;
    let (numbers, (nothing, ended, kept, late), entries) = refuse_and_end::<Brand, _>(
        &rt,
        rt.alloc(),
        opened,
    )?;
    assert_eq!(rt; numbers, (0, 1));
    assert_eq!(rt; nothing, Some(Op::Add(0)));
    assert_eq!(rt; ended, Some((0, true, FULL)));
    assert_eq!(rt; kept, FULL);
    assert_eq!(rt; late, Some(Op::Add(5)));
    assert_eq!(rt; entries, 1);
    Ok(())
}

/// The numbers of two passes, what is answered until their lock has ended, and how many entries
/// there are then.
fn refuse_and_end<T: TableName + Send + Sync, R: Threads + Wait + Sync>(
    rt: &R,
    alloc: Global,
    opened: Opened<Tally>,
) -> Result<((u32, u32), Ended, usize), Fail>
    requires { opened ≡ T.table }
{
    let (lock, mut one) = HistoryLock::<Tally, T>::start(Tally::new(alloc), opened)?;
    let mut two = admit(rt, &lock, &mut one)?;
    let numbers = (one.number(), two.number());
    let ended = end_with_one_entry(rt, &lock, &mut one, &mut two);
    Ok((numbers, ended, lock.close(one).entries().len()))
}

/// Adds nothing, then an amount, ends the lock beside a call that waits, and again, and calls.
fn end_with_one_entry<T: TableName + Send + Sync, R: Threads + Wait + Sync>(
    rt: &R,
    lock: &HistoryLock<Tally, T>,
    one: &mut Pass<Tally, T>,
    two: &mut Pass<Tally, T>,
) -> Ended {
    let nothing = refused_as_nothing(lock.call(rt, one, Op::Add(0)));
    let ended = end_a_wait(rt, lock, one, two);
    let kept = lock.end(rt, two, EndCause::NoMemory);
    let late = refused_by_full(lock.call(rt, one, Op::Add(5)));
    (nothing, ended, kept, late)
}

/// What comes back where it is refused as nothing.
fn refused_as_nothing(answer: Answer) -> Option<Op> {
    match answer {
        Err(
            CallRefused::Machine {
                refusal: Refusal::Nothing,
                op,
            },
        ) => Some(op),
        _ => None,
    }
}

/// What comes back where it is refused by the end of a tally of one entry.
fn refused_by_full(answer: Answer) -> Option<Op> {
    match answer {
        Err(CallRefused::Ended { cause, op }) if cause == FULL => Some(op),
        _ => None,
    }
}

/// Adds an amount, and ends the lock while the second pass waits for nine entries. Answers the place
/// of the amount, whether the wait ends by that, and the kept cause.
fn end_a_wait<'a, T: TableName + Send + Sync, R: Threads + Wait + Sync>(
    rt: &'a R,
    lock: &'a HistoryLock<Tally, T>,
    one: &mut Pass<Tally, T>,
    two: &mut Pass<Tally, T>,
) -> Option<(u64, bool, EndCause)> {
    let place = lock.call(rt, one, Op::Add(3)).ok()?;
    let (is_ended, kept) = join_mut(
        rt,
        &mut || is_wait_refused(rt, lock, two),
        &mut || -> EndCause
            requires { 1 ≤ length one.now.history }
        { lock.end(rt, one, FULL) },
    );
    Some((place, is_ended, kept))
}

/// Whether a call that waits for nine entries is refused by the end.
fn is_wait_refused<T: TableName, R: Wait>(
    rt: &R,
    lock: &HistoryLock<Tally, T>,
    pass: &mut Pass<Tally, T>,
) -> bool {
    let nine = Op::AddAfter {
        amount: 4,
        entries: 9,
    };
    refused_by_full(lock.call_when_ready(rt, pass, nine)).is_some()
}

/// By which cause a tally of no entry ends.
const FULL_AT_ONCE: EndCause = EndCause::JournalFull {
    entries: 0,
    bytes: 64,
};

#[test]
fn tells_all_one_cause(rt: HostRuntime) -> Result<(), Fail> {
    let opened = open_table::<Tally>(rt.alloc())?;
    let (added, causes, entries) = tell_all_one_cause::<Brand, _>(&rt, rt.alloc(), opened)?;
    let [first, second, behind, kept] = causes;
    assert_eq!(rt; added, Some(0));
    assert_eq!(rt; first, second);
    assert!(rt; first == EndCause::NoMemory || first == FULL_AT_ONCE);
    assert_eq!(rt; behind, first);
    assert_eq!(rt; kept, first);
    assert_eq!(rt; entries, 1);
    Ok(())
}

/// The place of an amount, the cause that four callers are told behind it, and how many entries
/// there are then.
fn tell_all_one_cause<T: TableName + Send + Sync, R: Threads + Wait + Sync>(
    rt: &R,
    alloc: Global,
    opened: Opened<Tally>,
) -> Result<(Option<u64>, [EndCause; 4], usize), Fail>
    requires { opened ≡ T.table }
{
    let (lock, mut one) = HistoryLock::<Tally, T>::start(Tally::new(alloc), opened)?;
    let mut two = admit(rt, &lock, &mut one)?;
    let added = add(rt, &lock, &mut two, 3);
    let [first, second, behind] = causes_told(rt, &lock, &mut one, &mut two);
    let (tally, kept) = end_and_close(rt, lock, two);
    Ok((added, [first, second, behind, kept], tally.entries().len()))
}

/// The cause that two passes are told that end the lock beside each other, and that of a call behind
/// the end.
fn causes_told<T: TableName + Send + Sync, R: Threads + Wait + Sync>(
    rt: &R,
    lock: &HistoryLock<Tally, T>,
    one: &mut Pass<Tally, T>,
    two: &mut Pass<Tally, T>,
) -> [EndCause; 3] {
    let (first, second) = end_beside(rt, lock, one, two, EndCause::NoMemory, FULL_AT_ONCE);
    [first, second, call_behind_the_end(rt, lock, one, 5)]
}

#[test]
fn makes_each_pass_once(rt: HostRuntime) -> Result<(), Fail> {
    let opened = open_table::<Tally>(rt.alloc())?;
    let (wrong, refused) = make_each_pass::<Brand, _>(&rt, rt.alloc(), opened)?;
    assert_eq!(rt; wrong, None);
    assert_eq!(rt;
        refused,
        Some(AdmitRefused::Full {
            admitted: MOST_PASSES
        })
    );
    Ok(())
}

/// The first number that no pass has where each is made, and why no other is made then.
fn make_each_pass<T: TableName, R: Wait>(
    rt: &R,
    alloc: Global,
    opened: Opened<Tally>,
) -> Result<(Option<u32>, Option<AdmitRefused>), Fail>
    requires { opened ≡ T.table }
{
    let (lock, mut one) = HistoryLock::<Tally, T>::start(Tally::new(alloc), opened)?;
    let wrong = wrong_number(rt, &lock, &mut one);
    Ok((wrong, lock.admit(rt, &mut one).err()))
}

/// Makes each pass but the first, and answers the first number that is not that of the next pass.
fn wrong_number<T: TableName, R: Wait>(
    rt: &R,
    lock: &HistoryLock<Tally, T>,
    pass: &mut Pass<Tally, T>,
) -> Option<u32> {
    for number in 1..MOST_PASSES {
        if next_number(rt, lock, pass) != Some(number) {
            return Some(number);
        }
    }
    None
}

/// The number of a new pass.
fn next_number<T: TableName, R: Wait>(
    rt: &R,
    lock: &HistoryLock<Tally, T>,
    pass: &mut Pass<Tally, T>,
) -> Option<u32> {
    match lock.admit(rt, pass) {
        Ok(new) => Some(new.number()),
        Err(_) => None,
    }
}
