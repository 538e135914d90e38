// Two threads add to one tally.
ghost use Rattle.std.specs.Prelude.{◌≡◌, ◌≢◌, ℕ, ◌+◌, ◌≤◌, ◌++◌, length, map, take, IfSome};
ghost use Rattle.history_lock.specs.Entries.{entries_by};
ghost use Rattle.history_lock_tests.specs.Tallies.{entry_of};

use crate::tally::{Op, Tally};
use history_lock::{HistoryLock, Opened, Pass, TableName};
use std::alloc::Global;
use std::sync::Wait;
use std::thread::{Threads, join_mut};

/// Adds the amounts one after another, until one is refused, and says how many were added. They are
/// all that the pass's history has more of its caller, in their order.
pub fn add_all<T: TableName, R: Wait>(
    rt: &R,
    lock: &HistoryLock<Tally, T>,
    pass: &mut Pass<Tally, T>,
    amounts: &[u32],
) -> usize
    ensures count { result ≤ length amounts.now }
    ensures number { pass.new.number ≡ pass.old.number }
    ensures own { entries_by (λ e. e.caller) pass.old.number pass.new.history
        ≡ entries_by (λ e. e.caller) pass.old.number pass.old.history
        ++ map (entry_of pass.old.number) (take result amounts.now) }
{
    let mut added = 0;
    for amount in amounts {
        match lock.call(rt, pass, Op::Add(*amount)) {
            Ok(_) => added += 1,
            Err(_) => return added,
        }
    }
    added
}

/// Two threads add amounts each at once, through passes of their own, which then meet. Says how
/// many amounts each added. The one history that both passes know then has of each just these, in
/// their order.
pub fn add_beside<'a, T: TableName + Send + Sync, R: Threads + Wait + Sync>(
    rt: &'a R,
    lock: &'a HistoryLock<Tally, T>,
    one: &mut Pass<Tally, T>,
    two: &mut Pass<Tally, T>,
    first: &'a [u32],
    second: &'a [u32],
) -> (usize, usize)
    ensures equal { one.new.history ≡ two.new.history }
    ensures first { let (by_one, by_two) = result in entries_by (λ e. e.caller) one.old.number one.new.history
        ≡ entries_by (λ e. e.caller) one.old.number one.old.history
        ++ map (entry_of one.old.number) (take by_one first.now) }
    ensures second { let (by_one, by_two) = result in entries_by (λ e. e.caller) two.old.number two.new.history
        ≡ entries_by (λ e. e.caller) two.old.number two.old.history
        ++ map (entry_of two.old.number) (take by_two second.now) }
    ensures counts { let (by_one, by_two) = result in (by_one ≤ length first.now) × (by_two ≤ length second.now) }
    ensures numbers { (one.new.number ≡ one.old.number) × (two.new.number ≡ two.old.number) }
{
    let counts = join_mut(
        rt,
        &mut || add_all(rt, lock, one, first),
        &mut || add_all(rt, lock, two, second),
    );
    lock.meet(one, two);
    counts
}

/// Two threads add amounts each to a new tally, as `add_beside` says, and the lock is closed. The
/// answer is the tally with the numbers of the two passes, where each amount was added and nobody
/// else added any. The tally has the amounts of each thread then, each once and in the thread's
/// order.
pub fn added_by_two<T: TableName + Send + Sync, R: Threads + Wait + Sync>(
    rt: &R,
    alloc: Global,
    opened: Opened<Tally>,
    first: &[u32],
    second: &[u32],
) -> Option<(Tally, u32, u32)>
    requires { opened ≡ T.table }
    ensures apart { IfSome result (λ (tally, one, two). one ≢ two) }
    ensures each { IfSome result (λ (tally, one, two). (entries_by (λ e. e.caller) one tally ≡ map (entry_of one) first.now)
        × (entries_by (λ e. e.caller) two tally ≡ map (entry_of two) second.now)) }
{
    let (lock, mut one) = HistoryLock::<Tally, T>::start(Tally::new(alloc), opened).ok()?;
    let mut two = lock.admit(rt, &mut one).ok()?;
    let (by_one, by_two) = add_beside(rt, &lock, &mut one, &mut two, first, second);
    if by_one < first.len() || by_two < second.len() {
        return None;
    }
    let (first_number, second_number) = (one.number(), two.number());
    let tally = lock.close(one);
    if tally.entries().len() != first.len() + second.len() {
        return None;
    }
    Some((tally, first_number, second_number))
}
