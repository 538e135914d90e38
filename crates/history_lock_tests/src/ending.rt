// What the kept cause means to those who know it.
ghost use Rattle.std.specs.Prelude.{◌≡◌, Some, IfSome, IsSome};
ghost use Rattle.history_lock_tests.specs.Tallies.{Fits};

use crate::tally::{Op, Tally};
use history_lock::{CallRefused, EndCause, HistoryLock, Pass, TableName};
use std::sync::Wait;
use std::thread::{Threads, join_mut};

/// Two threads end the lock at once, each by a cause that fits what its pass knows, and their
/// passes meet. Both are answered the same cause, and both know it as the kept one.
pub fn end_beside<'a, T: TableName + Send + Sync, R: Threads + Wait + Sync>(
    rt: &'a R,
    lock: &'a HistoryLock<Tally, T>,
    one: &mut Pass<Tally, T>,
    two: &mut Pass<Tally, T>,
    first: EndCause,
    second: EndCause,
) -> (EndCause, EndCause)
    requires first { Fits first one.old.history one.old.made }
    requires second { Fits second two.old.history two.old.made }
    ensures same { let (by_one, by_two) = result in by_one ≡ by_two }
    ensures known { let (by_one, by_two) = result in (one.new.ended ≡ Some by_one) × (two.new.ended ≡ Some by_two) }
    ensures equal { one.new.history ≡ two.new.history }
{
    let causes = join_mut(
        rt,
        &mut || -> EndCause
            requires { Fits first one.now.history one.now.made }
            ensures { one.exit.now.ended ≡ Some result }
        { lock.end(rt, one, first) },
        &mut || -> EndCause
            requires { Fits second two.now.history two.now.made }
            ensures { two.exit.now.ended ≡ Some result }
        { lock.end(rt, two, second) },
    );
    lock.meet(one, two);
    causes
}

/// A call through a pass that knows a kept cause. It is always refused, by that cause, and the
/// pass's history is the whole one, before and after.
pub fn call_behind_the_end<T: TableName, R: Wait>(
    rt: &R,
    lock: &HistoryLock<Tally, T>,
    pass: &mut Pass<Tally, T>,
    amount: u32,
) -> EndCause
    requires { IsSome pass.old.ended }
    ensures cause { pass.old.ended ≡ Some result }
    ensures stays { (pass.new.ended ≡ pass.old.ended) × (pass.new.history ≡ pass.old.history) }
{
    match lock.call(rt, pass, Op::Add(amount)) {
        Err(CallRefused::Ended { cause, op: _ }) => cause,
        _ => unreachable!(),
    }
}

/// Closes the lock through a pass that has ended it. The tally has what the pass knew, and no entry
/// more.
pub fn end_and_close<T: TableName, R: Wait>(
    rt: &R,
    lock: HistoryLock<Tally, T>,
    pass: Pass<Tally, T>,
) -> (Tally, EndCause)
    ensures { let (tally, cause) = result in IfSome pass.ended (λ known. (cause ≡ known) × (tally ≡ pass.history)) }
{
    let mut pass = pass;
    let cause = lock.end(rt, &mut pass, EndCause::NoMemory);
    (lock.close(pass), cause)
}
