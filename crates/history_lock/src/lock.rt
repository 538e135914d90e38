// The lock.
ghost use Rattle.std.specs.Prelude.{max, ◌≡◌, ◌≤◌, ◌⊎◌, List, [], None, Some, IfSome, IfOk, IfErr, IsOk, IsSome};
ghost use Rattle.std.specs.Sync.Mutex.{mutex_guard_value};
ghost use mathlib.Core.List.{IsPrefix};
ghost use Rattle.history_lock.specs.declared.machine.EndCause.{EndCause};
ghost use Rattle.history_lock.specs.declared.machine.TheConstants.{MOST_PASSES};
ghost use Rattle.history_lock.specs.Kinds.{longer_of};
ghost use Rattle.history_lock.specs.Causes.{known_or};
ghost use Rattle.history_lock.specs.Calls.{Learned, Answered, Refused, Admitted, NoneAdmitted};

use crate::locked::{APART, Locked, NextAnswer, settle_receipt, take_note_of_pass};
use crate::machine::{EndCause, Machine};
use crate::pass::{Pass, TableName};
use crate::refused::{AdmitRefused, CallRefused};
use crate::steps;
use crate::turns::Turns;
use crate::view::{LockSeat, LockTable};
use crate::woken::Whom;
use pk_types::NoMemory;
use std::alloc::Global;
use std::marker::{Model, PhantomData};
use std::sync::{Mutex, MutexGuard, Wait};
use std::thread;

/// How often a call looks for the lock before it lets other threads run.
const LOOKS: u32 = 20;

/// How often it lets them run before it sleeps until the lock is free.
const YIELDS: u32 = 100;

/// A table that was just opened, for one lock. Contracts see its name.
#[derive(Drop)]
pub struct Opened<M: Machine> {
    table: LockTable<M>,
    book: LockSeat<M>,
}

impl<M: Machine> Model for Opened<M> {
    ghost use Rattle.std.specs.Prelude.{◌≡◌, []};
    ghost use Rattle.atomic_table.specs.Seated.{TableId, table_id_coded};
    ghost use Rattle.history_lock.specs.Rule.{opened};

    ghost Value = { TableId };

    ghost coded = { table_id_coded };

    ghost view = { λ o. o.table.shared.table_id };

    ghost invariant = { λ o. (o.table.shared.table_id.words ≡ 1)
        × (o.book.table_id ≡ o.table.shared.table_id)
        × (o.book.me ≡ (opened, [])) };
}

/// Opens the table of a lock. Its name is picked next, and then the lock starts with it.
pub fn open_table<M: Machine>(alloc: Global) -> Result<Opened<M>, NoMemory>
    ensures { IfOk result (λ opened. opened.words ≡ 1) }
{
    let (table, book) = steps::open::<M>(alloc)?;
    Ok(Opened { table, book })
}

/// A machine under a lock, whose history the passes know. `T` is the name of the lock's table, so
/// that a pass fits the lock that made it and no other.
///
/// No clause speaks of waiting: a call that waits for the lock, or for an operation to be ready,
/// returns only if other callers do their part.
#[derive(Drop)]
pub struct HistoryLock<M: Machine, T: TableName> {
    table: LockTable<M>,
    locked: Mutex<Locked<M, T>>,
    turns: Turns,
    ghost named: { table.shared.table_id ≡ T.table },
    ghost one_word: { table.shared.table_id.words ≡ 1 },
}

impl<M: Machine, T: TableName> HistoryLock<M, T> {
    /// Puts a machine with no entry under a lock, and makes the first pass, whose number is 0. It
    /// takes no memory, so the answer is always Ok.
    pub fn start(machine: M, opened: Opened<M>) -> Result<(HistoryLock<M, T>, Pass<M, T>), NoMemory>
        requires machine { M.entries machine ≡ [] }
        requires table { opened ≡ T.table }
        ensures starts { IsOk result }
        ensures first { IfOk result (λ (lock, pass). (pass.number ≡ 0)
            × (pass.history ≡ [])
            × (pass.made ≡ 1)
            × (pass.ended ≡ None)) }
    {
        let Opened { table, mut book } = opened;
        let seat = steps::admit(&table, &mut book);
        let locked = Locked {
            apart: [0; APART],
            machine,
            made: 1,
            cause: None,
            book,
            of: PhantomData,
        };
        let pass = Pass {
            number: 0,
            seat,
            of: PhantomData,
        };
        let lock = HistoryLock {
            table,
            locked: Mutex::new(locked),
            turns: Turns::new(),
        };
        Ok((lock, pass))
    }

    /// Makes a new pass, with the next number. It is new: it is none of those that the old pass
    /// knew, and no entry has it. Both passes know the same then. It takes the lock and no memory.
    ///
    /// Full exactly where all 1,048,576 passes were made.
    pub fn admit<R: Wait>(&self, rt: &R, pass: &mut Pass<M, T>) -> Result<Pass<M, T>, AdmitRefused>
        ensures ok { IfOk result (λ new. Admitted M.caller_of M.legal pass.old new pass.new) }
        ensures full { IfErr result (λ r. NoneAdmitted M.caller_of M.legal pass.old r pass.new) }
        ensures learned { Learned M.caller_of M.legal pass.old pass.new }
    {
        self.take(rt).admit(&self.table, pass)
    }

    /// Calls the machine, with an operation that is ready in every state. On Ok the pass's history
    /// has grown by entries of others and then by the one that this call made; the reply is the
    /// machine's after the entries before it. No cause was kept when the entry was appended, and the
    /// pass had known of none. The lock itself takes no memory.
    ///
    /// Ended where `end` was called before, with the kept cause, which fits what the pass then
    /// knows, and which the pass then knows to be kept; Machine only where the machine refuses after
    /// the history that the pass then knows. A refused call adds no entry.
    pub fn call<R: Wait>(
        &self,
        rt: &R,
        pass: &mut Pass<M, T>,
        op: M::Op,
    ) -> Result<M::Reply, CallRefused<M::Op, M::Refusal>>
        requires { (list : List M.Item) → M.legal list → M.is_ready pass.old.number op list }
        ensures ok { IfOk result (λ reply.
            Answered M.caller_of M.legal M.is_ready M.gives pass.old op reply pass.new) }
        ensures err { IfErr result (λ r.
            Refused M.caller_of M.legal M.refuses M.fits pass.old op r pass.new) }
        ensures number { pass.new.number ≡ pass.old.number }
        ensures grows { IsPrefix pass.old.history pass.new.history }
    {
        self.call_held(self.take(rt), pass, op)
    }

    /// Calls the machine as `call` does, and then at once for a second pass, where the operation of
    /// that one is ready then: no other entry comes between. The second answer is as that of
    /// `call_if_ready`. Calls that wait for the first pass's own number are not woken where the second
    /// call was made, since that one did what they wait for.
    ///
    /// Where the first call is refused the second is not made.
    pub fn call_then<R: Wait>(
        &self,
        rt: &R,
        pass: &mut Pass<M, T>,
        op: M::Op,
        next: &mut Pass<M, T>,
        next_op: M::Op,
    ) -> Result<(M::Reply, NextAnswer<M>), CallRefused<M::Op, M::Refusal>>
    where
        M::Op: Drop,
        requires { (list : List M.Item) → M.legal list → M.is_ready pass.old.number op list }
        ensures ok { IfOk result (λ (reply, _).
            Answered M.caller_of M.legal M.is_ready M.gives pass.old op reply pass.new) }
        ensures err { IfErr result (λ r.
            Refused M.caller_of M.legal M.refuses M.fits pass.old op r pass.new) }
        ensures unmade { IfErr result (λ _. next.new ≡ next.old) }
        ensures next_none { IfOk result (λ (_, then). then ≡ None → next.new ≡ next.old) }
        ensures next_ok { IfOk result (λ (_, then). IfSome then (λ answer. IfOk answer (λ reply.
            Answered M.caller_of M.legal M.is_ready M.gives next.old next_op reply next.new))) }
        ensures next_err { IfOk result (λ (_, then). IfSome then (λ answer. IfErr answer (λ r.
            Refused M.caller_of M.legal M.refuses M.fits next.old next_op r next.new))) }
        ensures number { (pass.new.number ≡ pass.old.number) × (next.new.number ≡ next.old.number) }
        ensures grows { IsPrefix pass.old.history pass.new.history × IsPrefix next.old.history next.new.history }
    {
        let mut locked = self.take(rt);
        let (answer, woken) = locked.call_then(&self.table, pass, op, next, next_op);
        drop(locked);
        self.turns.wake(woken);
        answer
    }

    /// Waits until the operation is ready or the lock has ended, and then is as `call`.
    pub fn call_when_ready<R: Wait>(
        &self,
        rt: &R,
        pass: &mut Pass<M, T>,
        op: M::Op,
    ) -> Result<M::Reply, CallRefused<M::Op, M::Refusal>>
        ensures ok { IfOk result (λ reply.
            Answered M.caller_of M.legal M.is_ready M.gives pass.old op reply pass.new) }
        ensures err { IfErr result (λ r.
            Refused M.caller_of M.legal M.refuses M.fits pass.old op r pass.new) }
        ensures number { pass.new.number ≡ pass.old.number }
        ensures grows { IsPrefix pass.old.history pass.new.history }
    {
        let locked = self.lock_when_ready(rt, pass.number(), &op);
        self.call_held(locked, pass, op)
    }

    /// Is as `call`, where the operation is ready or the lock has ended. Elsewhere it is None, the
    /// pass has learned nothing, and the operation is dropped. It waits for the lock alone.
    pub fn call_if_ready<R: Wait>(
        &self,
        rt: &R,
        pass: &mut Pass<M, T>,
        op: M::Op,
    ) -> Option<Result<M::Reply, CallRefused<M::Op, M::Refusal>>>
    where
        M::Op: Drop,
        ensures none { result ≡ None → pass.new ≡ pass.old }
        ensures ok { IfSome result (λ answer. IfOk answer (λ reply.
            Answered M.caller_of M.legal M.is_ready M.gives pass.old op reply pass.new)) }
        ensures err { IfSome result (λ answer. IfErr answer (λ r.
            Refused M.caller_of M.legal M.refuses M.fits pass.old op r pass.new)) }
        ensures number { pass.new.number ≡ pass.old.number }
        ensures grows { IsPrefix pass.old.history pass.new.history }
    {
        let locked = self.take(rt);
        if locked.waits(pass.number(), &op) {
            return None;
        }
        Some(self.call_held(locked, pass, op))
    }

    /// Waits until the operation of the caller is ready or the lock has ended. It has no clause, since
    /// none speaks of waiting.
    pub fn wait_until_ready<R: Wait>(&self, rt: &R, caller: u32, op: &M::Op) {
        drop(self.lock_when_ready(rt, caller, op));
    }

    /// Takes the lock, once the operation of the caller is ready or the lock has ended.
    fn lock_when_ready<R: Wait>(
        &self,
        rt: &R,
        caller: u32,
        op: &M::Op,
    ) -> MutexGuard<'_, Locked<M, T>>
        ensures { let held = mutex_guard_value result in
            IsSome held.ended ⊎ M.is_ready caller op.now held.entries }
    {
        self.turns
            .of(M::awaits(op))
            .wait_while(rt, self.take(rt), |l| l.waits(caller, op))
    }

    /// Takes the lock. Each call holds it for some microseconds only, so this thread looks again and
    /// again, and lets others run in between: whoever holds the lock may be one that has to run on.
    /// It sleeps only where that was in vain, since a lock that is left to a sleeping thread is idle
    /// until that one runs.
    fn take<R: Wait>(&self, rt: &R) -> MutexGuard<'_, Locked<M, T>> {
        for _turn in 0..YIELDS {
            if let Some(locked) = self.look() {
                return locked;
            }
            thread::yield_now();
        }
        self.locked.lock(rt)
    }

    /// Takes the lock, if it is free within some looks.
    fn look(&self) -> Option<MutexGuard<'_, Locked<M, T>>> {
        for _look in 0..LOOKS {
            if let Some(locked) = self.locked.try_lock() {
                return Some(locked);
            }
        }
        None
    }

    /// Calls the machine while the lock is held, lets the lock go, and wakes whom the call wakes.
    fn call_held(
        &self,
        locked: MutexGuard<'_, Locked<M, T>>,
        pass: &mut Pass<M, T>,
        op: M::Op,
    ) -> Result<M::Reply, CallRefused<M::Op, M::Refusal>>
        requires { let held = mutex_guard_value locked in IsSome held.ended
            ⊎ (M.legal held.entries → M.is_ready pass.old.number op held.entries) }
        ensures ok { IfOk result (λ reply.
            Answered M.caller_of M.legal M.is_ready M.gives pass.old op reply pass.new) }
        ensures err { IfErr result (λ r.
            Refused M.caller_of M.legal M.refuses M.fits pass.old op r pass.new) }
        ensures number { pass.new.number ≡ pass.old.number }
        ensures grows { IsPrefix pass.old.history pass.new.history }
    {
        let mut locked = locked;
        let answer = locked.call(&self.table, pass, op);
        let woken = locked.woken(answer.is_ok(), Whom::All);
        drop(locked);
        self.turns.wake(woken);
        answer
    }

    /// Ends the lock by a cause that fits what the pass knows. The first cause is kept, and the
    /// answer is the kept one, which fits what the pass then knows, and which the pass then knows to
    /// be kept. A pass that knew the kept cause before is answered that one. No entry comes from
    /// then on, so a pass that knows the kept cause knows the whole history. It takes no memory.
    pub fn end<R: Wait>(&self, rt: &R, pass: &mut Pass<M, T>, cause: EndCause) -> EndCause
        requires { M.fits cause pass.old.history pass.old.made }
        ensures fits { M.fits result pass.new.history pass.new.made }
        ensures learned { Learned M.caller_of M.legal pass.old pass.new }
        ensures top { pass.new.made ≤ MOST_PASSES }
        ensures knows { pass.new.ended ≡ Some result }
        ensures knew { IfSome pass.old.ended (λ known. result ≡ known) }
    {
        let kept = self.take(rt).end(&self.table, pass, cause);
        self.turns.wake_all();
        kept
    }

    /// The kept cause, where the lock has ended. It fits what the pass then knows. The pass knows the
    /// kept cause then, if there is one, and else that none was kept when it looked. It takes the lock
    /// and no memory.
    pub fn kept_cause<R: Wait>(&self, rt: &R, pass: &mut Pass<M, T>) -> Option<EndCause>
        ensures fits { IfSome result (λ cause. M.fits cause pass.new.history pass.new.made) }
        ensures learned { Learned M.caller_of M.legal pass.old pass.new }
        ensures top { pass.new.made ≤ MOST_PASSES }
        ensures knows { pass.new.ended ≡ result }
    {
        self.take(rt).kept_cause(&self.table, pass)
    }

    /// Two passes tell each other what they know. Both know the longer of the two histories then,
    /// of which the other is a beginning, and neither has an entry more of its own. A kept cause that
    /// one of them knew both know then, and two that both knew are the same. It takes neither the
    /// lock nor memory.
    pub fn meet(&self, first: &mut Pass<M, T>, second: &mut Pass<M, T>)
        ensures equal { (first.new.history ≡ second.new.history)
            × (first.new.made ≡ second.new.made)
            × (first.new.ended ≡ second.new.ended) }
        ensures longer { first.new.history ≡ longer_of second.old.history first.old.history }
        ensures made { first.new.made ≡ max first.old.made second.old.made }
        ensures ended { first.new.ended ≡ known_or second.old.ended first.old.ended }
        ensures one_cause { (cause other : EndCause)
            → first.old.ended ≡ Some cause
            → second.old.ended ≡ Some other
            → cause ≡ other }
        ensures top { first.new.made ≤ MOST_PASSES }
        ensures first { Learned M.caller_of M.legal first.old first.new }
        ensures second { Learned M.caller_of M.legal second.old second.new }
    {
        take_note_of_pass(&self.table, second, first);
        take_note_of_pass(&self.table, first, second);
    }

    /// Ends the lock's life and gives the machine back. Its entries are legal, and begin with all
    /// that the pass had seen. They are just those where the pass knew a kept cause. It takes no
    /// memory.
    pub fn close(self, pass: Pass<M, T>) -> M
        ensures begins { IsPrefix pass.history (M.entries result) }
        ensures ended { IfSome pass.ended (λ _. M.entries result ≡ pass.history) }
        ensures legal { M.legal (M.entries result) }
    {
        let HistoryLock {
            table,
            locked,
            turns: _,
        } = self;
        let Locked {
            apart: _,
            machine,
            made: _,
            cause: _,
            mut book,
            of: _,
        } = locked.into_inner();
        let mut pass = pass;
        settle_receipt(&table, &mut book, &mut pass);
        machine
    }
}
