// The value under the lock, and what a call does while it holds it.
ghost use Rattle.std.specs.Prelude.{max, ◌≡◌, ℕ, suc, ◌+◌, ◌<◌, ◌≤◌, ◌⊎◌, List, [], ◌∷◌, ◌++◌, length, None, Some, IfOk, IfErr, MatchResult, MatchOption, IfSome, IsSome, true, false};
ghost use mathlib.Core.List.{IsPrefix};
ghost use Rattle.history_lock.specs.declared.view.Kind.TheVariants.{Book};
ghost use Rattle.history_lock.specs.declared.woken.Whom.TheVariants.{All, Others};
ghost use Rattle.history_lock.specs.Entries.{CallersBelow, OwnBelow, OwnBelowOrLast};
ghost use Rattle.history_lock.specs.Causes.{KnowsEnd, known_or};
ghost use Rattle.history_lock.specs.Names.{IsNamed};
ghost use Rattle.history_lock.specs.Views.{view_of, with_view};
ghost use Rattle.history_lock.specs.Waking.{Wakes};
ghost use Rattle.history_lock.specs.Kinds.{ended_by, longer_of};
ghost use Rattle.history_lock.specs.Calls.{Learned, Answered, Refused, IsEndedBy, Admitted, NoneAdmitted};

use crate::machine::{EndCause, MOST_PASSES, Machine};
use crate::pass::{Pass, TableName};
use crate::refused::{AdmitRefused, CallRefused};
use crate::steps;
use crate::view::{LockSeat, LockTable};
use crate::woken::{Whom, Woken};
use std::marker::{Brand, Model, PhantomData};

/// So many words of eight bytes fill, with the word of the lock, a cache line and the one that is
/// fetched with it.
pub const APART: usize = 15;

/// What a machine answers to a call that is made only where it need not wait.
pub type NextAnswer<M> = Option<
    Result<<M as Machine>::Reply, CallRefused<<M as Machine>::Op, <M as Machine>::Refusal>>,
>;

/// What lies under the lock: the machine, and the book's seat, which knows the whole history.
/// Contracts see the machine's entries, how many passes were made, and the kept cause.
#[derive(Drop)]
pub struct Locked<M: Machine, T: TableName> {
    /// Room that keeps the word of the lock, which those that wait look at, out of the machine's
    /// cache line.
    pub(crate) apart: [u64; APART],
    pub(crate) machine: M,
    pub(crate) made: u32,
    pub(crate) cause: Option<EndCause>,
    pub(crate) book: LockSeat<M>,
    pub(crate) of: PhantomData<T>,
}

impl<M: Machine, T: TableName> Model for Locked<M, T> {
    ghost use Rattle.std.specs.Prelude.{◌≡◌, ◌≤◌};
    ghost use Rattle.history_lock.specs.declared.machine.TheConstants.{MOST_PASSES};
    ghost use Rattle.history_lock.specs.Known.{Held};
    ghost use Rattle.history_lock.specs.Calls.{IsBook, CauseFits};
    ghost use Rattle.history_lock.specs.Views.{view_of};

    ghost Value = { Held M.Item };

    ghost view = { λ l. record { entries = M.entries l.machine; made = l.made; ended = l.cause } };

    ghost invariant = { λ l. (l.book.table_id ≡ T.table)
        × IsBook (view_of l.book.me) (M.entries l.machine) l.made l.cause
        × (l.made ≤ MOST_PASSES)
        × CauseFits M.fits l.cause (M.entries l.machine) l.made };
}

/// The book settles a receipt of the pass and reads, so it learns that the pass's history begins
/// its own.
pub fn settle_receipt<M: Machine, T: TableName>(
    table: &LockTable<M>,
    book: &mut LockSeat<M>,
    pass: &mut Pass<M, T>,
)
    requires table { IsNamed table.now.shared.table_id T.table }
    requires seat { book.old.table_id ≡ T.table }
    requires book { (view_of book.old.me).kind ≡ Book }
    ensures seat { (book.new.table_id ≡ T.table) × ((view_of book.new.me).kind ≡ Book) }
    ensures book_history { (view_of book.new.me).history ≡ (view_of book.old.me).history }
    ensures book_made { (view_of book.new.me).made ≡ (view_of book.old.me).made }
    ensures book_ended { (view_of book.new.me).ended ≡ (view_of book.old.me).ended }
    ensures idle { (view_of book.old.me).in_flight ≡ None → (view_of book.new.me).in_flight ≡ None }
    ensures lands { (view_of book.old.me).in_flight ≡ Some pass.old.number
        → pass.old.history ≡ (view_of book.old.me).history
        → (view_of book.new.me).in_flight ≡ None }
    ensures pass { pass.new ≡ pass.old }
    ensures begins { IsPrefix pass.old.history (view_of book.old.me).history }
    ensures made { pass.old.made ≤ (view_of book.old.me).made }
    ensures ended { KnowsEnd pass.old.ended pass.old.history
        (view_of book.old.me).ended (view_of book.old.me).history }
    ensures top { (view_of book.old.me).made ≤ MOST_PASSES }
    ensures number { pass.old.number < pass.old.made }
    ensures legal { M.legal (view_of book.old.me).history }
    ensures callers { CallersBelow M.caller_of (view_of book.old.me).history (view_of book.old.me).made }
{
    let token = steps::receipt(table, &mut pass.seat);
    steps::settle(table, book, token);
    steps::read(table, book);
}

/// The pass takes a note of the book and reads, so it learns the book's history, and which entries
/// of it are its own.
pub fn take_note_of_book<M: Machine, T: TableName>(
    table: &LockTable<M>,
    book: &mut LockSeat<M>,
    pass: &mut Pass<M, T>,
)
    requires table { IsNamed table.now.shared.table_id T.table }
    requires seat { book.old.table_id ≡ T.table }
    requires begins { IsPrefix pass.old.history (view_of book.old.me).history }
    requires counted { pass.old.made ≤ (view_of book.old.me).made }
    requires names { ((view_of book.old.me).in_flight ≡ None)
        ⊎ ((view_of book.old.me).in_flight ≡ Some pass.old.number) }
    ensures book { (book.new.table_id ≡ T.table) × (book.new.me ≡ book.old.me) }
    ensures history { pass.new.history ≡ (view_of book.old.me).history }
    ensures made { pass.new.made ≡ (view_of book.old.me).made }
    ensures ended { pass.new.ended ≡ known_or pass.old.ended (view_of book.old.me).ended }
    ensures known { KnowsEnd pass.old.ended pass.old.history pass.new.ended pass.new.history }
    ensures number { pass.new.number ≡ pass.old.number }
    ensures legal { M.legal pass.new.history }
    ensures top { pass.new.made ≤ MOST_PASSES }
    ensures own { OwnBelowOrLast M.caller_of pass.old.number (view_of book.old.me).history
        (length pass.old.history) (view_of book.old.me).in_flight (length (view_of book.old.me).history) }
{
    let note = steps::note(table, book);
    steps::take(table, &mut pass.seat, note);
    steps::read(table, &mut pass.seat);
}

/// One pass takes a note of another and reads, so it learns what the other knows.
pub fn take_note_of_pass<M: Machine, T: TableName>(
    table: &LockTable<M>,
    to: &mut Pass<M, T>,
    from: &mut Pass<M, T>,
)
    requires table { IsNamed table.now.shared.table_id T.table }
    ensures from { from.new ≡ from.old }
    ensures longer { to.new.history ≡ longer_of to.old.history from.old.history }
    ensures made { to.new.made ≡ max to.old.made from.old.made }
    ensures ended { to.new.ended ≡ known_or to.old.ended from.old.ended }
    ensures known { KnowsEnd to.old.ended to.old.history to.new.ended to.new.history }
    ensures told { KnowsEnd from.old.ended from.old.history to.new.ended to.new.history }
    ensures begins { IsPrefix to.old.history to.new.history }
    ensures covers { IsPrefix from.old.history to.new.history }
    ensures number { to.new.number ≡ to.old.number }
    ensures legal { M.legal to.new.history }
    ensures top { to.new.made ≤ MOST_PASSES }
    ensures own { OwnBelow M.caller_of to.old.number to.new.history (length to.old.history) }
{
    let note = steps::note(table, &mut from.seat);
    steps::take(table, &mut to.seat, note);
    steps::read(table, &mut to.seat);
}

/// Keeps a cause, unless one is kept already, and answers the kept one, which the book then knows.
fn keep_cause<M: Machine>(
    table: &LockTable<M>,
    book: &mut LockSeat<M>,
    kept: Option<EndCause>,
    cause: EndCause,
) -> EndCause
    requires table { (book.old.table_id ≡ table.now.shared.table_id)
        × (table.now.shared.table_id.words ≡ 1) }
    requires book { ((view_of book.old.me).kind ≡ Book) × ((view_of book.old.me).ended ≡ kept) }
    ensures first { MatchOption kept (result ≡ cause) (λ first. result ≡ first) }
    ensures seat { book.new.table_id ≡ book.old.table_id }
    ensures book { book.new.me ≡ with_view (ended_by (view_of book.old.me) result) book.old.me }
{
    match kept {
        Some(first) => first,
        None => {
            steps::end::<M, Brand>(table, book, cause);
            cause
        }
    }
}

impl<M: Machine, T: TableName> Locked<M, T> {
    /// Calls the machine for the pass, unless the lock has ended.
    pub fn call(
        &mut self,
        table: &LockTable<M>,
        pass: &mut Pass<M, T>,
        op: M::Op,
    ) -> Result<M::Reply, CallRefused<M::Op, M::Refusal>>
        requires table { IsNamed table.now.shared.table_id T.table }
        requires turn { IsSome self.old.ended
            ⊎ (M.legal self.old.entries → M.is_ready pass.old.number op self.old.entries) }
        ensures ok { IfOk result (λ reply.
            Answered M.caller_of M.legal M.is_ready M.gives pass.old op reply pass.new) }
        ensures err { IfErr result (λ r.
            Refused M.caller_of M.legal M.refuses M.fits pass.old op r pass.new) }
        ensures whole { pass.new.history ≡ self.new.entries }
        ensures not_ended { IfOk result (λ _. self.old.ended ≡ None) }
        ensures refused { IfErr result (λ r. (self.new.entries ≡ self.old.entries) × IsEndedBy r self.old.ended) }
        ensures rest { (self.new.made ≡ self.old.made) × (self.new.ended ≡ self.old.ended) }
    {
        settle_receipt(table, &mut self.book, pass);
        if let Some(cause) = self.cause {
            take_note_of_book(table, &mut self.book, pass);
            return Err(CallRefused::Ended { cause, op });
        }
        match self.machine.apply(pass.number(), op) {
            Ok(reply) => {
                steps::append::<M, Brand>(table, &mut self.book, &self.machine);
                take_note_of_book(table, &mut self.book, pass);
                settle_receipt(table, &mut self.book, pass);
                Ok(reply)
            }
            Err((refusal, op)) => {
                take_note_of_book(table, &mut self.book, pass); // what it is refused after
                Err(CallRefused::Machine { refusal, op })
            }
        }
    }

    /// Calls the machine for the pass, unless that has to wait.
    fn call_if_ready(
        &mut self,
        table: &LockTable<M>,
        pass: &mut Pass<M, T>,
        op: M::Op,
    ) -> NextAnswer<M>
    where
        M::Op: Drop,
        requires { IsNamed table.now.shared.table_id T.table }
        ensures none { result ≡ None → pass.new ≡ pass.old }
        ensures ok { IfSome result (λ answer. IfOk answer (λ reply.
            Answered M.caller_of M.legal M.is_ready M.gives pass.old op reply pass.new)) }
        ensures err { IfSome result (λ answer. IfErr answer (λ r.
            Refused M.caller_of M.legal M.refuses M.fits pass.old op r pass.new)) }
        ensures number { pass.new.number ≡ pass.old.number }
        ensures grows { IsPrefix pass.old.history pass.new.history }
    {
        if self.waits(pass.number(), &op) {
            return None;
        }
        Some(self.call(table, pass, op))
    }

    /// Calls the machine for the pass, and then for the next one, unless that has to wait. Tells whom
    /// this wakes: all that the two entries have made ready, but those that wait for the pass's own
    /// number where the next one was called.
    pub fn call_then(
        &mut self,
        table: &LockTable<M>,
        pass: &mut Pass<M, T>,
        op: M::Op,
        next: &mut Pass<M, T>,
        next_op: M::Op,
    ) -> (
        Result<(M::Reply, NextAnswer<M>), CallRefused<M::Op, M::Refusal>>,
        Woken,
    )
    where
        M::Op: Drop,
        requires table { IsNamed table.now.shared.table_id T.table }
        requires turn { M.legal self.old.entries → M.is_ready pass.old.number op self.old.entries }
        ensures ok { let (answer, _) = result in IfOk answer (λ (reply, _).
            Answered M.caller_of M.legal M.is_ready M.gives pass.old op reply pass.new) }
        ensures err { let (answer, _) = result in IfErr answer (λ r.
            Refused M.caller_of M.legal M.refuses M.fits pass.old op r pass.new) }
        ensures unmade { let (answer, _) = result in IfErr answer (λ _. next.new ≡ next.old) }
        ensures next_none { let (answer, _) = result in IfOk answer (λ (_, then). then ≡ None → next.new ≡ next.old) }
        ensures next_ok { let (answer, _) = result in IfOk answer (λ (_, then). IfSome then (λ a. IfOk a (λ reply.
            Answered M.caller_of M.legal M.is_ready M.gives next.old next_op reply next.new))) }
        ensures next_err { let (answer, _) = result in IfOk answer (λ (_, then). IfSome then (λ a. IfErr a (λ r.
            Refused M.caller_of M.legal M.refuses M.fits next.old next_op r next.new))) }
        ensures number { (pass.new.number ≡ pass.old.number) × (next.new.number ≡ next.old.number) }
        ensures grows { IsPrefix pass.old.history pass.new.history × IsPrefix next.old.history next.new.history }
    {
        let reply = match self.call(table, pass, op) {
            Ok(reply) => reply,
            Err(refused) => return (Err(refused), Woken::nobody()),
        };
        let (all, others) = (self.woken(true, Whom::All), self.woken(true, Whom::Others));
        match self.call_if_ready(table, next, next_op) {
            None => (Ok((reply, None)), all),
            Some(answer) => {
                let also = self.woken(answer.is_ok(), Whom::All);
                (Ok((reply, Some(answer))), others.and(also))
            }
        }
    }

    /// Whether a call has to wait: the lock has not ended, and the operation is not ready.
    pub fn waits(&self, caller: u32, op: &M::Op) -> bool
        ensures goes { result ≡ false → IsSome self.now.ended ⊎ M.is_ready caller op.now self.now.entries }
        ensures waits { result ≡ true → (self.now.ended ≡ None) × ¬ M.is_ready caller op.now self.now.entries }
    {
        self.cause.is_none() && !self.machine.ready(caller, op)
    }

    /// Whom a call wakes, if it made an entry: all that this has made ready, or all of these but
    /// those that wait for the caller's own number.
    pub fn woken(&self, made_entry: bool, whom: Whom) -> Woken
        ensures all { (list : List M.Item) (e : M.Item) (caller : ℕ) (op : M.Op)
            → made_entry ≡ true
            → whom ≡ All
            → self.now.entries ≡ list ++ e ∷ []
            → M.is_ready caller op self.now.entries
            → M.is_ready caller op list ⊎ Wakes result (M.awaited op) }
        ensures others { (list : List M.Item) (e : M.Item) (caller : ℕ) (op : M.Op)
            → made_entry ≡ true
            → whom ≡ Others
            → self.now.entries ≡ list ++ e ∷ []
            → M.is_ready caller op self.now.entries
            → M.is_ready caller op list ⊎ (M.awaited op ≡ M.caller_of e) ⊎ Wakes result (M.awaited op) }
    {
        if !made_entry {
            return Woken::nobody();
        }
        match whom {
            Whom::All => self.machine.woken(),
            Whom::Others => self.machine.woken_others(),
        }
    }

    /// Makes a new pass, which knows the whole history. The old pass then knows it too.
    pub fn admit(
        &mut self,
        table: &LockTable<M>,
        pass: &mut Pass<M, T>,
    ) -> Result<Pass<M, T>, AdmitRefused>
        requires { IsNamed table.now.shared.table_id T.table }
        ensures ok { IfOk result (λ new. Admitted M.caller_of M.legal pass.old new pass.new) }
        ensures full { IfErr result (λ r. NoneAdmitted M.caller_of M.legal pass.old r pass.new) }
        ensures made { IfOk result (λ new. (new.number ≡ self.old.made) × (self.new.made ≡ self.old.made + 1)) }
        ensures only_full { IfErr result (λ _. (self.old.made ≡ MOST_PASSES) × (self.new.made ≡ self.old.made)) }
        ensures whole { pass.new.history ≡ self.old.entries }
        ensures rest { (self.new.entries ≡ self.old.entries) × (self.new.ended ≡ self.old.ended) }
    {
        settle_receipt(table, &mut self.book, pass);
        if self.made >= MOST_PASSES {
            take_note_of_book(table, &mut self.book, pass);
            return Err(AdmitRefused::Full {
                admitted: self.made,
            });
        }
        let number = self.made;
        let seat = steps::admit(table, &mut self.book);
        self.made += 1;
        take_note_of_book(table, &mut self.book, pass);
        Ok(Pass {
            number,
            seat,
            of: PhantomData,
        })
    }

    /// The kept cause, if there is one, which the pass then knows with the whole history.
    pub fn kept_cause(&mut self, table: &LockTable<M>, pass: &mut Pass<M, T>) -> Option<EndCause>
        requires { IsNamed table.now.shared.table_id T.table }
        ensures fits { IfSome result (λ cause. M.fits cause pass.new.history pass.new.made) }
        ensures learned { Learned M.caller_of M.legal pass.old pass.new }
        ensures top { pass.new.made ≤ MOST_PASSES }
        ensures knows { pass.new.ended ≡ result }
        ensures kept { result ≡ self.old.ended }
        ensures whole { pass.new.history ≡ self.old.entries }
        ensures rest { self.new ≡ self.old }
    {
        settle_receipt(table, &mut self.book, pass);
        take_note_of_book(table, &mut self.book, pass);
        self.cause
    }

    /// Keeps the cause, unless one is kept already, and answers the kept one, which the pass then
    /// knows.
    pub fn end(&mut self, table: &LockTable<M>, pass: &mut Pass<M, T>, cause: EndCause) -> EndCause
        requires table { IsNamed table.now.shared.table_id T.table }
        requires fits { M.fits cause pass.old.history pass.old.made }
        ensures fits { M.fits result pass.new.history pass.new.made }
        ensures learned { Learned M.caller_of M.legal pass.old pass.new }
        ensures top { pass.new.made ≤ MOST_PASSES }
        ensures knows { pass.new.ended ≡ Some result }
        ensures knew { IfSome pass.old.ended (λ known. result ≡ known) }
        ensures kept { self.new.ended ≡ Some result }
        ensures first { MatchOption self.old.ended (result ≡ cause) (λ first. result ≡ first) }
        ensures whole { pass.new.history ≡ self.old.entries }
        ensures rest { (self.new.entries ≡ self.old.entries) × (self.new.made ≡ self.old.made) }
    {
        settle_receipt(table, &mut self.book, pass);
        let kept = keep_cause(table, &mut self.book, self.cause, cause);
        self.cause = Some(kept);
        take_note_of_book(table, &mut self.book, pass);
        kept
    }
}
