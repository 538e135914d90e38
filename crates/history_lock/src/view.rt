// What a seat at the lock's table knows.
use crate::machine::{EndCause, Machine};
use atomic_table::{Seat, Table, TableRule};
use std::alloc::Global;
use std::collections::LinkedList;
use std::marker::PhantomData;

/// Whose view it is.
pub enum Kind {
    /// The book, which the locked value holds: it knows the whole history.
    Book,
    /// A caller, which a pass holds.
    Caller,
    /// A copy of what the book or a caller knows, which a caller takes in.
    Note,
    /// What a caller knows, which the book settles.
    Receipt,
    /// A note or a receipt that was taken in.
    Spent,
}

/// What a seat at the table knows. It stands in proofs alone: no value of it is made.
pub struct View<I> {
    pub kind: Kind,
    /// The number, of a caller and of a receipt.
    pub number: u64,
    /// The entries that it knows, the oldest first.
    pub history: LinkedList<I>,
    /// How many passes it knows to be made.
    pub made: u64,
    /// The kept cause, if it knows one: its history is the whole one then.
    pub ended: Option<EndCause>,
    /// Of the book: the caller of the last entry, until that caller knows it. Of a note of the
    /// book: the same at that time.
    pub in_flight: Option<u64>,
    /// Of a caller: the history that it had before it took a note. Of the book: the history of the
    /// receipt that it settled.
    pub old_history: LinkedList<I>,
    /// Of the book: the count in the receipt that it settled.
    pub old_made: u64,
    /// The kept cause that it knew then: of a caller before it took a note, of the book in the
    /// receipt.
    pub old_ended: Option<EndCause>,
    /// Of a caller: the history in the note that it took.
    pub note_history: LinkedList<I>,
    /// Of a caller: whom that note names.
    pub note_name: Option<u64>,
    /// Of a caller: the kept cause in that note.
    pub note_ended: Option<EndCause>,
}

/// The rule of the lock's table, for the machine `M`.
pub struct Counted<M> {
    of: PhantomData<M>,
}

impl<M: Machine> TableRule<(), View<M::Item>, ()> for Counted<M> {
    ghost use Rattle.history_lock.specs.Rule.{holds_rule, opened};

    ghost holds = { λ _. holds_rule M.caller_of M.legal };

    ghost first = { λ _. opened };
}

/// The table of a lock over the machine `M`: one word, which counts the entries, and no slot.
pub type LockTable<M> = Table<(), View<<M as Machine>::Item>, (), Counted<M>, Global>;

/// A seat at that table.
pub type LockSeat<M> = Seat<(), View<<M as Machine>::Item>>;

impl<M: Machine> Counted<M> {
    ghost use Rattle.std.specs.Prelude.{ℕ, List};
    ghost use Rattle.history_lock.specs.Rule.{MeetsRule};
    ghost use Rattle.history_lock.specs.PlainRule.{MeetsPlainRule};
    ghost use Rattle.history_lock.specs.declared.view.View.{View};

    /// The rule is stronger than its plain sentences: they hold of each table of which it holds.
    #[tactic(auto, using(crate::proofs::PlainSentences::plain_from_rule))]
    pub fn implies_plain_rule()
        ensures { (words : List ℕ) (views : List (View M.Item))
            → MeetsRule M.caller_of M.legal words views
            → MeetsPlainRule M.caller_of M.legal words views }
    {}
}
