// The kinds of step: open is the rule's first view, and the other eight stand here.
use crate::machine::Machine;
use crate::view::View;
use atomic_table::{Join, Play, Split};
use std::marker::{Brand, PhantomData};

/// Read: a seat loads the word, and learns what the rule says of its view.
pub struct Reads<M> {
    of: PhantomData<M>,
}

impl<M: Machine> Play<(), View<M::Item>> for Reads<M> {
    ghost use Rattle.history_lock.specs.Plays.{Told};

    ghost then = { Told M.caller_of M.legal };
}

/// The list that the book's history becomes by an append. Each append picks it, since a kind of
/// step has no parameter.
pub trait Written<I> {
    ghost use Rattle.std.specs.Prelude.{List};

    /// The list.
    ghost written: { List I };
}

impl<I> Written<I> for Brand {
    ghost use Rattle.std.specs.Prelude.{[]};

    ghost written = { [] };
}

/// Append: the book adds 1 to the word, and its history becomes the list `W`.
pub struct Appends<M, W> {
    of: PhantomData<(M, W)>,
}

impl<M: Machine, W: Written<M::Item>> Play<(), View<M::Item>> for Appends<M, W> {
    ghost use Rattle.history_lock.specs.Plays.{Appended};

    ghost then = { Appended M.caller_of W.written };
}

/// The cause by which an end ends the lock. Each end picks it, as an append picks its list.
pub trait Ending {
    ghost use Rattle.history_lock.specs.declared.machine.EndCause.{EndCause};

    /// The cause.
    ghost cause: { EndCause };
}

impl Ending for Brand {
    ghost use Rattle.history_lock.specs.declared.machine.EndCause.TheVariants.{NoMemory};

    ghost cause = { NoMemory };
}

/// End: the book reads the word, and knows the cause `E` as the kept one.
pub struct Ends<E> {
    of: PhantomData<E>,
}

impl<I, E: Ending> Play<(), View<I>> for Ends<E> {
    ghost use Rattle.history_lock.specs.Plays.{EndedBy};

    ghost then = { EndedBy E.cause };
}

/// Admit: the book counts one pass more, and a new caller has the next number.
pub struct Admits;

impl<I> Split<View<I>> for Admits {
    ghost use Rattle.history_lock.specs.Kinds.{counted_up, newcomer};

    ghost left = { counted_up };

    ghost right = { newcomer };
}

/// Note: the book or a caller writes down what it knows.
pub struct Notes;

impl<I> Split<View<I>> for Notes {
    ghost use Rattle.history_lock.specs.Kinds.{note_of};

    ghost left = { λ v. v };

    ghost right = { note_of };
}

/// Receipt: a caller writes down what it knows, under its number.
pub struct Receipts;

impl<I> Split<View<I>> for Receipts {
    ghost use Rattle.history_lock.specs.Kinds.{receipt_of};

    ghost left = { λ v. v };

    ghost right = { receipt_of };
}

/// Take: a caller learns what a note says.
pub struct Takes;

impl<I> Join<View<I>> for Takes {
    ghost use Rattle.history_lock.specs.Kinds.{taken, spent};

    ghost both = { taken };

    ghost spent = { spent };
}

/// Settle: the book learns what a receipt says.
pub struct Settles;

impl<I> Join<View<I>> for Settles {
    ghost use Rattle.history_lock.specs.Kinds.{settled, spent};

    ghost both = { settled };

    ghost spent = { spent };
}
