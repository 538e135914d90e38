// The kinds of step, taken at a table. Each proves from the rule that the step may be taken, and
// says what it makes of the views.
ghost use Rattle.std.specs.Prelude.{◌≡◌, ◌+◌, ◌<◌, ◌^◌, ◌⊎◌, [], ◌∷◌, ◌++◌, None, Some, length, IfOk};
ghost use Rattle.history_lock.specs.declared.view.Kind.TheVariants.{Book, Caller, Note, Receipt};
ghost use Rattle.history_lock.specs.declared.machine.TheConstants.{MOST_PASSES};
ghost use Rattle.history_lock.specs.Rule.{IsTold, opened};
ghost use Rattle.history_lock.specs.Views.{view_of, slots_of, with_view};
ghost use Rattle.history_lock.specs.Kinds.{counted_up, newcomer, appended, ended_by, note_of, taken, receipt_of, settled};

use crate::machine::{EndCause, Machine};
use crate::plays::{
    Admits, Appends, Ending, Ends, Notes, Reads, Receipts, Settles, Takes, Written,
};
use crate::view::{LockSeat, LockTable};
use atomic_table::Table;
use std::alloc::{AllocError, Global};

/// Makes a table of one word, which is 0, and the book's seat at it.
pub fn open<M: Machine>(alloc: Global) -> Result<(LockTable<M>, LockSeat<M>), AllocError>
    ensures { IfOk result (λ (table, book). (table.shared.table_id.words ≡ 1)
        × (book.table_id ≡ table.shared.table_id)
        × (book.me ≡ (opened, []))) }
{
    Table::of_words(alloc, &[0], &())
}

/// A seat reads the word, and learns what the rule says of its view.
pub fn read<M: Machine>(table: &LockTable<M>, seat: &mut LockSeat<M>)
    requires { (seat.old.table_id ≡ table.now.shared.table_id)
        × (table.now.shared.table_id.words ≡ 1) }
    ensures same { (seat.new.table_id ≡ seat.old.table_id) × (seat.new.me ≡ seat.old.me) }
    ensures told { IsTold M.caller_of M.legal (view_of seat.old.me) }
{
    table.shared.load::<Reads<M>>(seat, 0);
}

/// The book adds 1 to the word, for the entry that the machine has beyond the book's history.
pub fn append<M: Machine, W: Written<M::Item>>(
    table: &LockTable<M>,
    book: &mut LockSeat<M>,
    machine: &M,
)
    requires table { (book.old.table_id ≡ table.now.shared.table_id)
        × (table.now.shared.table_id.words ≡ 1) }
    requires book { ((view_of book.old.me).kind ≡ Book)
        × ((view_of book.old.me).in_flight ≡ None)
        × ((view_of book.old.me).ended ≡ None) }
    requires written { W.written ≡ M.entries machine.now }
    requires legal { M.legal (M.entries machine.now) }
    requires entry { (e : M.Item)
        × (M.entries machine.now ≡ (view_of book.old.me).history ++ e ∷ [])
        × (M.caller_of e < (view_of book.old.me).made) }
    ensures same { (book.new.table_id ≡ book.old.table_id) × (slots_of book.new.me ≡ slots_of book.old.me) }
    ensures entry { (e : M.Item)
        × (M.entries machine.now ≡ (view_of book.old.me).history ++ e ∷ [])
        × (view_of book.new.me ≡ appended M.caller_of (view_of book.old.me) e) }
{
    let _machine = machine;
    table.shared.fetch_add::<Appends<M, W>>(book, 0, 1);
}

/// The book knows a cause as the kept one, where it knew none.
pub fn end<M: Machine, E: Ending>(table: &LockTable<M>, book: &mut LockSeat<M>, cause: EndCause)
    requires table { (book.old.table_id ≡ table.now.shared.table_id)
        × (table.now.shared.table_id.words ≡ 1) }
    requires book { ((view_of book.old.me).kind ≡ Book) × ((view_of book.old.me).ended ≡ None) }
    requires cause { E.cause ≡ cause }
    ensures { (book.new.table_id ≡ book.old.table_id)
        × (book.new.me ≡ with_view (ended_by (view_of book.old.me) cause) book.old.me) }
{
    let _cause = cause;
    table.shared.load::<Ends<E>>(book, 0);
}

/// Makes the seat of the next caller.
pub fn admit<M: Machine>(table: &LockTable<M>, book: &mut LockSeat<M>) -> LockSeat<M>
    requires table { (book.old.table_id ≡ table.now.shared.table_id)
        × (table.now.shared.table_id.words ≡ 1) }
    requires book { ((view_of book.old.me).kind ≡ Book)
        × ((view_of book.old.me).in_flight ≡ None)
        × ((view_of book.old.me).made < MOST_PASSES) }
    ensures same { (book.new.table_id ≡ book.old.table_id)
        × (book.new.me ≡ with_view (counted_up (view_of book.old.me)) book.old.me) }
    ensures new { (result.table_id ≡ book.old.table_id) × (result.me ≡ (newcomer (view_of book.old.me), [])) }
{
    table.shared.split_seat::<Admits>(book)
}

/// Writes down what the seat knows.
pub fn note<M: Machine>(table: &LockTable<M>, seat: &mut LockSeat<M>) -> LockSeat<M>
    requires { (seat.old.table_id ≡ table.now.shared.table_id)
        × (table.now.shared.table_id.words ≡ 1) }
    ensures same { (seat.new.table_id ≡ seat.old.table_id) × (seat.new.me ≡ seat.old.me) }
    ensures new { (result.table_id ≡ seat.old.table_id) × (result.me ≡ (note_of (view_of seat.old.me), [])) }
{
    table.shared.split_seat::<Notes>(seat)
}

/// Writes down what a caller knows, under its number.
pub fn receipt<M: Machine>(table: &LockTable<M>, seat: &mut LockSeat<M>) -> LockSeat<M>
    requires table { (seat.old.table_id ≡ table.now.shared.table_id)
        × (table.now.shared.table_id.words ≡ 1) }
    requires caller { (view_of seat.old.me).kind ≡ Caller }
    ensures same { (seat.new.table_id ≡ seat.old.table_id) × (seat.new.me ≡ seat.old.me) }
    ensures new { (result.table_id ≡ seat.old.table_id) × (result.me ≡ (receipt_of (view_of seat.old.me), [])) }
{
    table.shared.split_seat::<Receipts>(seat)
}

/// A caller learns what a note says that names nobody or this caller.
pub fn take<M: Machine>(table: &LockTable<M>, seat: &mut LockSeat<M>, note: LockSeat<M>)
    requires table { (seat.old.table_id ≡ table.now.shared.table_id)
        × (note.table_id ≡ table.now.shared.table_id)
        × (table.now.shared.table_id.words ≡ 1) }
    requires caller { (view_of seat.old.me).kind ≡ Caller }
    requires note { (slots_of note.me ≡ [])
        × ((view_of note.me).kind ≡ Note)
        × (((view_of note.me).in_flight ≡ None) ⊎ ((view_of note.me).in_flight ≡ Some (view_of seat.old.me).number)) }
    ensures { (seat.new.table_id ≡ seat.old.table_id)
        × (seat.new.me ≡ with_view (taken (view_of seat.old.me) (view_of note.me)) seat.old.me) }
{
    table.shared.join_seat::<Takes>(seat, note);
}

/// The book learns what a receipt says.
pub fn settle<M: Machine>(table: &LockTable<M>, book: &mut LockSeat<M>, receipt: LockSeat<M>)
    requires table { (book.old.table_id ≡ table.now.shared.table_id)
        × (receipt.table_id ≡ table.now.shared.table_id)
        × (table.now.shared.table_id.words ≡ 1) }
    requires book { (view_of book.old.me).kind ≡ Book }
    requires receipt { (slots_of receipt.me ≡ []) × ((view_of receipt.me).kind ≡ Receipt) }
    ensures { (book.new.table_id ≡ book.old.table_id)
        × (book.new.me ≡ with_view (settled (view_of book.old.me) (view_of receipt.me)) book.old.me) }
{
    table.shared.join_seat::<Settles>(book, receipt);
}
