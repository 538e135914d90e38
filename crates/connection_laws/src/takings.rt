// What a connection has taken of the outputs to another.
ghost use Rattle.std.specs.Prelude.{ℕ, ◌+◌, ◌≤◌, ◌≡◌, List, [], ◌++◌, Bool, false, length};
ghost use Rattle.history_lock.specs.Known.{Known};
ghost use Rattle.history_lock.specs.Entries.{NoneBy};
ghost use Rattle.history_lock.specs.Calls.{Learned};
ghost use Rattle.authority_model.specs.declared.journal.Item.{Item};
ghost use Rattle.authority_model.specs.Legal.{Legal};
ghost use Rattle.authority_model.specs.Sent.{batch, collected, sent_to};
ghost use Rattle.authority_laws.specs.Batches.{collect_given, greatest_load, loads_in, taken};
ghost use Rattle.shared_authority.specs.Journals.{IsJournal, caller_of, past_of};
ghost use Rattle.shared_authority.specs.Passes.{Entered};
ghost use Rattle.connection_laws.specs.Takings.{Finds, are_none};

/// A connection that has no item has taken nothing, and takes nothing while others' items come. What
/// it has taken names loads of the history.
pub fn takings_stay()
    ensures none { (by c : ℕ) (history : List Item) → NoneBy caller_of by history → taken (past_of history) by c ≡ [] }
    ensures others { (by c : ℕ) (v w : Known Item) → v.number ≡ by → Learned caller_of IsJournal v w → taken (past_of w.history) by c ≡ taken (past_of v.history) by c }
    ensures named { (past : List Item) (by c : ℕ) → Legal past → greatest_load (taken past by c) ≤ length (loads_in past) }
{}

/// With its own Collect a connection has taken all outputs there are. They are what it had taken
/// before, and then the outputs that were left; the first of these has the next number.
pub fn collects_take_all()
    ensures all { (by c : ℕ) (v w : Known Item) → v.number ≡ by → Entered v (collect_given by c) w → sent_to (past_of w.history) c ≡ taken (past_of w.history) by c }
    ensures more { (by c : ℕ) (v w : Known Item) → v.number ≡ by → (e : Entered v (collect_given by c) w)
        → taken (past_of w.history) by c ≡ taken (past_of v.history) by c ++ batch (past_of e.learned.grown.before) by c }
    ensures number { (by c : ℕ) (v w : Known Item) → v.number ≡ by → (e : Entered v (collect_given by c) w)
        → collected (past_of e.learned.grown.before) by c ≡ length (taken (past_of v.history) by c) }
{}

/// A connection that has no item made no Collect, and makes none while others' items come. Where
/// each of its Collects found outputs, the next one is the only one that may find none.
pub fn collects_find()
    ensures none { (by c : ℕ) (history : List Item) → NoneBy caller_of by history → Finds by c (past_of history) false }
    ensures others { (by c : ℕ) (v w : Known Item) (gone : Bool) → v.number ≡ by → Learned caller_of IsJournal v w → Finds by c (past_of v.history) gone → Finds by c (past_of w.history) gone }
    ensures own { (by c : ℕ) (v w : Known Item) (gone : Bool) → v.number ≡ by → (e : Entered v (collect_given by c) w)
        → are_none (batch (past_of e.learned.grown.before) by c) ≡ gone → Finds by c (past_of v.history) false → Finds by c (past_of w.history) gone }
{}
