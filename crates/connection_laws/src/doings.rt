// What a connection did.
ghost use Rattle.std.specs.Prelude.{ℕ, ◌≡◌, List, [], ◌∷◌, ◌++◌};
ghost use Rattle.history_lock.specs.Known.{Known};
ghost use Rattle.history_lock.specs.Entries.{NoneBy};
ghost use Rattle.history_lock.specs.Calls.{Learned};
ghost use Rattle.authority_model.specs.declared.journal.Item.{Item};
ghost use Rattle.authority_model.specs.Given.{Given};
ghost use Rattle.shared_authority.specs.Journals.{IsJournal, caller_of, past_of};
ghost use Rattle.shared_authority.specs.Passes.{Entered};
ghost use Rattle.connection_laws.specs.Doings.{Did};

/// A connection that has no item did nothing. What it did stays the same while others' items come,
/// and with its own item it did one thing more.
pub fn doings_grow()
    ensures none { (n : ℕ) (history : List Item) → NoneBy caller_of n history → Did n (past_of history) [] }
    ensures others { (n : ℕ) (v w : Known Item) (given : List Given) → v.number ≡ n → Learned caller_of IsJournal v w → Did n (past_of v.history) given → Did n (past_of w.history) given }
    ensures own { (n : ℕ) (v : Known Item) (g : Given) (w : Known Item) (given : List Given) → v.number ≡ n → Entered v g w → Did n (past_of v.history) given → Did n (past_of w.history) (given ++ g ∷ []) }
{}
