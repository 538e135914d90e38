// What a sighter did.
ghost use Rattle.std.specs.Prelude.{ℕ, ◌≡◌, true, List, [], ◌∷◌, ◌++◌};
ghost use Rattle.history_lock.specs.Known.{Known};
ghost use Rattle.history_lock.specs.Entries.{NoneBy};
ghost use Rattle.history_lock.specs.Calls.{Learned};
ghost use Rattle.authority_model.specs.declared.journal.Item.{Item};
ghost use Rattle.shared_authority.specs.Journals.{IsJournal, caller_of, past_of};
ghost use Rattle.shared_authority.specs.Passes.{Unlisted};
ghost use Rattle.authority_model.specs.declared.key.Key.{Key};
ghost use Rattle.authority_model.specs.declared.verdict.GrantRow.{GrantRow};
ghost use Rattle.authority_model.specs.declared.verdict.Verdict.{Verdict};
ghost use Rattle.authority_model.specs.Agents.{unlists};
ghost use Rattle.authority_model.specs.Legal.{Legal};
ghost use Rattle.authority_model.specs.Licensed.{Licensed};
ghost use Rattle.connection_lookout.specs.Resting.{WasMade, YesRestsOn};
ghost use Rattle.connection_lookout.specs.Unlistings.{DidUnlist, IsUnlisting};

/// A sighter that has no item took out nothing. What it took out stays the same while others' items
/// come, and with its own item it took out one process more.
pub fn unlistings_grow()
    ensures none { (n : ℕ) (history : List Item) → NoneBy caller_of n history → DidUnlist n (past_of history) [] }
    ensures others { (n : ℕ) (v w : Known Item) (ps : List (ℕ × ℕ)) → v.number ≡ n → Learned caller_of IsJournal v w → DidUnlist n (past_of v.history) ps → DidUnlist n (past_of w.history) ps }
    ensures own { (n : ℕ) (v : Known Item) (pid start place : ℕ) (w : Known Item) (ps : List (ℕ × ℕ)) → v.number ≡ n → Unlisted v 0 pid start place w → DidUnlist n (past_of v.history) ps → DidUnlist n (past_of w.history) (ps ++ (pid, start) ∷ []) }
{}

/// A load ends the temporary authorizations whose keys it does not list, and they stay ended: no yes
/// behind it, by its own reason or through an implying action, rests on one that was made before it.
/// What a sighter enters is such a load for each key of the process that it takes out.
pub fn loads_end_grants()
    ensures ended { (later : List Item) (load : Item) (before : List Item) (row : GrantRow) → Legal (later ++ load ∷ before) → WasMade before row → unlists row.key load ≡ true
        → (i : Item) (c serial : ℕ) (v : Verdict) (l : Licensed (later ++ load ∷ before) i c serial v) → YesRestsOn (later ++ load ∷ before) i c serial v l row → ⊥ }
    ensures sighters { (n : ℕ) (past : List Item) (i : Item) (p : ℕ × ℕ) (uid : ℕ) → IsUnlisting n past i p → unlists (Key.Process p.0 p.1 uid) i ≡ true }
{}
