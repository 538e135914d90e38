// The condition of the loader, call by call of its pass.
ghost use Rattle.std.specs.Prelude.{◌≡◌, ℕ, None};
ghost use Rattle.history_lock.specs.Known.{Known};
ghost use Rattle.history_lock.specs.Calls.{Learned};
ghost use Rattle.authority_model.specs.declared.journal.Item.{Item};
ghost use Rattle.authority_model.specs.declared.load.Loaded.{Loaded};
ghost use Rattle.authority_model.specs.Given.{load_given};
ghost use Rattle.authority_model.specs.Peers.{uid_of};
ghost use Rattle.shared_authority.specs.Journals.{IsJournal, caller_of, past_of};
ghost use Rattle.shared_authority.specs.Passes.{Submitted};

/// A pass of number 0 that knows of no Connect by 0 goes on to know of none: others' items have other
/// callers, and a load of its own is no Connect.
pub fn loaders_stay_unconnected()
    ensures others { (v w : Known Item) → v.number ≡ 0 → uid_of (past_of v.history) 0 ≡ None → Learned caller_of IsJournal v w → uid_of (past_of w.history) 0 ≡ None }
    ensures load { (v w : Known Item) (moment place : ℕ) (loaded : Loaded) → v.number ≡ 0 → uid_of (past_of v.history) 0 ≡ None → Submitted v (load_given v.number moment loaded) place w → uid_of (past_of w.history) 0 ≡ None }
{}
