// Laws about what is sent. Each is the contract of a function that does nothing.
ghost use Rattle.std.specs.Prelude.{◌≡◌, ℕ, [], ◌∷◌};
ghost use Rattle.dbus_values.specs.Form.{shown_of};
ghost use Rattle.authority_model.specs.declared.verdict.Verdict.{Verdict};
ghost use Rattle.authority_model.specs.Details.{details_of};
ghost use Rattle.authority_messages.specs.Values.{authorization_result};
ghost use Rattle.authority_messages.specs.Outgoing.{under, return_to};

/// What is read of the reply to a check tells its verdict: whether it is yes, whether it is a
/// challenge, and each detail in its order, the reason first. Replies that are shown alike tell the
/// same.
pub fn a_reply_tells_its_verdict()
    ensures told { (v w : Verdict) (answered other serial later : ℕ) → shown_of (under serial (return_to answered (authorization_result v ∷ []))) ≡ shown_of (under later (return_to other (authorization_result w ∷ [])))
        → (v.yes ≡ w.yes) × (v.challenge ≡ w.challenge) × (details_of v ≡ details_of w) }
{}
