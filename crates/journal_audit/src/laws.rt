// A history is legal, or it has one first fault.
ghost use Rattle.std.specs.Prelude.{◌≡◌, ℕ};
ghost use Rattle.authority_model.specs.declared.journal.History.{History};
ghost use Rattle.authority_model.specs.Legal.{IsLegal};
ghost use Rattle.journal_audit.specs.declared.clause.Clause.{Clause};
ghost use Rattle.journal_audit.specs.Fault.{IsFirstFault};

/// A legal history has no fault.
pub fn legal_has_no_fault()
    ensures none { (h : History) (place : ℕ) (clause : Clause) → IsLegal h → IsFirstFault h place clause → ⊥ }
{}

/// A history has one first fault.
pub fn first_fault_is_one()
    ensures place { (h : History) (k m : ℕ) (c d : Clause) → IsFirstFault h k c → IsFirstFault h m d → k ≡ m }
    ensures clause { (h : History) (k m : ℕ) (c d : Clause) → IsFirstFault h k c → IsFirstFault h m d → c ≡ d }
{}
