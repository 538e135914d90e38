// What is handed in decides the history.
ghost use Rattle.std.specs.Prelude.{◌≡◌, List};
ghost use Rattle.authority_model.specs.declared.journal.History.{History};
ghost use Rattle.authority_model.specs.declared.journal.Item.{Item};
ghost use Rattle.authority_model.specs.Lists.{Each};
ghost use Rattle.authority_model.specs.Items.{items_of};
ghost use Rattle.authority_model.specs.Legal.{IsLegal, Legal};
ghost use Rattle.authority_model.specs.Given.{Given, IsHistoryOf, IsProper, history_of};

/// For each list of callers, moments, salts, and events or loads there is exactly one legal
/// history that has them, in this order, where each moment is the greatest handed in so far; and it
/// is the history of exactly one legal journal.
pub fn one_history()
    ensures is_legal { (given : List Given) → Each IsProper given → Legal (history_of given) }
    ensures is_of { (given : List Given) → Each IsProper given → IsHistoryOf (history_of given) given }
    ensures is_only { (given : List Given) → Each IsProper given → (past : List Item) → Legal past → IsHistoryOf past given → past ≡ history_of given }
    ensures journal { (given : List Given) → Each IsProper given → (h : History) × IsLegal h × (items_of h ≡ history_of given) }
    ensures only_journal { (given : List Given) → Each IsProper given → (h h' : History) → IsLegal h → IsLegal h' → IsHistoryOf (items_of h) given → IsHistoryOf (items_of h') given → h ≡ h' }
{}
