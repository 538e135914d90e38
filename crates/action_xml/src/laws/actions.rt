// Laws about the element `action`.
ghost use Rattle.std.specs.Prelude.{◌≡◌, ◌++◌, ℕ, List, Ok};
ghost use Rattle.action_drafts.specs.declared.draft.ActionDraft.{ActionDraft};
ghost use Rattle.action_drafts.specs.Actions.{action};
ghost use Rattle.action_xml.specs.RowForm.{Parent};
ghost use Rattle.action_xml.specs.ActionForm.{Part, SaysAction, action_bytes};

/// An action is read again behind its name, whatever follows.
pub fn actions_are_read_again()
    ensures again { (place rest : List ℕ) (p : Parent Part) (a : ActionDraft) → SaysAction p a
        → action place (action_bytes p ++ rest) ≡ Ok (a, rest) }
{}

/// An action that is read has the form of one behind its name.
pub fn actions_read_have_a_form()
    ensures found { (place bytes rest : List ℕ) (a : ActionDraft) → action place bytes ≡ Ok (a, rest)
        → (p : Parent Part) × SaysAction p a × (bytes ≡ action_bytes p ++ rest) }
{}
