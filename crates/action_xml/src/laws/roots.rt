// Laws about the root element.
ghost use Rattle.std.specs.Prelude.{◌≡◌, ◌++◌, ◌∷◌, ℕ, List, Ok};
ghost use Rattle.action_drafts.specs.declared.draft.FileDraft.{FileDraft};
ghost use Rattle.action_drafts.specs.Documents.{root};
ghost use Rattle.action_xml.specs.RowForm.{Parent};
ghost use Rattle.action_xml.specs.RootForm.{FilePart, SaysRoot, root_bytes};

/// A root element is read again, whatever follows.
pub fn roots_are_read_again()
    ensures again { (rest : List ℕ) (p : Parent FilePart) (f : FileDraft) → SaysRoot p f
        → root (root_bytes p ++ rest) ≡ Ok (f, rest) }
{}

/// A root element that is read from its `<` has the form of one.
pub fn roots_read_have_a_form()
    ensures found { (bytes rest : List ℕ) (f : FileDraft) → root (60 ∷ bytes) ≡ Ok (f, rest)
        → (p : Parent FilePart) × SaysRoot p f × (60 ∷ bytes ≡ root_bytes p ++ rest) }
{}
