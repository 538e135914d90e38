// Laws about whole documents.
ghost use Rattle.std.specs.Prelude.{◌≡◌, ℕ, List, Ok};
ghost use Rattle.action_drafts.specs.declared.draft.FileDraft.{FileDraft};
ghost use Rattle.action_drafts.specs.Documents.{document};
ghost use Rattle.action_xml.specs.DocumentForm.{Document, document_bytes, SaysDocument};

/// A document is read again as what its root says, whatever stands before the root and behind it.
pub fn documents_are_read_again()
    ensures again { (d : Document) (f : FileDraft) → SaysDocument d f → document (document_bytes d) ≡ Ok f }
{}

/// A document that is read has the form of one, and its root says what is read.
pub fn documents_read_have_a_form()
    ensures found { (bytes : List ℕ) (f : FileDraft) → document bytes ≡ Ok f
        → (d : Document) × SaysDocument d f × (bytes ≡ document_bytes d) }
{}
