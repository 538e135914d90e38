// Lines and their words.
ghost use Rattle.std.specs.Prelude.{◌≡◌, ◌++◌, ◌∷◌, List, ℕ};
ghost use Rattle.pk_types.specs.Pieces.{Lacks, pieces_of};
ghost use Rattle.audit_words.specs.Codecs.{Piece, texts};
ghost use Rattle.audit_words.specs.Lines.{AreClean, joined, written};

/// The words of a written line are its words, and a line is its words with a space between them.
pub fn lines_are_words()
    ensures again { (w : List ℕ) (ps : List Piece) → Lacks 32 w → AreClean ps → pieces_of 32 (w ++ written ps) ≡ w ∷ texts ps }
    ensures found { (bytes : List ℕ) → joined (pieces_of 32 bytes) ≡ bytes }
{}
