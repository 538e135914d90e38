// Laws about the form of action files. Each is the contract of a function that does nothing.
ghost use Rattle.std.specs.Prelude.{◌≡◌, ◌+◌, ℕ, List, ◌∷◌, codes, Ok, ◌++◌, length};
ghost use Rattle.xml_pieces.specs.Reading.{steps, On};
ghost use Rattle.pk_types.specs.Text.{IsText};
ghost use Rattle.xml_pieces.specs.Markup.{declaration};
ghost use Rattle.xml_pieces.specs.Texts.{text_step, whole_text};
ghost use Rattle.action_xml.specs.TextForm.{IsName, IsWhite, NoDashes, comment_bytes, Bit, IsBit, bit_bytes, bit_text, AreBits, bits_bytes, bits_text};

/// The pieces of a text are read again, whatever follows.
pub fn texts_are_read_again()
    ensures again { (wanted place so rest : List ℕ) (bits : List Bit) (n : ℕ) → AreBits bits rest
        → steps (text_step wanted place) (length bits + n) (so, bits_bytes bits ++ rest) ≡ steps (text_step wanted place) n (so ++ bits_text bits, rest) }
{}

/// A comment that is read has the form of one.
pub fn comments_read_have_a_form()
    ensures found { (here rest : List ℕ) → declaration here ≡ Ok rest → (inside : List ℕ) × NoDashes inside × (here ≡ comment_bytes inside ++ rest) }
{}

/// A step in a text takes one piece of it.
pub fn steps_take_pieces()
    ensures found { (wanted place so bytes more rest : List ℕ) → text_step wanted place (so, bytes) ≡ Ok (On (more, rest))
        → (bit : Bit) × IsBit bit rest × (bytes ≡ bit_bytes bit ++ rest) × (more ≡ so ++ bit_text bit) }
{}

/// A whole text is read again, whatever follows its end tag.
pub fn whole_texts_are_read_again()
    ensures again { (wanted place white rest : List ℕ) (bits : List Bit) → IsName wanted → IsWhite white
        → AreBits bits (codes "</" ++ (wanted ++ (white ++ 62 ∷ rest))) → IsText (bits_text bits)
        → whole_text wanted place (bits_bytes bits ++ (codes "</" ++ (wanted ++ (white ++ 62 ∷ rest)))) ≡ Ok (bits_text bits, rest) }
{}

/// A whole text that is read has the form of one.
pub fn whole_texts_read_have_a_form()
    ensures found { (wanted place bytes text rest : List ℕ) → whole_text wanted place bytes ≡ Ok (text, rest)
        → (bits : List Bit) × (white : List ℕ) × IsWhite white × AreBits bits (codes "</" ++ (wanted ++ (white ++ 62 ∷ rest)))
        × (bytes ≡ bits_bytes bits ++ (codes "</" ++ (wanted ++ (white ++ 62 ∷ rest)))) × (text ≡ bits_text bits) × IsText text }
{}
