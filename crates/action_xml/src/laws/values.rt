// Laws about the values of attributes.
ghost use Rattle.std.specs.Prelude.{◌≡◌, ◌⊎◌, ℕ, List, [], ◌∷◌, ◌++◌, Ok};
ghost use Rattle.pk_types.specs.Text.{IsText};
ghost use Rattle.xml_pieces.specs.Texts.{value};
ghost use Rattle.action_xml.specs.TextForm.{Bit, AreValueBits, bits_bytes, bits_text};

/// A value between its quotes is read again, whatever follows.
pub fn values_are_read_again()
    ensures again { (place rest : List ℕ) (quote : ℕ) (bits : List Bit)
        → (quote ≡ 34) ⊎ (quote ≡ 39) → AreValueBits quote bits (quote ∷ []) → IsText (bits_text bits)
        → value place (quote ∷ (bits_bytes bits ++ quote ∷ rest)) ≡ Ok (bits_text bits, rest) }
{}

/// A value that is read stands between its quotes and has the form of one.
pub fn values_read_have_a_form()
    ensures found { (place bytes text rest : List ℕ) → value place bytes ≡ Ok (text, rest)
        → (quote : ℕ) × (bits : List Bit) × ((quote ≡ 34) ⊎ (quote ≡ 39)) × AreValueBits quote bits (quote ∷ [])
        × (bytes ≡ quote ∷ (bits_bytes bits ++ quote ∷ rest)) × (text ≡ bits_text bits) × IsText text }
{}
