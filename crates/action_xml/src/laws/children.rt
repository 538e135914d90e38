// Laws about what stands between elements.
ghost use Rattle.std.specs.Prelude.{◌≡◌, ℕ, false, List, ◌∷◌, ◌++◌, Ok, codes};
ghost use Rattle.xml_pieces.specs.Bytes.{is_name_byte};
ghost use Rattle.xml_pieces.specs.Children.{Next, Child, End, next};
ghost use Rattle.action_xml.specs.TextForm.{IsWhite, IsName};
ghost use Rattle.action_xml.specs.GapForm.{Gap, gaps_bytes, AreGaps, IsNext};

/// An element behind white space and comments is found again by its name, whatever follows it.
pub fn elements_are_found_again()
    ensures again { (parent n : List ℕ) (gaps : List Gap) (c : ℕ) (rest : List ℕ) → AreGaps gaps → IsName n → is_name_byte c ≡ false
        → next parent (gaps_bytes gaps ++ 60 ∷ (n ++ c ∷ rest)) ≡ Ok (Child n (60 ∷ (n ++ c ∷ rest)) (c ∷ rest)) }
{}

/// The end tag of the parent behind white space and comments is found again.
pub fn ends_are_found_again()
    ensures again { (parent white : List ℕ) (gaps : List Gap) (rest : List ℕ) → AreGaps gaps → IsName parent → IsWhite white
        → next parent (gaps_bytes gaps ++ (codes "</" ++ (parent ++ (white ++ 62 ∷ rest)))) ≡ Ok (End rest) }
{}

/// What is found next stands behind white space and comments, and is an element or the end tag of
/// the parent.
pub fn what_is_found_next_has_a_form()
    ensures found { (parent bytes : List ℕ) (x : Next) → next parent bytes ≡ Ok x
        → (gaps : List Gap) × (here : List ℕ) × AreGaps gaps × (bytes ≡ gaps_bytes gaps ++ here) × IsNext parent x here }
{}
