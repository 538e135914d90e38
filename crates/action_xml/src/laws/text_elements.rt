// Laws about elements that hold a text.
ghost use Rattle.std.specs.Prelude.{◌≡◌, ℕ, List, ◌++◌, Ok, false, is_none};
ghost use Rattle.xml_pieces.specs.Texts.{Tag, tag, text};
ghost use Rattle.action_xml.specs.TextForm.{IsName};
ghost use Rattle.action_xml.specs.TextElementForm.{TextElement, IsTextElement, behind_name_bytes, inside_bytes, attributes_of, text_of};

/// An element with a text is read again behind its name, whatever follows: its start tag, and the
/// text up to its end tag.
pub fn text_elements_are_read_again()
    ensures start { (name rest : List ℕ) (e : TextElement) → IsTextElement e
        → tag false (behind_name_bytes name e ++ rest) ≡ Ok (record { attributes = attributes_of e; is_empty = is_none e.inside; rest = inside_bytes name e.end_white e.inside ++ rest }) }
    ensures text { (name place rest : List ℕ) (e : TextElement) → IsName name → IsTextElement e
        → text name place (record { attributes = attributes_of e; is_empty = is_none e.inside; rest = inside_bytes name e.end_white e.inside ++ rest }) ≡ Ok (text_of e, rest) }
{}

/// An element whose start tag and text are read has the form of one, behind its name.
pub fn text_elements_read_have_a_form()
    ensures found { (name place bytes held rest : List ℕ) (t : Tag) → tag false bytes ≡ Ok t → text name place t ≡ Ok (held, rest)
        → (e : TextElement) × IsTextElement e × (bytes ≡ behind_name_bytes name e ++ rest) × (held ≡ text_of e) × (t.attributes ≡ attributes_of e) }
{}
